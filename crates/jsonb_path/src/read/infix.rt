//! Operators between two operands.

ghost use Rattle.std.specs.Prelude.{◌≡◌, ◌<◌, IfSome, length, option_map};
ghost use Rattle.jsonb_path.specs.Dotted.{lexemes};
ghost use Rattle.jsonb_path.specs.Grammar.{infix_at, infix_front, operation_of_mark, operation_of_marks};
ghost use Rattle.jsonb_path.specs.Grammar.{looseness, starts_after, wants_test};

use super::scan::{after_word, is_word};
use crate::compare::Comparison;
use crate::path::Operator;
use crate::token::{PlacedToken, Token};

/// An operator between two operands.
#[derive(Clone, Copy, Debug)]
pub enum Infix {
    StartsWith,
    Operation(Operation),
}

/// An operator between two expressions or two tests.
#[derive(Clone, Copy, Debug)]
pub enum Operation {
    Or,
    And,
    Compare(Comparison),
    Arithmetic(Operator),
}

impl Infix {
    /// How loosely the operator binds: `*` and `%` are 1, `||` is 5.
    pub fn looseness(self) -> u8
        ensures { result ≡ looseness self }
    {
        match self {
            Infix::StartsWith => 3,
            Infix::Operation(Operation::Or) => 5,
            Infix::Operation(Operation::And) => 4,
            Infix::Operation(Operation::Compare(_)) => 3,
            Infix::Operation(Operation::Arithmetic(Operator::Add | Operator::Subtract)) => 2,
            Infix::Operation(Operation::Arithmetic(Operator::Multiply | Operator::Remainder)) => 1,
        }
    }
}

impl Operation {
    /// Whether the operands are tests, and not expressions.
    pub fn wants_test(self) -> bool
        ensures { result ≡ wants_test self }
    {
        matches!(self, Operation::Or | Operation::And)
    }
}

/// The operator that binds just so loosely, if the tokens begin with one, and what is after it.
pub fn infix_at(looseness: u8, tokens: &[PlacedToken]) -> Option<(Infix, &[PlacedToken])>
    ensures meaning { option_map (λ x. (x.0, lexemes x.1.now)) result
        ≡ infix_at looseness (lexemes tokens.now) }
    ensures shorter { IfSome result (λ x. length x.1.now < length tokens.now) }
{
    let (infix, rest) = infix_front(tokens)?;
    if infix.looseness() == looseness {
        Some((infix, rest))
    } else {
        None
    }
}

// The operator that the tokens begin with.
fn infix_front(tokens: &[PlacedToken]) -> Option<(Infix, &[PlacedToken])>
    ensures meaning { option_map (λ x. (x.0, lexemes x.1.now)) result
        ≡ infix_front (lexemes tokens.now) }
    ensures shorter { IfSome result (λ x. length x.1.now < length tokens.now) }
{
    let [first, rest @ ..] = tokens else {
        return None;
    };
    match &first.token {
        Token::Mark(mark) => Some((Infix::Operation(operation_of_mark(*mark)?), rest)),
        Token::Pair(first, second) => Some((
            Infix::Operation(operation_of_marks(*first, *second)?),
            rest,
        )),
        Token::Word(word) if is_word("starts", word.as_str()) => starts_with(rest),
        _ => None,
    }
}

// `with` after `starts`, and what is after it.
fn starts_with(tokens: &[PlacedToken]) -> Option<(Infix, &[PlacedToken])>
    ensures meaning { option_map (λ x. (x.0, lexemes x.1.now)) result
        ≡ starts_after (lexemes tokens.now) }
    ensures shorter { IfSome result (λ x. length x.1.now < length tokens.now) }
{
    let rest = after_word("with", tokens)?;
    Some((Infix::StartsWith, rest))
}

// The operator of one mark.
#[tactic(auto, unfolding(crate::specs::Grammar::operation_of_mark))]
fn operation_of_mark(mark: char) -> Option<Operation>
    ensures { result ≡ operation_of_mark mark }
{
    match mark {
        '*' => Some(Operation::Arithmetic(Operator::Multiply)),
        '%' => Some(Operation::Arithmetic(Operator::Remainder)),
        '+' => Some(Operation::Arithmetic(Operator::Add)),
        '-' => Some(Operation::Arithmetic(Operator::Subtract)),
        '<' => Some(Operation::Compare(Comparison::Less)),
        '>' => Some(Operation::Compare(Comparison::Greater)),
        _ => None,
    }
}

// The operator of two marks.
#[tactic(auto, unfolding(crate::specs::Grammar::operation_of_marks))]
fn operation_of_marks(first: char, second: char) -> Option<Operation>
    ensures { result ≡ operation_of_marks first second }
{
    match (first, second) {
        ('|', '|') => Some(Operation::Or),
        ('&', '&') => Some(Operation::And),
        ('=', '=') => Some(Operation::Compare(Comparison::Equal)),
        ('!', '=') | ('<', '>') => Some(Operation::Compare(Comparison::NotEqual)),
        ('<', '=') => Some(Operation::Compare(Comparison::LessOrEqual)),
        ('>', '=') => Some(Operation::Compare(Comparison::GreaterOrEqual)),
        _ => None,
    }
}
