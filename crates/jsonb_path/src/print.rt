//! The text of a path.

ghost use Rattle.std.specs.Prelude.{◌≡◌, ◌<◌, ◌++◌, [], IsTrue, codes, length};
ghost use Rattle.std.specs.Fmt.{WritesStyledOnOk};
ghost use Rattle.std.specs.List.{list_all};
ghost use Rattle.jsonb_value.specs.Text.{string_text};
ghost use Rattle.jsonb_path.specs.PathParts.{are_parts_after, is_accessor, is_part, is_source};
ghost use Rattle.jsonb_path.specs.PathParts.{is_prefix, is_subscript, is_test, is_test_part};
ghost use Rattle.jsonb_path.specs.PathText.{accessor_text, accessors_text, closing};
ghost use Rattle.jsonb_path.specs.PathText.{comparison_text, expression_text, level_text};
ghost use Rattle.jsonb_path.specs.PathText.{levels_text, literal_text, method_text, mode_text};
ghost use Rattle.jsonb_path.specs.PathText.{opening, operator_text, path_text, predicate_text};
ghost use Rattle.jsonb_path.specs.PathText.{primary_text, rank, sign_character, subscripts_text};
ghost use Rattle.jsonb_path.specs.PathTree.{accessor_of, accessors_of, as_expression};
ghost use Rattle.jsonb_path.specs.PathTree.{expression_at, literal_tree, node_of, nodes_of};
ghost use Rattle.jsonb_path.specs.PathTree.{predicate_of, primary_of, subscript_onto, subscripts_of};
ghost use Rattle.jsonb_path.specs.PathTree.{test_at};
ghost use Rattle.jsonb_path.specs.Syntax.{chain, no_accessors, no_subscripts, starting};

use crate::compare::Comparison;
use crate::path::{
    Accessor, Level, Literal, Method, Mode, Operator, Part, Path, Sign, Source, Subscript, Test,
};
use jsonb_value::Number;
use jsonb_value::layer::{write_number, write_string};
use std::fmt;

// How tightly what stands between operands binds: an operand that binds no tighter stands in
// parentheses.
const NOTHING: u8 = 0;

const OR: u8 = 1;

const AND: u8 = 2;

const COMPARISON: u8 = 3;

const SUM: u8 = 4;

const PRODUCT: u8 = 5;

const SIGN: u8 = 6;

/// Writes the path as PostgreSQL prints a `jsonpath`: `lax` is left out, keys are quoted, and
/// operators stand in parentheses, as in `strict ($."a"[*] + 1)`, unless they bind tighter than the
/// one around them. Width and fill are ignored.
impl fmt::Display for Path {
    ghost use Rattle.std.specs.Prelude.{Some};
    ghost use Rattle.jsonb_path.specs.PathText.{path_text};

    ghost output = { λ path. Some (path_text path) };

    ghost styled_output = { λ path _. Some (path_text path) };

    fn fmt<W: fmt::Write>(&self, f: &mut fmt::Formatter<W>) -> fmt::Result {
        write_path(self, f)
    }
}

#[tactic(auto, using(crate::proofs::PathTextLaws::path_parts))]
fn write_path<W: fmt::Write>(path: &Path, f: &mut fmt::Formatter<W>) -> fmt::Result
    ensures { WritesStyledOnOk W.write_str_gives f.old result (path_text path.now) f.new }
{
    let parts = path.parts();
    write_at(parts, mode_text(path.mode()), parts.len() - 1, SIGN, "", f)
}

// Writes the part of this index between two texts.
#[cycle(print)]
#[tactic(auto, using(crate::proofs::PathTextLaws::texts))]
fn write_at<W: fmt::Write>(
    parts: &[Part],
    opening: &str,
    at: usize,
    rank: u8,
    close: &str,
    f: &mut fmt::Formatter<W>,
) -> fmt::Result
    requires parts { IsTrue (are_parts_after [] parts.now) }
    requires place { at < length parts.now }
    ensures part { WritesStyledOnOk W.write_str_gives f.old result (opening.now
        ++ (expression_text rank (expression_at (nodes_of parts.now) at) ++ close.now)) f.new }
    ensures test { IsTrue (is_test parts.now at) → WritesStyledOnOk W.write_str_gives f.old result
        (opening.now ++ (predicate_text rank (test_at (nodes_of parts.now) at) ++ close.now)) f.new }
{
    f.write_str(opening)?;
    write_part(&parts[..at], &parts[at], rank, f)?;
    f.write_str(close)
}

// Writes a part, beside an operator of this rank, after the parts that it names.
#[cycle(print)]
#[tactic(auto, using(crate::proofs::PathTextLaws::texts))]
fn write_part<W: fmt::Write>(
    parts: &[Part],
    part: &Part,
    outer: u8,
    f: &mut fmt::Formatter<W>,
) -> fmt::Result
    requires parts { IsTrue (are_parts_after [] parts.now) }
    requires part { IsTrue (is_part parts.now part.now) }
    ensures { WritesStyledOnOk W.write_str_gives f.old result
        (expression_text outer (as_expression (node_of (nodes_of parts.now) part.now))) f.new }
{
    match part {
        Part::Chain(source, accessors) => write_chain(parts, source, accessors, f),
        Part::Sign(sign, operand) => {
            let open = before_sign(*sign, outer);
            write_at(parts, open, *operand, SIGN, closing(SIGN, outer), f)
        }
        Part::Arithmetic(operator, left, right) => {
            let word = operator_text(*operator);
            write_operation(parts, rank(*operator), *left, word, *right, outer, f)
        }
        Part::Test(test) => write_test(parts, test, outer, f),
    }
}

// Writes two parts and an operator of this rank between them.
#[cycle(print)]
#[tactic(auto, using(crate::proofs::PathTextLaws::texts))]
fn write_operation<W: fmt::Write>(
    parts: &[Part],
    rank: u8,
    left: usize,
    word: &str,
    right: usize,
    outer: u8,
    f: &mut fmt::Formatter<W>,
) -> fmt::Result
    requires parts { IsTrue (are_parts_after [] parts.now) }
    requires left { left < length parts.now }
    requires right { right < length parts.now }
    ensures parts { WritesStyledOnOk W.write_str_gives f.old result (opening rank outer
        ++ (expression_text rank (expression_at (nodes_of parts.now) left)
        ++ (word.now
        ++ (expression_text rank (expression_at (nodes_of parts.now) right)
        ++ closing rank outer)))) f.new }
    ensures tests { IsTrue (is_test parts.now left) → IsTrue (is_test parts.now right)
        → WritesStyledOnOk W.write_str_gives f.old result (opening rank outer
        ++ (predicate_text rank (test_at (nodes_of parts.now) left)
        ++ (word.now
        ++ (predicate_text rank (test_at (nodes_of parts.now) right)
        ++ closing rank outer)))) f.new }
{
    write_at(parts, opening(rank, outer), left, rank, word, f)?;
    write_at(parts, "", right, rank, closing(rank, outer), f)
}

#[cycle(print)]
#[tactic(auto, using(crate::proofs::PathTextLaws::texts))]
fn write_chain<W: fmt::Write>(
    parts: &[Part],
    source: &Source,
    accessors: &[Accessor],
    f: &mut fmt::Formatter<W>,
) -> fmt::Result
    requires parts { IsTrue (are_parts_after [] parts.now) }
    requires source { IsTrue (is_source parts.now source.now) }
    requires accessors { IsTrue (list_all (is_accessor parts.now) accessors.now) }
    ensures { WritesStyledOnOk W.write_str_gives f.old result
        (expression_text 0 (chain (primary_of (nodes_of parts.now) source.now)
        (accessors_of (nodes_of parts.now) accessors.now))) f.new }
{
    write_source(parts, source, !accessors.is_empty(), f)?;
    let mut left = accessors;
    while let [accessor, rest @ ..] = left {
        write_accessor(parts, accessor, f)?;
        left = rest;
    }
    Ok(())
}

#[cycle(print)]
#[tactic(auto, using(crate::proofs::PathTextLaws::texts))]
fn write_source<W: fmt::Write>(
    parts: &[Part],
    source: &Source,
    before_accessor: bool,
    f: &mut fmt::Formatter<W>,
) -> fmt::Result
    requires parts { IsTrue (are_parts_after [] parts.now) }
    requires source { IsTrue (is_source parts.now source.now) }
    ensures { WritesStyledOnOk W.write_str_gives f.old result
        (primary_text before_accessor (primary_of (nodes_of parts.now) source.now)) f.new }
{
    match source {
        Source::Root => f.write_str("$"),
        Source::Current => f.write_str("@"),
        Source::Last => f.write_str("last"),
        Source::Literal(literal) => write_literal(literal, before_accessor, f),
        Source::Variable(name) => write_name("$", name, f),
        Source::Part(at) => write_at(parts, "(", *at, NOTHING, ")", f),
    }
}

#[cycle(print)]
#[tactic(auto, using(crate::proofs::PathTextLaws::texts))]
fn write_accessor<W: fmt::Write>(
    parts: &[Part],
    accessor: &Accessor,
    f: &mut fmt::Formatter<W>,
) -> fmt::Result
    requires parts { IsTrue (are_parts_after [] parts.now) }
    requires accessor { IsTrue (is_accessor parts.now accessor.now) }
    ensures { WritesStyledOnOk W.write_str_gives f.old result
        (accessor_text (accessor_of (nodes_of parts.now) accessor.now)) f.new }
{
    match accessor {
        Accessor::Member(name) => write_name(".", name, f),
        Accessor::AllMembers => f.write_str(".*"),
        Accessor::AllItems => f.write_str("[*]"),
        Accessor::Items(subscripts) => write_subscripts(parts, subscripts, f),
        Accessor::Descendants(first, last) => write_levels(*first, *last, f),
        Accessor::Filter(test) => write_at(parts, "?(", *test, NOTHING, ")", f),
        Accessor::Method(method) => f.write_str(method_text(*method)),
    }
}

#[cycle(print)]
#[tactic(auto, using(crate::proofs::PathTextLaws::texts))]
fn write_subscripts<W: fmt::Write>(
    parts: &[Part],
    subscripts: &[Subscript],
    f: &mut fmt::Formatter<W>,
) -> fmt::Result
    requires parts { IsTrue (are_parts_after [] parts.now) }
    requires subscripts { IsTrue (list_all (is_subscript parts.now) subscripts.now) }
    ensures { WritesStyledOnOk W.write_str_gives f.old result (codes "["
        ++ (subscripts_text [] (subscripts_of (nodes_of parts.now) subscripts.now)
        ++ codes "]")) f.new }
{
    f.write_str("[")?;
    let mut separator = "";
    let mut left = subscripts;
    while let [subscript, rest @ ..] = left {
        write_subscript(parts, separator, *subscript, f)?;
        separator = ",";
        left = rest;
    }
    f.write_str("]")
}

#[cycle(print)]
#[tactic(auto, using(crate::proofs::PathTextLaws::texts))]
fn write_subscript<W: fmt::Write>(
    parts: &[Part],
    separator: &str,
    subscript: Subscript,
    f: &mut fmt::Formatter<W>,
) -> fmt::Result
    requires parts { IsTrue (are_parts_after [] parts.now) }
    requires subscript { IsTrue (is_subscript parts.now subscript) }
    ensures { WritesStyledOnOk W.write_str_gives f.old result (subscripts_text separator.now
        (subscript_onto (nodes_of parts.now) subscript.first subscript.last no_subscripts)) f.new }
{
    write_at(parts, separator, subscript.first, NOTHING, "", f)?;
    match subscript.last {
        Some(last) => write_at(parts, " to ", last, NOTHING, "", f),
        None => Ok(()),
    }
}

#[cycle(print)]
#[tactic(auto, using(crate::proofs::PathTextLaws::texts))]
fn write_test<W: fmt::Write>(
    parts: &[Part],
    test: &Test,
    outer: u8,
    f: &mut fmt::Formatter<W>,
) -> fmt::Result
    requires parts { IsTrue (are_parts_after [] parts.now) }
    requires test { IsTrue (is_test_part parts.now test.now) }
    ensures { WritesStyledOnOk W.write_str_gives f.old result
        (predicate_text outer (predicate_of (nodes_of parts.now) test.now)) f.new }
{
    match test {
        Test::Or(left, right) => write_operation(parts, OR, *left, " || ", *right, outer, f),
        Test::And(left, right) => write_operation(parts, AND, *left, " && ", *right, outer, f),
        Test::Compare(comparison, left, right) => {
            let word = comparison_text(*comparison);
            write_operation(parts, COMPARISON, *left, word, *right, outer, f)
        }
        Test::StartsWith(left, prefix) => write_starting(parts, *left, prefix, outer, f),
        Test::Not(test) => write_at(parts, "!(", *test, NOTHING, ")", f),
        Test::IsUnknown(test) => write_at(parts, "(", *test, NOTHING, ") is unknown", f),
        Test::Exists(operand) => write_at(parts, "exists (", *operand, NOTHING, ")", f),
    }
}

// Writes a test of what a text starts with.
#[cycle(print)]
#[tactic(auto, using(crate::proofs::PathTextLaws::texts))]
fn write_starting<W: fmt::Write>(
    parts: &[Part],
    left: usize,
    prefix: &Source,
    outer: u8,
    f: &mut fmt::Formatter<W>,
) -> fmt::Result
    requires parts { IsTrue (are_parts_after [] parts.now) }
    requires left { left < length parts.now }
    requires prefix { IsTrue (is_prefix prefix.now) }
    ensures { WritesStyledOnOk W.write_str_gives f.old result (predicate_text outer (starting
        (expression_at (nodes_of parts.now) left)
        (chain (primary_of (nodes_of parts.now) prefix.now) no_accessors))) f.new }
{
    write_at(
        parts,
        opening(COMPARISON, outer),
        left,
        COMPARISON,
        " starts with ",
        f,
    )?;
    write_source(parts, prefix, false, f)?;
    f.write_str(closing(COMPARISON, outer))
}

// Writes a number in parentheses before an accessor, whose point would be its own.
#[tactic(auto, using(jsonb_value::proofs::Writing::joins))]
fn write_literal<W: fmt::Write>(
    literal: &Literal,
    before_accessor: bool,
    f: &mut fmt::Formatter<W>,
) -> fmt::Result
    ensures { WritesStyledOnOk W.write_str_gives f.old result
        (literal_text before_accessor (literal_tree literal.now)) f.new }
{
    match literal {
        Literal::Null => f.write_str("null"),
        Literal::Bool(true) => f.write_str("true"),
        Literal::Bool(false) => f.write_str("false"),
        Literal::Number(number) => {
            if before_accessor {
                f.write_str("(")?;
                write_number(number, f)?;
                f.write_str(")")
            } else {
                write_number(number, f)
            }
        }
        Literal::Text(text) => write_string(text, f),
    }
}

// Writes a name between quotes, after a `.` or a `$`.
#[tactic(auto, using(jsonb_value::proofs::Writing::joins))]
fn write_name<W: fmt::Write>(mark: &str, name: &str, f: &mut fmt::Formatter<W>) -> fmt::Result
    ensures { WritesStyledOnOk W.write_str_gives f.old result (mark.now ++ string_text name.now)
        f.new }
{
    f.write_str(mark)?;
    write_string(name, f)
}

#[tactic(auto, using(jsonb_value::proofs::Writing::joins))]
fn write_levels<W: fmt::Write>(first: Level, last: Level, f: &mut fmt::Formatter<W>) -> fmt::Result
    ensures { WritesStyledOnOk W.write_str_gives f.old result
        (codes ".**" ++ levels_text first last) f.new }
{
    if matches!((first, last), (Level::Number(0), Level::Last)) {
        return f.write_str(".**");
    }
    f.write_str(".**{")?;
    write_level(first, f)?;
    if first != last {
        f.write_str(" to ")?;
        write_level(last, f)?;
    }
    f.write_str("}")
}

fn write_level<W: fmt::Write>(level: Level, f: &mut fmt::Formatter<W>) -> fmt::Result
    ensures { WritesStyledOnOk W.write_str_gives f.old result (level_text level) f.new }
{
    match level {
        Level::Number(number) => write_number(&Number::UInt64(u64::from(number)), f),
        Level::Last => f.write_str("last"),
    }
}

fn mode_text(mode: Mode) -> &'static str
    ensures { result.now ≡ mode_text mode }
{
    match mode {
        Mode::Lax => "",
        Mode::Strict => "strict ",
    }
}

fn opening(own: u8, outer: u8) -> &'static str
    ensures { result.now ≡ opening own outer }
{
    if own <= outer { "(" } else { "" }
}

fn closing(own: u8, outer: u8) -> &'static str
    ensures { result.now ≡ closing own outer }
{
    if own <= outer { ")" } else { "" }
}

// A sign, with what precedes it.
fn before_sign(sign: Sign, outer: u8) -> &'static str
    ensures { result.now ≡ opening 6 outer ++ sign_character sign }
{
    match (sign, SIGN <= outer) {
        (Sign::Plus, false) => "+",
        (Sign::Plus, true) => "(+",
        (Sign::Minus, false) => "-",
        (Sign::Minus, true) => "(-",
    }
}

fn rank(operator: Operator) -> u8
    ensures { result ≡ rank operator }
{
    match operator {
        Operator::Add | Operator::Subtract => SUM,
        Operator::Multiply | Operator::Remainder => PRODUCT,
    }
}

fn operator_text(operator: Operator) -> &'static str
    ensures { result.now ≡ operator_text operator }
{
    match operator {
        Operator::Add => " + ",
        Operator::Subtract => " - ",
        Operator::Multiply => " * ",
        Operator::Remainder => " % ",
    }
}

fn comparison_text(comparison: Comparison) -> &'static str
    ensures { result.now ≡ comparison_text comparison }
{
    match comparison {
        Comparison::Equal => " == ",
        Comparison::NotEqual => " != ",
        Comparison::Less => " < ",
        Comparison::LessOrEqual => " <= ",
        Comparison::Greater => " > ",
        Comparison::GreaterOrEqual => " >= ",
    }
}

fn method_text(method: Method) -> &'static str
    ensures { result.now ≡ method_text method }
{
    match method {
        Method::Type => ".type()",
        Method::Size => ".size()",
        Method::Abs => ".abs()",
        Method::Floor => ".floor()",
        Method::Ceiling => ".ceiling()",
        Method::MemberNames => ".keyvalue().\"key\"",
        Method::MemberValues => ".keyvalue().\"value\"",
    }
}
