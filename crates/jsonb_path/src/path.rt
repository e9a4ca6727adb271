//! A path, read: what it asks.

ghost use Rattle.std.specs.Prelude.{◌≡◌, [], IfOk, IsTrue, chars, option_map};
ghost use Rattle.std.specs.List.{list_all};
ghost use Rattle.jsonb_path.specs.Meaning.{is_hidden, operated, signed_as};
ghost use Rattle.jsonb_path.specs.Grammar.{path_of_text, query_if_low};
ghost use Rattle.jsonb_path.specs.Height.{is_low, made_of};
ghost use Rattle.jsonb_path.specs.PathParts.{are_parts, are_parts_after, is_accessor, is_expression, is_part};
ghost use Rattle.jsonb_path.specs.PathParts.{is_prefix, is_source, is_subscript, is_test};
ghost use Rattle.jsonb_path.specs.PathTree.{as_expression, node_of, nodes_of, query_of};
ghost use Rattle.jsonb_path.specs.PathTree.{tree_of_parts};
ghost use Rattle.jsonb_path.specs.Unread.{ParsesText};

use crate::compare::Comparison;
use crate::height::is_low;
use crate::number::{NumberError, add, multiply, negate, remainder, subtract};
use crate::read::read_path;
use crate::token::ReadError;
use jsonb_value::Number;
use std::alloc::{AllocError, Global};
use std::marker::Model;

/// Whether a path passes over what is not there (`Lax`) or refuses it (`Strict`).
#[derive(Clone, Copy, Debug, PartialEq, Eq)]
pub enum Mode {
    Lax,
    Strict,
}

/// A path, as its parts: each comes after the parts that it names by their indexes, and the last
/// part is the whole path.
#[derive(Debug, Drop)]
pub struct Path {
    mode: Mode,
    parts: Vec<Part>,
}

impl Model for Path {
    ghost use Rattle.std.specs.Prelude.{IsTrue};
    ghost use Rattle.jsonb_path.specs.Height.{is_low};
    ghost use Rattle.jsonb_path.specs.PathParts.{PathParts, are_parts};
    ghost use Rattle.jsonb_path.specs.PathTree.{tree_of_parts};

    ghost Value = { PathParts };

    ghost view = { λ s. record { mode = s.mode; parts = s.parts.items } };

    ghost invariant = { λ s. record {
      earlier : IsTrue (are_parts s.parts.items);
      low : IsTrue (is_low (tree_of_parts s.parts.items));
    } };
}

impl Path {
    /// The path of these parts. `None` if there is none, one of them names a part that is not
    /// before it, an expression where a test is wanted, or a test where an expression is, or they
    /// name each other in more than 400 levels from the last one. A part that is named twice is
    /// walked twice.
    pub fn new(mode: Mode, parts: Vec<Part>) -> Option<Path>
        ensures { result ≡ made_of mode parts.items }
    {
        if are_parts(&parts) && is_low(&parts) {
            Some(Path { mode, parts })
        } else {
            None
        }
    }

    /// The path of a text, as PostgreSQL reads a `jsonpath`: `Refused` if the text is none, its
    /// parentheses, filters, subscripts and signs nest in more than 64 levels, or its operators and
    /// they in more than 400; `OutOfMemory` if an allocation fails. Left out are `/`, `like_regex`,
    /// `.double()`, `.datetime()`, and numbers past 128 bits or a scale of 255.
    pub fn of_text(alloc: Global, text: &str) -> Result<Path, ReadError>
        ensures { ParsesText (λ path. query_of path) result (path_of_text (chars text.now)) }
    {
        read_path(alloc, text)
    }

    // The path of these parts and a last one, unless it is too high.
    #[tactic(auto, using(crate::proofs::WholePathLaws::paths))]
    pub(crate) fn of_parts(
        mode: Mode,
        parts: Vec<Part>,
        last: Part,
    ) -> Result<Option<Path>, AllocError>
        requires parts { IsTrue (are_parts_after [] parts.items) }
        requires last { IsTrue (is_part parts.items last) }
        ensures { IfOk result (λ path. option_map query_of path ≡ query_if_low (record {
          mode = mode;
          tree = as_expression (node_of (nodes_of parts.items) last);
        })) }
    {
        let mut parts = parts;
        parts.push(last)?;
        if is_low(&parts) {
            Ok(Some(Path { mode, parts }))
        } else {
            Ok(None)
        }
    }

    /// Whether the path passes over what is not there.
    pub fn mode(&self) -> Mode
        ensures { result ≡ self.now.mode }
    {
        self.mode
    }

    /// The parts, of which the last one is the whole path.
    pub fn parts(&self) -> &[Part]
        ensures parts { result.now ≡ self.now.parts }
        ensures earlier { IsTrue (are_parts result.now) }
        ensures low { IsTrue (is_low (tree_of_parts result.now)) }
    {
        &self.parts
    }
}

/// A part of a path: an expression, or a test.
#[derive(Debug, Drop)]
pub enum Part {
    Chain(Source, Vec<Accessor>),
    Sign(Sign, usize),
    Arithmetic(Operator, usize, usize),
    Test(Test),
}

/// What a chain begins with: `$`, `@`, `last`, a literal, a variable, or a part in parentheses.
#[derive(Debug, Drop)]
pub enum Source {
    Root,
    Current,
    Last,
    Literal(Literal),
    Variable(String),
    Part(usize),
}

/// A literal of a path.
#[derive(Debug, Drop)]
pub enum Literal {
    Null,
    Bool(bool),
    Number(Number),
    Text(String),
}

/// One step from a value.
#[derive(Debug, Drop)]
pub enum Accessor {
    /// `.key`
    Member(String),
    /// `.*`
    AllMembers,
    /// `[*]`
    AllItems,
    /// `[0, 2 to last]`
    Items(Vec<Subscript>),
    /// `.**{1 to last}`
    Descendants(Level, Level),
    /// `?(..)`
    Filter(usize),
    /// `.size()`
    Method(Method),
}

/// One index, or all from a first to a last one.
#[derive(Clone, Copy, Debug)]
pub struct Subscript {
    pub first: usize,
    pub last: Option<usize>,
}

/// How far below a value.
#[derive(Clone, Copy, Debug, PartialEq, Eq)]
pub enum Level {
    Number(u32),
    Last,
}

/// A method: `MemberNames` and `MemberValues` are `.keyvalue().key` and `.keyvalue().value`.
#[derive(Clone, Copy, Debug, PartialEq, Eq)]
pub enum Method {
    Type,
    Size,
    Abs,
    Floor,
    Ceiling,
    MemberNames,
    MemberValues,
}

/// A sign before an expression.
#[derive(Clone, Copy, Debug, PartialEq, Eq)]
pub enum Sign {
    Plus,
    Minus,
}

impl Sign {
    /// The number with this sign before it. `OutOfRange` for the least value of 128 bits after `-`.
    pub fn apply(self, number: &Number) -> Result<Number, NumberError>
        ensures { result ≡ signed_as self number.now }
    {
        match self {
            Sign::Plus => Ok(*number),
            Sign::Minus => negate(number),
        }
    }
}

/// `+`, `-`, `*` or `%` between two expressions.
#[derive(Clone, Copy, Debug, PartialEq, Eq)]
pub enum Operator {
    Add,
    Subtract,
    Multiply,
    Remainder,
}

impl Operator {
    /// What the operator gives of two numbers, exactly. `DivisionByZero` for a remainder by zero,
    /// `OutOfRange` if the result does not fit.
    #[tactic(auto, using(crate::proofs::WholeLaws::remainder_is))]
    pub fn apply(self, left: &Number, right: &Number) -> Result<Number, NumberError>
        ensures { result ≡ operated self left.now right.now }
    {
        match self {
            Operator::Add => add(left, right),
            Operator::Subtract => subtract(left, right),
            Operator::Multiply => multiply(left, right),
            Operator::Remainder => remainder(left, right),
        }
    }
}

/// A test, which is true, false or unknown.
#[derive(Debug, Drop)]
pub enum Test {
    And(usize, usize),
    Or(usize, usize),
    Not(usize),
    IsUnknown(usize),
    Compare(Comparison, usize, usize),
    StartsWith(usize, Source),
    Exists(usize),
}

/// Why a path is given up.
#[derive(Clone, Copy, Debug, PartialEq, Eq)]
pub enum PathError {
    /// `.key` of an object without it, or of another value.
    MemberNotFound,
    /// `.*` or `.keyvalue()` of what is no object.
    ObjectNotFound,
    /// `[..]` or `.size()` of what is no array.
    ArrayNotFound,
    /// A subscript that is not one number of 32 bits, or is out of bounds.
    InvalidSubscript,
    /// `.abs()`, `.floor()` or `.ceiling()` of what is no number.
    NonNumericItem,
    /// An operand of `+`, `-`, `*` or `%` that is not one number.
    SingletonRequired,
    /// A sign before what is no number.
    NumberNotFound,
    /// A remainder by zero.
    DivisionByZero,
    /// A result that does not fit.
    OutOfRange,
    /// A variable that is not given.
    UndefinedVariable,
    /// What is no single boolean or null, where a truth is wanted.
    BooleanRequired,
}

impl PathError {
    /// Whether PostgreSQL's silent calls hide the error: all but `UndefinedVariable`.
    pub fn is_hidden(self) -> bool
        ensures { result ≡ is_hidden self }
    {
        !matches!(self, PathError::UndefinedVariable)
    }
}

// Whether there are parts, of which each names parts before it, tests where they are wanted and
// expressions elsewhere.
#[tactic(auto, using(crate::proofs::PartLaws::parts_step, crate::proofs::PartLaws::parts_end))]
fn are_parts(parts: &[Part]) -> bool
    ensures { result ≡ are_parts parts.now }
{
    for (at, part) in parts.iter().enumerate() {
        if !is_part(&parts[..at], part) {
            return false;
        }
    }
    !parts.is_empty()
}

fn is_part(before: &[Part], part: &Part) -> bool
    ensures { result ≡ is_part before.now part.now }
{
    match part {
        Part::Chain(source, accessors) => {
            is_source(before, source) && are_accessors(before, accessors)
        }
        Part::Sign(_, operand) => is_expression(before, *operand),
        Part::Arithmetic(_, left, right) => {
            is_expression(before, *left) && is_expression(before, *right)
        }
        Part::Test(Test::And(left, right) | Test::Or(left, right)) => {
            is_test(before, *left) && is_test(before, *right)
        }
        Part::Test(Test::Not(test) | Test::IsUnknown(test)) => is_test(before, *test),
        Part::Test(Test::Compare(_, left, right)) => {
            is_expression(before, *left) && is_expression(before, *right)
        }
        Part::Test(Test::StartsWith(left, right)) => is_expression(before, *left)
            && is_prefix(right),
        Part::Test(Test::Exists(operand)) => is_expression(before, *operand),
    }
}

// Whether a source names a part before it, or none.
fn is_source(before: &[Part], source: &Source) -> bool
    ensures { result ≡ is_source before.now source.now }
{
    match source {
        Source::Part(at) => *at < before.len(),
        _ => true,
    }
}

// Whether a text can be asked to start with it: a text or a variable.
fn is_prefix(source: &Source) -> bool
    ensures { result ≡ is_prefix source.now }
{
    matches!(
        source,
        Source::Literal(Literal::Text(_)) | Source::Variable(_)
    )
}

fn are_accessors(before: &[Part], accessors: &[Accessor]) -> bool
    ensures { result ≡ list_all (is_accessor before.now) accessors.now }
{
    let mut left = accessors;
    while let [accessor, rest @ ..] = left {
        if !is_accessor(before, accessor) {
            return false;
        }
        left = rest;
    }
    true
}

fn is_accessor(before: &[Part], accessor: &Accessor) -> bool
    ensures { result ≡ is_accessor before.now accessor.now }
{
    match accessor {
        Accessor::Items(subscripts) => are_subscripts(before, subscripts),
        Accessor::Filter(test) => is_test(before, *test),
        _ => true,
    }
}

fn are_subscripts(before: &[Part], subscripts: &[Subscript]) -> bool
    ensures { result ≡ list_all (is_subscript before.now) subscripts.now }
{
    let mut left = subscripts;
    while let [subscript, rest @ ..] = left {
        if !is_subscript(before, subscript) {
            return false;
        }
        left = rest;
    }
    true
}

fn is_subscript(before: &[Part], subscript: &Subscript) -> bool
    ensures { result ≡ is_subscript before.now subscript.now }
{
    is_expression(before, subscript.first)
        && match subscript.last {
            Some(last) => is_expression(before, last),
            None => true,
        }
}

fn is_expression(before: &[Part], at: usize) -> bool
    ensures { result ≡ is_expression before.now at }
{
    match before.get(at) {
        Some(Part::Test(_)) | None => false,
        Some(_) => true,
    }
}

fn is_test(before: &[Part], at: usize) -> bool
    ensures { result ≡ is_test before.now at }
{
    matches!(before.get(at), Some(Part::Test(_)))
}
