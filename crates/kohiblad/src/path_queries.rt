//! What paths of SQL/JSON give of documents.

ghost use Rattle.std.specs.Prelude.{◌≡◌, ◌⊎◌, IfErr, IfOk, Some, chars, map, option_map};
ghost use Rattle.std.specs.Iterator.{YieldsFirstBy};
ghost use Rattle.jsonb.specs.EntryTrees.{rest_pairs};
ghost use Rattle.jsonb.specs.Node.{member_tree, members_of};
ghost use Rattle.jsonb_path.specs.Found.{outcome_of};
ghost use Rattle.jsonb_path.specs.Grammar.{path_of_text};
ghost use Rattle.jsonb_path.specs.PathTree.{query_of};
ghost use Rattle.kohiblad.specs.PathQueries.{IsQueried, IsQueryWritten, IsTruthAsked, asked_by};
ghost use Rattle.kohiblad.specs.PathQueries.{question_in, error_status, exists_of, shown_error};
ghost use Rattle.kohiblad.specs.PathQueries.{lone_answer, match_of, matched, shown_truth};
ghost use Rattle.kohiblad.specs.PathQueries.{variables_tree, variables_within, wanted_truth};
ghost use Rattle.kohiblad.specs.Words.{Error, IsRefused, code, document, document_tree, is_nonzero};
ghost use Rattle.kohiblad.specs.Words.{no_truth, other_bytes};

use crate::answer::{
    ARRAY_NOT_FOUND, BOOLEAN_REQUIRED, DIVISION_BY_ZERO, INVALID_SUBSCRIPT, MEMBER_NOT_FOUND,
    NON_NUMERIC_ITEM, NONE, NUMBER_NOT_FOUND, OBJECT_NOT_FOUND, OTHER_KIND, OUT_OF_RANGE,
    SINGLETON_REQUIRED, UNDEFINED_VARIABLE, code, hand_over_made, refuse,
};
use crate::checked::checked;
use crate::listed::array_document;
use crate::scalar::{KohibladTruth, no_truth, truth_of};
use jsonb::{Document, Error, Members, Node};
use jsonb_path::token::ReadError;
use jsonb_path::{Outcome, Path, PathError, Truth};
use simdutf8::basic;
use std::alloc::{AllocError, Global};

/// Copies the canonical document of the array of all values that a path of SQL/JSON gives of a
/// document to `out`, and its length in bytes to `length`. The path is a text as PostgreSQL reads
/// its `jsonpath`, and `variables` the document of an object: each member is the variable of this
/// name. No bytes are no variables. With `silent` 0 an error that gives the path up is the status,
/// which is the name of the error; otherwise the values before it are copied, and only
/// `UNDEFINED_VARIABLE` stays a status. `InvalidUtf8` if the path is not UTF-8; then `InvalidJsonb`
/// if the bytes or the variables are not a document of at most this depth; then `OTHER_KIND` if the
/// text is not a path, or the variables are not an object; then the status of the error;
/// `InvalidJsonb` also if the array exceeds a limit of the format; `OutOfMemory` if an allocation
/// fails.
#[unsafe(no_mangle)]
pub extern "C" fn kohiblad_path_query(
    alloc: Global,
    bytes: &[u8],
    path: &[u8],
    variables: &[u8],
    silent: u32,
    depth: usize,
    out: &mut [u8],
    length: &mut usize,
) -> u32
    ensures { IsQueried depth (is_nonzero silent) bytes.now path.now variables.now
        out.old out.new length.new result }
{
    let Ok(path) = basic::from_utf8(path) else {
        return refuse(code(Error::InvalidUtf8), out, length);
    };
    let (Ok(document), Ok(variables)) = (checked(bytes, depth), given(variables, depth)) else {
        return refuse(code(Error::InvalidJsonb), out, length);
    };
    match question_of(alloc, path, variables) {
        Ok(Some(question)) => write_values(alloc, &question, document, silent != 0, out, length),
        Ok(None) => refuse(OTHER_KIND, out, length),
        Err(error) => refuse(code(error), out, length),
    }
}

/// Whether a path of SQL/JSON gives a value of a document, as 0 or 1. The path is a text as
/// PostgreSQL reads its `jsonpath`, and `variables` the document of an object: each member is the
/// variable of this name. No bytes are no variables. An error that gives the path up is the status,
/// which is the name of the error, unless the path is not strict and a value comes before the
/// error; with a `silent` other than 0 the status is `NONE` in its place, but for
/// `UNDEFINED_VARIABLE`. `InvalidUtf8` if the path is not UTF-8; then `InvalidJsonb` if the bytes
/// or the variables are not a document of at most this depth; then `OTHER_KIND` if the text is not
/// a path, or the variables are not an object; `OutOfMemory` if an allocation fails.
#[unsafe(no_mangle)]
pub extern "C" fn kohiblad_path_exists(
    alloc: Global,
    bytes: &[u8],
    path: &[u8],
    variables: &[u8],
    silent: u32,
    depth: usize,
) -> KohibladTruth
    ensures { IsTruthAsked (exists_of (is_nonzero silent)) depth bytes.now path.now variables.now
        result }
{
    truth_asked(
        alloc,
        Asks::Existence,
        bytes,
        path,
        variables,
        silent != 0,
        depth,
    )
}

/// The truth that a path of SQL/JSON gives of a document, as 0 or 1, as `jsonb_path_match` of
/// PostgreSQL: of its one value, which is a boolean; `NONE` if it is null. The path is a text as
/// PostgreSQL reads its `jsonpath`, and `variables` the document of an object: each member is the
/// variable of this name. No bytes are no variables. An error that gives the path up is the status,
/// which is the name of the error, and `BOOLEAN_REQUIRED` if there is another number of values or
/// another value; with a `silent` other than 0 these are hidden, but for `UNDEFINED_VARIABLE`: then
/// the answer is that of the one value before the error, or `NONE`. `InvalidUtf8` if the path is
/// not UTF-8; then `InvalidJsonb` if the bytes or the variables are not a document of at most this
/// depth; then `OTHER_KIND` if the text is not a path, or the variables are not an object;
/// `OutOfMemory` if an allocation fails.
#[unsafe(no_mangle)]
pub extern "C" fn kohiblad_path_match(
    alloc: Global,
    bytes: &[u8],
    path: &[u8],
    variables: &[u8],
    silent: u32,
    depth: usize,
) -> KohibladTruth
    ensures { IsTruthAsked (match_of (is_nonzero silent)) depth bytes.now path.now variables.now
        result }
{
    truth_asked(
        alloc,
        Asks::Match,
        bytes,
        path,
        variables,
        silent != 0,
        depth,
    )
}

// Which truth is asked of a path.
#[derive(Clone, Copy)]
enum Asks {
    // Whether it gives a value.
    Existence,
    // The truth that is its value.
    Match,
}

// The truth that is asked of a document.
fn truth_asked(
    alloc: Global,
    asks: Asks,
    bytes: &[u8],
    path: &[u8],
    variables: &[u8],
    silent: bool,
    depth: usize,
) -> KohibladTruth
    ensures { IsTruthAsked (wanted_truth asks silent) depth bytes.now path.now variables.now result }
{
    let Ok(path) = basic::from_utf8(path) else {
        return no_truth(code(Error::InvalidUtf8));
    };
    let (Ok(document), Ok(variables)) = (checked(bytes, depth), given(variables, depth)) else {
        return no_truth(code(Error::InvalidJsonb));
    };
    match question_of(alloc, path, variables) {
        Ok(Some(question)) => truth_in(alloc, asks, &question, document, silent),
        Ok(None) => no_truth(OTHER_KIND),
        Err(error) => no_truth(code(error)),
    }
}

// A path, and its variables by their names.
#[derive(Drop)]
struct Question<'a> {
    path: Path,
    variables: Vec<(&'a str, Node<'a>)>,
}

// The document of variables; `None` if there are no bytes.
fn given(variables: &[u8], depth: usize) -> Result<Option<Document<'_>>, Error>
    ensures ok { IfOk result
        (λ given. variables_within depth variables.now ≡ document (variables_tree given)) }
    ensures err { IfErr result (λ e. (e ≡ Error.InvalidJsonb)
        × (variables_within depth variables.now ≡ other_bytes variables.now)) }
{
    if variables.is_empty() {
        return Ok(None);
    }
    let document = checked(variables, depth)?;
    Ok(Some(document))
}

// What is asked by a text and variables. `None` if the text is not a path, or the variables are not
// an object.
fn question_of<'a>(
    alloc: Global,
    path: &str,
    variables: Option<Document<'a>>,
) -> Result<Option<Question<'a>>, Error>
    ensures ok { IfOk result (λ question. option_map question_in question
        ≡ asked_by (path_of_text (chars path.now)) (members_of (variables_tree variables.entry))) }
    ensures memory { IfErr result (λ e. e ≡ Error.OutOfMemory) }
{
    let Some(variables) = listed(alloc, variables)? else {
        return Ok(None);
    };
    let path = read(alloc, path)?;
    Ok(with_variables(path, variables))
}

// A path with its variables, if there is one.
fn with_variables<'a>(
    path: Option<Path>,
    variables: Vec<(&'a str, Node<'a>)>,
) -> Option<Question<'a>>
    ensures { option_map question_in result ≡ asked_by (option_map query_of path)
        (Some (map member_tree variables.entry.items)) }
{
    let path = path?;
    Some(Question { path, variables })
}

// The path of a text. `None` if it is not one.
fn read(alloc: Global, path: &str) -> Result<Option<Path>, Error>
    ensures ok { IfOk result (λ read. option_map query_of read ≡ path_of_text (chars path.now)) }
    ensures memory { IfErr result (λ e. e ≡ Error.OutOfMemory) }
{
    match Path::of_text(alloc, path) {
        Ok(path) => Ok(Some(path)),
        Err(ReadError::Refused(_)) => Ok(None),
        Err(ReadError::OutOfMemory) => Err(Error::OutOfMemory),
    }
}

// The variables that a document gives, by their names. `None` if it is not an object.
fn listed<'a>(
    alloc: Global,
    variables: Option<Document<'a>>,
) -> Result<Option<Vec<(&'a str, Node<'a>)>>, Error>
    ensures ok { IfOk result (λ list. option_map (λ list. map member_tree list.items) list
        ≡ members_of (variables_tree variables.entry)) }
    ensures memory { IfErr result (λ e. e ≡ Error.OutOfMemory) }
{
    let Some(document) = variables else {
        return Ok(Some(Vec::new(alloc)));
    };
    let Some(members) = document.members() else {
        return Ok(None);
    };
    let list = all_members(alloc, members)?;
    Ok(Some(list))
}

// All members.
#[tactic(auto, using(crate::proofs::PathQueryLaws::members_on))]
fn all_members<'a>(
    alloc: Global,
    members: Members<'a>,
) -> Result<Vec<(&'a str, Node<'a>)>, AllocError>
    ensures { IfOk result (λ list. map member_tree list.items ≡ rest_pairs members.entry) }
{
    let mut left = members;
    let mut list = Vec::with_capacity(alloc, left.len())?;
    while let Some(member) = next_member(&mut left) {
        list.push(member)?;
    }
    Ok(list)
}

// The next member.
#[inline(always)]
fn next_member<'a>(members: &mut Members<'a>) -> Option<(&'a str, Node<'a>)>
    ensures { YieldsFirstBy member_tree rest_pairs members.old result members.new }
{
    members.next()
}

// Copies out the array of the values that are asked for.
fn write_values(
    alloc: Global,
    question: &Question<'_>,
    document: Document<'_>,
    silent: bool,
    out: &mut [u8],
    length: &mut usize,
) -> u32
    ensures { IsQueryWritten silent (Some (question_in question.now)) (document_tree document.entry)
        out.old out.new length.new result
        ⊎ IsRefused (code Error.OutOfMemory) out.old out.new length.new result }
{
    match question.path.query(alloc, document, &question.variables) {
        Ok(outcome) => match shown_error(outcome.error, silent) {
            None => hand_over_made(array_document(alloc, &outcome.values), out, length),
            Some(error) => refuse(error_status(error), out, length),
        },
        Err(error) => refuse(code(error), out, length),
    }
}

// The truth that is asked of a document by a path and its variables.
fn truth_in(
    alloc: Global,
    asks: Asks,
    question: &Question<'_>,
    document: Document<'_>,
    silent: bool,
) -> KohibladTruth
    ensures { (result ≡ wanted_truth asks silent (Some (question_in question.now))
        (document_tree document.entry)) ⊎ (result ≡ no_truth (code Error.OutOfMemory)) }
{
    match question.path.query(alloc, document, &question.variables) {
        Ok(outcome) => match asks {
            Asks::Existence => shown_truth(
                outcome.exists(question.path.mode()),
                shown_error(outcome.error, silent),
            ),
            Asks::Match => match_answer(&outcome, silent),
        },
        Err(error) => no_truth(code(error)),
    }
}

// The truth that is the one value, and of null no answer.
fn match_answer(outcome: &Outcome<'_>, silent: bool) -> KohibladTruth
    ensures { result ≡ matched silent (outcome_of outcome.now) }
{
    match outcome.matches() {
        Ok(truth) => shown_truth(truth, None),
        Err(error) => match shown_error(Some(error), silent) {
            Some(error) => no_truth(error_status(error)),
            None => lone_answer(outcome.truth()),
        },
    }
}

// The truth of the one value, if there is one.
fn lone_answer(truth: Option<Truth>) -> KohibladTruth
    ensures { result ≡ lone_answer truth }
{
    match truth {
        Some(truth) => shown_truth(truth, None),
        None => no_truth(NONE),
    }
}

// A truth as C receives it; of an unknown one the error that is shown.
fn shown_truth(truth: Truth, shown: Option<PathError>) -> KohibladTruth
    ensures { result ≡ shown_truth truth shown }
{
    match (truth, shown) {
        (Truth::True, _) => truth_of(true),
        (Truth::False, _) => truth_of(false),
        (Truth::Unknown, Some(error)) => no_truth(error_status(error)),
        (Truth::Unknown, None) => no_truth(NONE),
    }
}

// The error that is shown: a silent call hides all but that of a variable that is not given.
fn shown_error(error: Option<PathError>, silent: bool) -> Option<PathError>
    ensures { result ≡ shown_error silent error }
{
    let error = error?;
    if silent && error.is_hidden() {
        None
    } else {
        Some(error)
    }
}

// The status of an error that gives a path up.
fn error_status(error: PathError) -> u32
    ensures { result ≡ error_status error }
{
    match error {
        PathError::MemberNotFound => MEMBER_NOT_FOUND,
        PathError::ObjectNotFound => OBJECT_NOT_FOUND,
        PathError::ArrayNotFound => ARRAY_NOT_FOUND,
        PathError::InvalidSubscript => INVALID_SUBSCRIPT,
        PathError::NonNumericItem => NON_NUMERIC_ITEM,
        PathError::SingletonRequired => SINGLETON_REQUIRED,
        PathError::NumberNotFound => NUMBER_NOT_FOUND,
        PathError::DivisionByZero => DIVISION_BY_ZERO,
        PathError::OutOfRange => OUT_OF_RANGE,
        PathError::UndefinedVariable => UNDEFINED_VARIABLE,
        PathError::BooleanRequired => BOOLEAN_REQUIRED,
    }
}
