//! What a path gives of a row.

ghost use Rattle.std.specs.Prelude.{◌≡◌, ◌-◌, IfOk, length, map, option_map};
ghost use Rattle.jsonb_path.specs.Found.{outcome_of};
ghost use Rattle.jsonb_path.specs.Meaning.{exists_in, lone_truth};
ghost use Rattle.jsonb_path.specs.PathParts.{is_test};
ghost use Rattle.kohiblad_shell.specs.Asked.{asked, first_asked, first_of, is_surely, is_true};
ghost use Rattle.kohiblad_shell.specs.Asked.{passes_path};
ghost use Rattle.kohiblad_shell.specs.Words.{Wrong, document_tree, node_tree, plain_fault};
ghost use Rattle.kohiblad_shell.specs.declared.outcome.Reason.TheVariants.{GivenUp};

use crate::outcome::{LineFault, Reason, Unanswered};
use jsonb::{Document, Node};
use jsonb_path::{Outcome, Part, Path, PathError, Truth};
use std::alloc::{AllocError, Global};

/// What a path gives of a row, without variables.
pub fn asked<'a>(
    alloc: Global,
    document: Document<'a>,
    path: &'a Path,
) -> Result<Outcome<'a>, AllocError>
    ensures { IfOk result (λ o. outcome_of o ≡ asked path.now (document_tree document.entry)) }
{
    match path.query(alloc, document, &[]) {
        Ok(outcome) => Ok(outcome),
        Err(_) => Err(AllocError),
    }
}

/// The fault of a row of which a path is given up.
pub fn given_up(error: PathError) -> Unanswered
    ensures { result ≡ Wrong (plain_fault 0 (GivenUp error)) }
{
    Unanswered::Wrong(LineFault::plain(0, Reason::GivenUp(error)))
}

/// The first value that a path gives of a row. An error after it does not count, and one before it
/// is `None`.
pub fn first_value<'a>(
    alloc: Global,
    document: Document<'a>,
    path: &'a Path,
) -> Result<Option<Node<'a>>, AllocError>
    ensures { IfOk result (λ node. option_map node_tree node
        ≡ first_asked path.now (document_tree document.entry)) }
{
    let outcome = asked(alloc, document, path)?;
    Ok(first_of(&outcome.values))
}

// The first of these values.
pub fn first_of<'a>(values: &[Node<'a>]) -> Option<Node<'a>>
    ensures { option_map node_tree result ≡ first_of (map node_tree values.now) }
{
    match values {
        [] => None,
        [first, ..] => Some(*first),
    }
}

/// Whether a row passes: the test is true of it, or the path is no test and gives a value.
pub fn passes_path(alloc: Global, document: Document<'_>, path: &Path) -> Result<bool, AllocError>
    ensures { IfOk result (λ passes. passes
        ≡ passes_path path.now (document_tree document.entry)) }
{
    if is_test(path) {
        is_true_of(alloc, document, path)
    } else {
        gives_value(alloc, document, path)
    }
}

fn is_test(path: &Path) -> bool
    ensures { result ≡ is_test path.now.parts (length path.now.parts - 1) }
{
    let parts = path.parts();
    matches!(parts.get(parts.len() - 1), Some(Part::Test(_)))
}

// Whether a test is true of a row.
fn is_true_of(alloc: Global, document: Document<'_>, path: &Path) -> Result<bool, AllocError>
    ensures { IfOk result (λ is. is
        ≡ is_surely (lone_truth (asked path.now (document_tree document.entry)).values)) }
{
    let outcome = asked(alloc, document, path)?;
    Ok(is_surely(outcome.truth()))
}

fn is_surely(truth: Option<Truth>) -> bool
    ensures { result ≡ is_surely truth }
{
    matches!(truth, Some(Truth::True))
}

// Whether a path gives a value of a row.
fn gives_value(alloc: Global, document: Document<'_>, path: &Path) -> Result<bool, AllocError>
    ensures { IfOk result (λ gives. gives
        ≡ is_true (exists_in path.now.mode (asked path.now (document_tree document.entry)))) }
{
    match path.exists(alloc, document, &[]) {
        Ok(truth) => Ok(is_true(truth)),
        Err(_) => Err(AllocError),
    }
}

fn is_true(truth: Truth) -> bool
    ensures { result ≡ is_true truth }
{
    matches!(truth, Truth::True)
}
