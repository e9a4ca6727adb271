//! Rows in whose texts a pattern is found.

ghost use Rattle.std.specs.Prelude.{◌≡◌, IfOk, map};
ghost use Rattle.std.specs.List.{list_any};
ghost use Rattle.jsonb_pattern.specs.Views.{written_of};
ghost use Rattle.kohiblad_shell.specs.Words.{document_tree, is_match, is_searched, node_tree};

use crate::first::asked;
use crate::operation::text_of;
use jsonb::{Document, Node};
use jsonb_path::Path;
use jsonb_pattern::Pattern;
use std::alloc::{AllocError, Global};

/// A pattern, the path to the texts in which it is looked for, and whether the rows are wanted in
/// which it is not found.
#[derive(Clone, Copy)]
pub struct TextSearch<'a> {
    pub pattern: &'a Pattern,
    pub path: &'a Path,
    pub is_inverted: bool,
}

/// Whether the path gives a text in which the pattern is found or, if the search is inverted, gives
/// none.
pub fn is_searched(
    alloc: Global,
    document: Document<'_>,
    search: TextSearch<'_>,
) -> Result<bool, AllocError>
    ensures { IfOk result (λ is. is ≡ is_searched search.entry (document_tree document.entry)) }
{
    let outcome = asked(alloc, document, search.path)?;
    let is_found = some_match(alloc, &outcome.values, search.pattern)?;
    Ok(if search.is_inverted {
        !is_found
    } else {
        is_found
    })
}

// Whether the pattern is found in one of these values.
fn some_match(alloc: Global, values: &[Node<'_>], pattern: &Pattern) -> Result<bool, AllocError>
    ensures { IfOk result (λ is. is
        ≡ list_any (λ t. is_match (written_of pattern.now) t) (map node_tree values.now)) }
{
    let mut left = values;
    while let [node, rest @ ..] = left {
        if is_match(alloc, *node, pattern)? {
            return Ok(true);
        }
        left = rest;
    }
    Ok(false)
}

// Whether a value is a text in which the pattern is found.
fn is_match(alloc: Global, node: Node<'_>, pattern: &Pattern) -> Result<bool, AllocError>
    ensures { IfOk result (λ is. is ≡ is_match (written_of pattern.now) (node_tree node.entry)) }
{
    match text_of(node) {
        Some(text) => pattern.is_found(alloc, text),
        None => Ok(false),
    }
}
