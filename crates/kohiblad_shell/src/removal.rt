//! Removing what is at the ends of several paths.

ghost use Rattle.std.specs.Prelude.{◌≡◌, ◌≤◌, IfOk, length};
ghost use Rattle.kohiblad_shell.specs.Words.{Fits, IsDocument, IsRemoved, IsResultOf};
ghost use Rattle.kohiblad_shell.specs.Words.{MadeWithMemory, begins_path, canon, owned_bytes};
ghost use Rattle.kohiblad_shell.specs.Words.{path_count, without, without_each};
ghost use Rattle.kohiblad_shell.specs.Words.{without_one};

use crate::input::Form;
use crate::operation::made_row;
use crate::target::Target;
use crate::watch::Watch;
use jsonb::{Document, Error, OwnedJsonb};
use jsonb_functions::{Edit, Step, edit_document};
use jsonb_rows::{EachEdit, Reach, edit_each};
use std::alloc::Global;

/// The row of what is left of a document after what is at the end of each path is removed, one
/// after the other: an index counts the items that the removals before it left. `watch` sees each
/// removal. `InvalidJsonb` if what a removal leaves is too large for a document, `OutOfMemory` if
/// an allocation fails.
#[tactic(auto, using(crate::proofs::RemovalLaws::removed_more))]
pub fn removed_row(
    alloc: Global,
    form: Form,
    bytes: &[u8],
    paths: &[Target<'_>],
    watch: &Watch<'_>,
) -> Result<Vec<u8>, Error>
    requires { IsDocument bytes.now }
    ensures { IsResultOf (IsRemoved form paths.now bytes.now) result }
{
    match paths {
        [] => made_row(alloc, form, bytes),
        [path, rest @ ..] => {
            watch.see_removal(bytes, path, rest.len());
            let left = without(alloc, bytes, path)?;
            removed_row(alloc, form, left.as_bytes(), rest, watch)
        }
    }
}

// The canonical document of what is left after what is at the end of a path, or at each place of
// one with wildcards, is removed.
fn without(alloc: Global, bytes: &[u8], target: &Target<'_>) -> Result<OwnedJsonb, Error>
    requires { IsDocument bytes.now }
    ensures ok { IfOk result (λ left. owned_bytes left ≡ canon (without target.now bytes.now)) }
    ensures document { IfOk result (λ left. IsDocument (owned_bytes left)) }
    ensures limits { MadeWithMemory (Fits (without target.now bytes.now)) result }
{
    match target {
        Target::One(path) => without_one(alloc, bytes, path),
        Target::Each(path) => without_each(alloc, bytes, path),
    }
}

// The same of a path without wildcards.
fn without_one(alloc: Global, bytes: &[u8], path: &[Step<'_>]) -> Result<OwnedJsonb, Error>
    requires { IsDocument bytes.now }
    ensures ok { IfOk result (λ left. owned_bytes left ≡ canon (without_one path.now bytes.now)) }
    ensures document { IfOk result (λ left. IsDocument (owned_bytes left)) }
    ensures limits { MadeWithMemory (Fits (without_one path.now bytes.now)) result }
{
    edit_document(alloc, Document::new_unchecked(bytes), path, Edit::Remove)
}

// The same of a path with wildcards.
fn without_each(alloc: Global, bytes: &[u8], path: &[Reach<'_>]) -> Result<OwnedJsonb, Error>
    requires { IsDocument bytes.now }
    ensures ok { IfOk result (λ left. owned_bytes left ≡ canon (without_each path.now bytes.now)) }
    ensures document { IfOk result (λ left. IsDocument (owned_bytes left)) }
    ensures limits { MadeWithMemory (Fits (without_each path.now bytes.now)) result }
{
    edit_each(
        alloc,
        Document::new_unchecked(bytes),
        path,
        EachEdit::Remove,
    )
}

/// How many of these words, from the first on, begin as a path does: by `$`.
pub fn path_count(words: &[&str]) -> usize
    ensures count { result ≡ path_count words.now }
    ensures within { result ≤ length words.now }
{
    let mut count = 0;
    let mut left = words;
    while let [word, rest @ ..] = left {
        if !begins_path(word) {
            return count;
        }
        count += 1;
        left = rest;
    }
    count
}

/// Whether a word begins as a path does.
pub fn begins_path(word: &str) -> bool
    ensures { result ≡ begins_path word.now }
{
    matches!(word.as_bytes(), [b'$', ..])
}
