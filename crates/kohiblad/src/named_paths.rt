//! Paths whose steps are names, which a document makes keys or indexes.

ghost use Rattle.std.specs.Prelude.{◌≡◌, IfErr, IfOk, List, MatchOption, Some, map, ℕ};
ghost use Rattle.std.specs.Prelude.{string_bytes};
ghost use Rattle.jsonb_functions.specs.Names.{names_of};
ghost use Rattle.jsonb_functions.specs.NamedSteps.{steps_by};
ghost use Rattle.kohiblad.specs.NamedPaths.{GivesNames, IsPathIn, IsPathMade, IsPathOf};
ghost use Rattle.kohiblad.specs.Words.{Error, Meaning, document_tree, meaning_within};

use crate::answer::{code, hand_over_made, refuse};
use crate::checked::checked;
use crate::paths::write_path;
use jsonb::{Document, Error};
use jsonb_functions::{document_of_path, read_name_list, read_pointer, steps_of_names};
use simdutf8::basic;
use std::alloc::Global;

/// Copies the document of the path that a text gives in a document to `out`. The text is a path as
/// `kohiblad_path_of_text` reads it, or names: a JSON pointer (RFC 6901) such as `/a/0`, or a list
/// such as PostgreSQL's `{a,0,"b c"}`, in which a name with one of the six white space characters
/// of ASCII is written between quotes. A name is a key, but in an array of the document `0`, and
/// other digits that do not begin with `0`, are an index, `-1` is the last item, and `-` is past
/// it, as is every number past 2^64 - 2. `kohiblad_edit` and `kohiblad_get_path` take the result.
/// `InvalidUtf8` if the text is not UTF-8; `InvalidJsonb` if the bytes are not a document of at
/// most this depth, or as for `kohiblad_path_of_text`; `OTHER_KIND` if the text is none of these,
/// or a path with wildcards, ranges or filters; `OutOfMemory` if an allocation fails.
#[unsafe(no_mangle)]
pub extern "C" fn kohiblad_path_in(
    alloc: Global,
    bytes: &[u8],
    text: &[u8],
    depth: usize,
    out: &mut [u8],
    length: &mut usize,
) -> u32
    ensures { IsPathIn depth bytes.now text.now out.old out.new length.new result }
{
    match basic::from_utf8(text) {
        Ok(text) => write_path_within(alloc, bytes, text, depth, out, length),
        Err(_) => refuse(code(Error::InvalidUtf8), out, length),
    }
}

// Copies out the document of the path that a text gives in bytes, if they are a document.
fn write_path_within(
    alloc: Global,
    bytes: &[u8],
    text: &str,
    depth: usize,
    out: &mut [u8],
    length: &mut usize,
) -> u32
    ensures { IsPathOf (meaning_within depth bytes.now) text.now out.old out.new length.new result }
{
    match checked(bytes, depth) {
        Ok(document) => write_path_in(alloc, document, text, out, length),
        Err(error) => refuse(code(error), out, length),
    }
}

// Copies out the document of the path that a text gives in a document.
fn write_path_in(
    alloc: Global,
    document: Document<'_>,
    text: &str,
    out: &mut [u8],
    length: &mut usize,
) -> u32
    ensures { IsPathOf (Meaning.document (document_tree document.entry)) text.now
        out.old out.new length.new result }
{
    match names_of_text(alloc, text) {
        Ok(Some(names)) => write_named_path(alloc, document, &names, out, length),
        Ok(None) => write_path(alloc, text, out, length),
        Err(error) => refuse(code(error), out, length),
    }
}

// The names in a text. `None` if it is neither a JSON pointer nor a list.
fn names_of_text(alloc: Global, text: &str) -> Result<Option<Vec<String>>, Error>
    ensures ok { IfOk result (λ read. MatchOption read
        ((names : List (List ℕ)) → GivesNames text.now names → ⊥)
        (λ names. GivesNames text.now (names_of names))) }
    ensures memory { IfErr result (λ e. e ≡ Error.OutOfMemory) }
{
    match read_pointer(alloc, text)? {
        Some(names) => Ok(Some(names)),
        None => read_name_list(alloc, text),
    }
}

// Copies out the document of the path that names are in a document.
fn write_named_path(
    alloc: Global,
    document: Document<'_>,
    names: &[String],
    out: &mut [u8],
    length: &mut usize,
) -> u32
    ensures { IsPathMade
        (steps_by (map string_bytes names.now) (Some (document_tree document.entry)))
        out.old out.new length.new result }
{
    match steps_of_names(alloc, document, names) {
        Ok(steps) => hand_over_made(document_of_path(alloc, &steps), out, length),
        Err(error) => refuse(code(error), out, length),
    }
}
