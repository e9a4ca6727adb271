//! Keys for an index over documents.

ghost use Rattle.std.specs.Prelude.{◌≡◌, [], IfErr, IfOk};
ghost use Rattle.kohiblad.specs.Words.{AreKeysWritten, Error, document_tree, meaning_within};
ghost use Rattle.kohiblad.specs.Words.{top_hashes, tree_hashes};

use crate::answer::{code, hand_over_items, refuse};
use crate::checked::checked;
use jsonb::{Document, Error};
use jsonb_functions::{append_index_keys, append_top_keys};
use std::alloc::Global;

/// Copies the index keys of a document to `out`: one for each scalar, the FNV-1a hash of 64 bits of
/// the keys of the objects around it, from the outermost, each escaped and ended as in a comparable
/// key, then a byte 0, and then the scalar's comparable key. A document that contains another has
/// each of its index keys, so an index over them misses no document; two scalars may have the same
/// key. There are at most as many as a quarter of `size`. `InvalidJsonb` if the bytes are not a
/// document of at most this depth; `OutOfMemory` if an allocation fails.
#[unsafe(no_mangle)]
pub extern "C" fn kohiblad_index_keys(
    alloc: Global,
    bytes: &[u8],
    depth: usize,
    out: &mut [u64],
    count: &mut usize,
) -> u32
    ensures { AreKeysWritten (tree_hashes []) (meaning_within depth bytes.now)
        out.old out.new count.new result }
{
    match checked(bytes, depth) {
        Ok(document) => hand_over_items(index_keys(alloc, document), out, count),
        Err(error) => refuse(code(error), out, count),
    }
}

// The index keys of a document.
fn index_keys(alloc: Global, document: Document<'_>) -> Result<Vec<u64>, Error>
    ensures ok { IfOk result (λ keys. keys.items
        ≡ tree_hashes [] (document_tree document.entry)) }
    ensures memory { IfErr result (λ e. e ≡ Error.OutOfMemory) }
{
    let mut keys = Vec::new(alloc);
    append_index_keys(document, &mut keys)?;
    Ok(keys)
}

/// Copies the top keys of a document to `out`: the FNV-1a hash of 64 bits of two bytes 0 and then
/// each key of an object, each text among an array's items, or the text itself. They are apart from
/// the index keys, so one index holds both. If a key exists in a document, the one top key of the
/// key's own document is one of the document's. There are at most as many as a quarter of `size`.
/// `InvalidJsonb` if the bytes are not a document of at most this depth; `OutOfMemory` if an
/// allocation fails.
#[unsafe(no_mangle)]
pub extern "C" fn kohiblad_top_keys(
    alloc: Global,
    bytes: &[u8],
    depth: usize,
    out: &mut [u64],
    count: &mut usize,
) -> u32
    ensures { AreKeysWritten top_hashes (meaning_within depth bytes.now)
        out.old out.new count.new result }
{
    match checked(bytes, depth) {
        Ok(document) => hand_over_items(top_keys(alloc, document), out, count),
        Err(error) => refuse(code(error), out, count),
    }
}

// The top keys of a document.
fn top_keys(alloc: Global, document: Document<'_>) -> Result<Vec<u64>, Error>
    ensures ok { IfOk result (λ keys. keys.items ≡ top_hashes (document_tree document.entry)) }
    ensures memory { IfErr result (λ e. e ≡ Error.OutOfMemory) }
{
    let mut keys = Vec::new(alloc);
    append_top_keys(document, &mut keys)?;
    Ok(keys)
}
