//! Paths as texts, and the positions of the values to which paths lead.

ghost use Rattle.std.specs.Prelude.{◌≡◌, ◌↔◌, IfErr, IfOk, List, Some, map, option_map};
ghost use Rattle.jsonb.specs.Document.{document_bytes};
ghost use Rattle.jsonb_functions.specs.Found.{found_at};
ghost use Rattle.jsonb_functions.specs.PathPlaces.{HoldTrees, HoldsFound, path_place};
ghost use Rattle.jsonb_functions.specs.PathPlaces.{selected_places};
ghost use Rattle.jsonb_functions.specs.Selected.{selected};
ghost use Rattle.jsonb_functions.specs.StoredPath.{StepView, step_view};
ghost use Rattle.jsonb_functions.specs.declared.path.Step.{Step as PathStep};
ghost use Rattle.jsonb_functions.specs.declared.selection.Selector.{Selector as PathSelector};
ghost use Rattle.kohiblad.specs.PathCalls.{AreSelectedInSteps, AreSelectedWithin, AreStepPlaces};
ghost use Rattle.kohiblad.specs.PathCalls.{AreTextPlaces, GivesSteps};
ghost use Rattle.kohiblad.specs.PathCalls.{IsPathPlace, IsPathPlaceWithin, IsPathTextRead};
ghost use Rattle.kohiblad.specs.PathCalls.{IsPathWritten, found_answer};
ghost use Rattle.kohiblad.specs.Words.{Doc, Error, Meaning, Tree, document_tree, meaning_within};

use crate::answer::{OTHER_KIND, TOO_MANY_STEPS, code, hand_over_items, hand_over_made, refuse};
use crate::places::{KohibladPlace, no_place, place_answer};
use jsonb::layer::Entry;
use jsonb::{Document, Error, SortKey, is_document_within};
use jsonb_functions::{
    Selector, Step, document_of_path, place_at_end, read_path, read_path_text, select_places,
    select_places_within, steps_of_path, whole_place,
};
use simdutf8::basic;
use std::alloc::Global;

/// Copies the document of the path that a text gives to `out`, and its length in bytes to `length`.
/// The text is `$`, and then the steps: `.name` is the value of a key, and so is `."any name"`, if
/// there are points, brackets or question marks in it; `[7]` is an item, also as `[007]`, `[#-1]`
/// the last one, and `[#]`, or `[#-0]`, none, past the last one. `[last]` is the last one too, and
/// `[last - 1]`, or `[last-1]`, the one before it. The keys are the text's bytes, without escapes:
/// `.a\b` has a backslash, and `.*a` is the key `*a`. The document is what `kohiblad_edit` and
/// `kohiblad_get_path` take: an array with a text for each key and a whole number for each item,
/// where -1 is the last one. An index past 2^64 - 1 is stored as that, and one from the end past
/// 2^63 as -2^63. `InvalidUtf8` if the text is not UTF-8; `OTHER_KIND` if it is not a path, or one
/// with wildcards, ranges, lists or filters; `InvalidJsonb` if a key has 2^28 bytes or more, or the
/// path 2^29 steps or more; `OutOfMemory` if an allocation fails; `NO_ROOM` if `out` is shorter
/// than the document. If the status is not `OK`, `out` is unchanged, and `length` is 0, or for
/// `NO_ROOM` the length of the document.
#[unsafe(no_mangle)]
pub extern "C" fn kohiblad_path_of_text(
    alloc: Global,
    text: &[u8],
    out: &mut [u8],
    length: &mut usize,
) -> u32
    ensures { IsPathWritten text.now out.old out.new length.new result }
{
    match basic::from_utf8(text) {
        Ok(text) => write_path(alloc, text, out, length),
        Err(_) => refuse(code(Error::InvalidUtf8), out, length),
    }
}

/// Copies out the document of the path that a text gives.
pub fn write_path(alloc: Global, text: &str, out: &mut [u8], length: &mut usize) -> u32
    ensures { IsPathTextRead text.now out.old out.new length.new result }
{
    match steps_of_text(alloc, text) {
        Ok(Some(steps)) => hand_over_made(document_of_path(alloc, &steps), out, length),
        Ok(None) => refuse(OTHER_KIND, out, length),
        Err(error) => refuse(code(error), out, length),
    }
}

// The steps that a text gives. `None` if it is not a path without wildcards, ranges and filters.
fn steps_of_text<'a>(alloc: Global, text: &'a str) -> Result<Option<Vec<Step<'a>>>, Error>
    ensures ok { IfOk result (λ steps. (path : List StepView) → GivesSteps text.now path
        ↔ (option_map (λ steps. map step_view steps.items) steps ≡ Some path)) }
    ensures memory { IfErr result (λ e. e ≡ Error.OutOfMemory) }
{
    match read_path_text(alloc, text)? {
        Some(path) => steps_of_path(alloc, &path),
        None => Ok(None),
    }
}

/// The position of the value at the end of a path. `path` is the document of an array: a text is
/// the key of a member, and a whole number the index of an item, counted from 0, or from -1 at the
/// end. A number that is stored as a decimal is no index, also one without digits after its point.
/// At the end of an empty path is the whole value: all bytes of an array or object, and the payload
/// of a scalar. `NONE` if the path leads nowhere; `InvalidJsonb` if the bytes or the path are not a
/// document of at most this depth; `OTHER_KIND` if the path is not an array of texts and whole
/// numbers of 64 bits; `OutOfMemory` if an allocation fails. If the status is not `OK`, type,
/// offset and length are 0. A scalar has depth 0, an array or object one more than its deepest
/// child, and at least 1. Deeper levels are not examined.
#[unsafe(no_mangle)]
pub extern "C" fn kohiblad_get_path(
    alloc: Global,
    bytes: &[u8],
    path: &[u8],
    depth: usize,
) -> KohibladPlace
    ensures place { IsPathPlaceWithin depth bytes.now (meaning_within depth path.now) result }

    // In a document the value at that position is the one at the end of the path.
    ensures document { (t : Tree) (steps : List PathStep) → Doc bytes.now t
        → HoldsFound bytes.now (path_place steps bytes.now) (found_at steps t) }
{
    if !is_document_within(bytes, depth) {
        return no_place(code(Error::InvalidJsonb));
    }
    match SortKey::within(path, depth) {
        SortKey::Document(path) => path_place(alloc, bytes, path),
        SortKey::Other(_) => no_place(code(Error::InvalidJsonb)),
    }
}

// The position at the end of the path that a document gives, as C receives it.
fn path_place(alloc: Global, bytes: &[u8], path: Document<'_>) -> KohibladPlace
    ensures { IsPathPlace bytes.now (Meaning.document (document_tree path.entry)) result }
{
    match read_path(alloc, path) {
        Ok(Some(steps)) => match whole_place(bytes) {
            Ok(whole) => place_answer(Ok(place_at_end(bytes, whole, &steps))),
            Err(_) => place_answer(Ok(None)),
        },
        Ok(None) => no_place(OTHER_KIND),
        Err(error) => no_place(code(error)),
    }
}

/// Copies the positions of the values that a path selects to `out`, in the order in which they are
/// stored, those at a list of indexes in the order of these, and how many they are to `count`. The
/// path is a text as `kohiblad_path_of_text` reads it, in which `[*]` is each item of an array,
/// `[0 to #-2]` the items from one to another, as far as they are there (`[0 to #]` selects all,
/// `[# to 1]` none), `[0, 2, last]` the items at these indexes, as far as they are there, `.*` each
/// member's value of an object, and `?(@.price < 3)` keeps a value if what is at the end of the
/// path that begins with `@` compares so with a literal, by the order of documents. That path has
/// no wildcards, ranges, lists and filters, and a key with a space in it is written between quotes.
/// The comparison is `==`, `!=` or `<>`, `<`, `<=`, `>` or `>=`, with one space before and after
/// it, and the literal `null`, `true`, `false`, a JSON number, which is read exactly, or a string
/// without quotes and escapes in it, in which a backslash is a backslash. `exists(@.price)` in
/// place of a comparison keeps a value if such a path leads to a value, which may be null, and
/// `!exists(@.price)` if it leads nowhere. `&&` and `||` join these, in groups in parentheses, and
/// `!` turns a group. `InvalidUtf8` if the text is not UTF-8; `InvalidJsonb` if the bytes are not a
/// document of at most this depth; `OTHER_KIND` if the text is not a path; `OutOfMemory` if an
/// allocation fails; `NO_ROOM` if `out` is too short. If the status is not `OK`, `out` is
/// unchanged, and `count` is 0, or for `NO_ROOM` the number of positions. Each list multiplies the
/// time and the positions of what follows it by the number of its indexes. A scalar has depth 0, an
/// array or object one more than its deepest child, and at least 1. Deeper levels are not examined.
#[unsafe(no_mangle)]
pub extern "C" fn kohiblad_select(
    alloc: Global,
    bytes: &[u8],
    path: &[u8],
    depth: usize,
    out: &mut [KohibladPlace],
    count: &mut usize,
) -> u32
    ensures places { AreSelectedWithin depth bytes.now path.now out.old out.new count.new result }

    // In a document the values at these positions are those that the path selects.
    ensures document { (t : Tree) (selectors : List PathSelector) → Doc bytes.now t
        → HoldTrees bytes.now (selected_places selectors bytes.now) (selected selectors t) }
{
    let Ok(path) = basic::from_utf8(path) else {
        return refuse(code(Error::InvalidUtf8), out, count);
    };
    let Some(document) = Document::within(bytes, depth) else {
        return refuse(code(Error::InvalidJsonb), out, count);
    };
    write_selected(alloc, document, path, out, count)
}

// Copies out the positions of the values that a path selects.
fn write_selected(
    alloc: Global,
    document: Document<'_>,
    path: &str,
    out: &mut [KohibladPlace],
    count: &mut usize,
) -> u32
    ensures { AreTextPlaces (document_bytes document.entry) path.now
        out.old out.new count.new result }
{
    match read_path_text(alloc, path) {
        Ok(Some(path)) => hand_over_items(selected_answers(alloc, document, &path), out, count),
        Ok(None) => refuse(OTHER_KIND, out, count),
        Err(error) => refuse(code(error), out, count),
    }
}

// The positions of the values that a path selects, as C receives them.
fn selected_answers(
    alloc: Global,
    document: Document<'_>,
    path: &[Selector<'_>],
) -> Result<Vec<KohibladPlace>, Error>
    ensures ok { IfOk result (λ answers. answers.items
        ≡ map found_answer (selected_places path.now (document_bytes document.entry))) }
    ensures memory { IfErr result (λ e. e ≡ Error.OutOfMemory) }
{
    let places = select_places(alloc, document, path)?;
    answers_at(alloc, &places)
}

// Positions, as C receives them.
fn answers_at(alloc: Global, places: &[Entry]) -> Result<Vec<KohibladPlace>, Error>
    ensures ok { IfOk result (λ answers. answers.items ≡ map found_answer places.now) }
    ensures memory { IfErr result (λ e. e ≡ Error.OutOfMemory) }
{
    let mut answers = Vec::with_capacity(alloc, places.len())?;
    let mut left = places;
    while let [place, rest @ ..] = left {
        answers.push(place_answer(Ok(Some(*place))))?;
        left = rest;
    }
    Ok(answers)
}

/// Copies the positions of the values that a path selects, as `kohiblad_select` does, unless that
/// takes more than `steps` steps, for a path that others chose. There is a step for each value that
/// a step of the path is asked of, and one for each of its items or members, or of the bytes of a
/// text, or of binary or opaque data; a list of indexes takes as many for each of them. A filter
/// takes one for each comparison, `exists`, `&&`, `||`, `!(`, `(` and `)`, and for a comparison or
/// `exists` also one for each item, member or byte of each value on the way of its path: `$.*?(@ >
/// 1)` takes 3 of {"a":2}. `InvalidUtf8` if the text is not UTF-8; `InvalidJsonb` if the bytes are
/// not a document of at most this depth; `OTHER_KIND` if the text is not a path; `TOO_MANY_STEPS`
/// if the steps do not suffice; `OutOfMemory` if an allocation fails; `NO_ROOM` if `out` is too
/// short. If the status is not `OK`, `out` is unchanged, and `count` is 0, or for `NO_ROOM` the
/// number of positions.
#[unsafe(no_mangle)]
pub extern "C" fn kohiblad_select_within(
    alloc: Global,
    bytes: &[u8],
    path: &[u8],
    depth: usize,
    steps: usize,
    out: &mut [KohibladPlace],
    count: &mut usize,
) -> u32
    ensures places { AreSelectedInSteps depth steps bytes.now path.now
        out.old out.new count.new result }

    // In a document the values at these positions are those that the path selects.
    ensures document { (t : Tree) (selectors : List PathSelector) → Doc bytes.now t
        → HoldTrees bytes.now (selected_places selectors bytes.now) (selected selectors t) }
{
    let Ok(path) = basic::from_utf8(path) else {
        return refuse(code(Error::InvalidUtf8), out, count);
    };
    let Some(document) = Document::within(bytes, depth) else {
        return refuse(code(Error::InvalidJsonb), out, count);
    };
    write_within(alloc, document, path, steps, out, count)
}

// Copies out the positions of the values that a path selects in so many steps.
fn write_within(
    alloc: Global,
    document: Document<'_>,
    path: &str,
    steps: usize,
    out: &mut [KohibladPlace],
    count: &mut usize,
) -> u32
    ensures { AreStepPlaces steps (document_bytes document.entry) path.now
        out.old out.new count.new result }
{
    match read_path_text(alloc, path) {
        Ok(Some(path)) => match select_places_within(alloc, document, &path, steps) {
            Ok(Some(places)) => hand_over_items(answers_at(alloc, &places), out, count),
            Ok(None) => refuse(TOO_MANY_STEPS, out, count),
            Err(error) => refuse(code(error), out, count),
        },
        Ok(None) => refuse(OTHER_KIND, out, count),
        Err(error) => refuse(code(error), out, count),
    }
}
