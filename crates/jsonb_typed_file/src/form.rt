//! Tests of the lengths and the contents of a file.

ghost use Rattle.std.specs.Prelude.{◌≡◌, ◌<◌, ◌≤◌, ◌+◌, ◌-◌, ◌*◌, ◌^◌, ◌↔◌, ℕ, IsTrue, None};
ghost use Rattle.std.specs.Bool.{OnFalse, OnTrue};
ghost use Rattle.std.specs.Prelude.{IfSome, length, map, option_map};
ghost use Rattle.jsonb_value.specs.Words.{nat_cmp, slice_cmp, Less};
ghost use Rattle.jsonb_typed_file.specs.Words.{AscendNames, HaveRows, HaveTexts, IsDocumentWithin};
ghost use Rattle.jsonb_typed_file.specs.Words.{IsInForm, IsRestAt, LengthsFit, NestWithin};
ghost use Rattle.jsonb_typed_file.specs.Words.{buffers_view, layout_view, string_at};

use crate::buffers::Buffers;
use crate::layout::Layout;
use crate::strings::Strings;
use jsonb::{is_document, nests_deeper};
use std::cmp::Ordering;

// Whether the length of each buffer fits the number of rows.
pub(crate) fn lengths_fit(layout: &Layout<'_>) -> bool
    ensures { IsTrue result ↔ LengthsFit (layout_view layout.now) }
{
    let size = layout.rests.offsets.len();
    size >= 8 && size % 8 == 0 && have_rows(&layout.columns, size / 8 - 1)
}

// Whether the lengths of the columns' buffers fit so many rows.
fn have_rows(columns: &[Buffers<'_>], rows: usize) -> bool
    requires { rows < 2 ^ 60 - 1 }
    ensures { IsTrue result ↔ HaveRows rows (map buffers_view columns.now) }
{
    let mut left = columns;
    while let [column, later @ ..] = left {
        if !column.has_rows(rows) {
            return false;
        }
        left = later;
    }
    true
}

// Whether the names ascend, the texts are UTF-8, and the rests are documents.
pub(crate) fn is_in_form(layout: &Layout<'_>) -> bool
    requires { LengthsFit (layout_view layout.now) }
    ensures { IsTrue result ↔ IsInForm (layout_view layout.now) }
{
    let rows = layout.rests.offsets.len() / 8 - 1;
    if !are_in_form(&layout.columns, rows) {
        return false;
    }
    are_documents(layout.rests, rows)
}

// Whether the names of the columns ascend, and their texts are UTF-8.
fn are_in_form(columns: &[Buffers<'_>], rows: usize) -> bool
    requires { HaveRows rows (map buffers_view columns.now) }
    ensures { IsTrue result ↔ (AscendNames None (map buffers_view columns.now)
        × HaveTexts rows (map buffers_view columns.now)) }
{
    ascend(columns) && have_texts(columns, rows)
}

// Whether the names of the columns ascend.
fn ascend(columns: &[Buffers<'_>]) -> bool
    ensures { IsTrue result ↔ AscendNames None (map buffers_view columns.now) }
{
    let mut before: Option<&str> = None;
    let mut left = columns;
    while let [column, later @ ..] = left {
        if !is_above(before, column.name) {
            return false;
        }
        before = Some(column.name);
        left = later;
    }
    true
}

// Whether a name is above the one before it, if there is one.
pub(crate) fn is_above(before: Option<&str>, name: &str) -> bool
    ensures { IsTrue result ↔ IfSome (option_map (λ b. b.now) before.entry)
        (λ b. slice_cmp nat_cmp b name.now ≡ Less) }
{
    match before {
        Some(before) => before.cmp(name) == Ordering::Less,
        None => true,
    }
}

// Whether the texts of the columns are UTF-8, and their offsets in order.
fn have_texts(columns: &[Buffers<'_>], rows: usize) -> bool
    requires { HaveRows rows (map buffers_view columns.now) }
    ensures { IsTrue result ↔ HaveTexts rows (map buffers_view columns.now) }
{
    let mut left = columns;
    while let [column, later @ ..] = left {
        if !column.are_texts(rows) {
            return false;
        }
        left = later;
    }
    true
}

// Whether the rests of so many rows are documents.
fn are_documents(rests: Strings<'_>, rows: usize) -> bool
    requires { length rests.offsets.now ≡ 8 * (rows + 1) }
    ensures { IsTrue result ↔ ((index : ℕ) → index < rows
        → IsRestAt rests.entry.offsets.now rests.entry.bytes.now index) }
{
    for index in 0..rows {
        if !is_rest(rests, index) {
            return false;
        }
    }
    true
}

// Whether the rest of some row nests deeper than the limit, if there is one. Levels beyond it are
// not examined.
pub(crate) fn nest_deeper(layout: &Layout<'_>, depth: Option<usize>) -> bool
    requires { LengthsFit (layout_view layout.now) }
    ensures deeper { OnTrue result (NestWithin depth (layout_view layout.now) → ⊥) }
    ensures within { OnFalse result (IsInForm (layout_view layout.now)
        → NestWithin depth (layout_view layout.now)) }
{
    match depth {
        Some(depth) => rests_nest_deeper(layout.rests, layout.rests.offsets.len() / 8 - 1, depth),
        None => false,
    }
}

// Whether one of so many rests nests deeper than so many levels.
fn rests_nest_deeper(rests: Strings<'_>, rows: usize, depth: usize) -> bool
    requires { length rests.offsets.now ≡ 8 * (rows + 1) }
    ensures deeper { OnTrue result (((index : ℕ) → index < rows → IsDocumentWithin depth
        (string_at rests.entry.offsets.now rests.entry.bytes.now index)) → ⊥) }
    ensures within { OnFalse result ((index : ℕ) → index < rows
        → IsRestAt rests.entry.offsets.now rests.entry.bytes.now index → IsDocumentWithin depth
        (string_at rests.entry.offsets.now rests.entry.bytes.now index)) }
{
    for index in 0..rows {
        if nests_deeper_at(rests, index, depth) {
            return true;
        }
    }
    false
}

// Whether the rest of a row nests deeper than so many levels.
fn nests_deeper_at(rests: Strings<'_>, index: usize, depth: usize) -> bool
    requires { 8 * (index + 2) ≤ length rests.offsets.now }
    ensures deeper { OnTrue result (IsDocumentWithin depth
        (string_at rests.entry.offsets.now rests.entry.bytes.now index) → ⊥) }
    ensures within { OnFalse result (IsRestAt rests.entry.offsets.now rests.entry.bytes.now index
        → IsDocumentWithin depth
        (string_at rests.entry.offsets.now rests.entry.bytes.now index)) }
{
    match rests.at(index) {
        Some(rest) => nests_deeper(rest, depth),
        None => false,
    }
}

// Whether the rest of a row is a document.
fn is_rest(rests: Strings<'_>, index: usize) -> bool
    requires { 8 * (index + 2) ≤ length rests.offsets.now }
    ensures { IsTrue result
        ↔ IsRestAt rests.entry.offsets.now rests.entry.bytes.now index }
{
    match rests.at(index) {
        Some(rest) => is_document(rest),
        None => false,
    }
}
