//! A row of a file, made of its rest and of its members in columns.

ghost use Rattle.std.specs.Prelude.{◌≡◌, ◌<◌, ⊤, IfOk, None, OnOk, Some, map};
ghost use Rattle.jsonb_typed_file.specs.Words.{Ascend, AscendNames, Ascends, Doc, Fits, HaveRows};
ghost use Rattle.jsonb_typed_file.specs.Words.{HaveTexts, IsExtension, IsMadeRow, IsNumber, IsTree};
ghost use Rattle.jsonb_typed_file.specs.Words.{MadeIfFit, buffers_view, canon, code_of};
ghost use Rattle.jsonb_typed_file.specs.Words.{column_members, document_tree, extension_of};
ghost use Rattle.jsonb_typed_file.specs.Words.{members_view, norm, object, owned_bytes, pair};
ghost use Rattle.jsonb_typed_file.specs.Words.{stored_view, value_code, with_fields};

use crate::buffers::Buffers;
use crate::column::StoredValue;
use jsonb::constants::{EXTENSION_TAG, FALSE_TAG, NUMBER_TAG, TRUE_TAG};
use jsonb::layer::writer::{Level, Payload, Stored, StoredEntry, append_document};
use jsonb::{Document, Error, ExtensionValue, JsonbItemType, Number, OwnedJsonb};
use jsonb_functions::concat;
use std::alloc::{AllocError, Global};
use std::collections::BTreeMap;

// The members of a row that are kept in columns.
type Members<'a> = BTreeMap<&'a str, StoredValue<'a>>;

// The canonical document of a row: the members of its rest and those that are kept in columns. A
// rest that is no object is the whole row.
pub(crate) fn whole_row(
    alloc: Global,
    rest: Document<'_>,
    columns: &[Buffers<'_>],
    rows: usize,
    index: usize,
) -> Result<OwnedJsonb, Error>
    requires size { HaveRows rows (map buffers_view columns.now) }
    requires texts { HaveTexts rows (map buffers_view columns.now) }
    requires names { AscendNames None (map buffers_view columns.now) }
    requires within { index < rows }
    ensures { IsMadeRow (with_fields (document_tree rest.entry)
        (column_members (map buffers_view columns.now) index)) result }
{
    let JsonbItemType::Object(count) = rest.kind() else {
        return rest.to_canonical(alloc);
    };
    let members = members(alloc, columns, rows, index)?;
    let document = object_of(alloc, &members)?;
    if count == 0 {
        return Ok(document);
    }
    concat(alloc, rest, Document::new_unchecked(document.as_bytes()))
}

// The members of a row that are kept in columns.
fn members<'a>(
    alloc: Global,
    columns: &[Buffers<'a>],
    rows: usize,
    index: usize,
) -> Result<Members<'a>, AllocError>
    requires size { HaveRows rows (map buffers_view columns.now) }
    requires texts { HaveTexts rows (map buffers_view columns.now) }
    requires names { AscendNames None (map buffers_view columns.now) }
    requires within { index < rows }
    ensures { IfOk result (λ members. members_view members.entries
        ≡ column_members (map buffers_view columns.now) index) }
{
    let mut members = BTreeMap::new(alloc);
    let mut left = columns.len();
    while left > 0 {
        left -= 1;
        let column = columns[left];
        if let Some(value) = column.cell(rows, index) {
            insert_first(&mut members, column.name, value)?;
        }
    }
    Ok(members)
}

// Inserts a member before the others, whose keys are greater.
fn insert_first<'a>(
    members: &mut Members<'a>,
    key: &'a str,
    value: StoredValue<'a>,
) -> Result<(), AllocError>
    requires { Ascends (Some key.now) (members_view members.now.entries) }
    ensures { OnOk result (members_view members.new.entries
        ≡ pair key.entry.now (stored_view value.entry) (members_view members.old.entries)) }
{
    members.insert(key, value)?;
    Ok(())
}

// The canonical document of the object with these members.
fn object_of(alloc: Global, members: &Members<'_>) -> Result<OwnedJsonb, Error>
    requires { Ascend (members_view members.now.entries) }
    ensures canonical { IfOk result (λ owned. owned_bytes owned
        ≡ canon (object (members_view members.now.entries))) }
    ensures means { IfOk result (λ owned. Doc (owned_bytes owned)
        (norm (object (members_view members.now.entries)))) }
    ensures limits { MadeIfFit (Fits (object (members_view members.now.entries))) result }
{
    let mut bytes = Vec::new(alloc);
    append_document::<&Members>(&mut bytes, Level::Object(members))?;
    Ok(OwnedJsonb::new(bytes))
}

/// A value is stored in its shortest form.
impl<'a> Stored for StoredValue<'a> {
    ghost stored = { λ value. ⊤ };

    ghost code = { value_code };

    ghost held = { λ value. IsTree (stored_view value) };

    #[inline(always)]
    fn is_stored(&self) -> bool {
        true
    }

    #[inline(always)]
    fn code<'s>(&'s self) -> StoredEntry<'s> {
        match *self {
            StoredValue::Boolean(false) => StoredEntry::of_type(FALSE_TAG),
            StoredValue::Boolean(true) => StoredEntry::of_type(TRUE_TAG),
            StoredValue::Number(number) => number_entry(number),
            StoredValue::Text(text) => StoredEntry::of_text(text),
            StoredValue::Extension(value) => extension_entry(value),
        }
    }
}

// The entry of a number, whose value fits its type.
#[inline(always)]
fn number_entry<'a>(number: Number) -> StoredEntry<'a>
    ensures code { code_of result ≡ value_code (StoredValue.Number number) }
    ensures held { IsNumber number }
{
    let payload = Payload::Number(number);
    StoredEntry {
        type_code: NUMBER_TAG,
        payload,
    }
}

// The entry of an extension value, whose fields fit their types.
#[inline(always)]
fn extension_entry(value: ExtensionValue<'_>) -> StoredEntry<'_>
    ensures code { code_of result ≡ value_code (StoredValue.Extension value.entry) }
    ensures held { IsExtension (extension_of value.entry) }
{
    let payload = Payload::Extension(value);
    StoredEntry {
        type_code: EXTENSION_TAG,
        payload,
    }
}
