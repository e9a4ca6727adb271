//! Lines of a table with the values at paths.

ghost use Rattle.std.specs.Prelude.{◌≡◌, ◌∷◌, ◌++◌, ℕ, List, IfErr, IfOk, OnOk, cond};
ghost use Rattle.std.specs.Prelude.{option_map};
ghost use Rattle.kohiblad_shell.specs.Words.{HoldsNoScalar, IsBinary, IsCsvLine, IsField};
ghost use Rattle.kohiblad_shell.specs.Words.{IsFieldAt, IsFieldBy, IsFieldOf, IsScalarField};
ghost use Rattle.kohiblad_shell.specs.Words.{IsTableLine, IsText, ScalarType};
ghost use Rattle.kohiblad_shell.specs.Words.{compact, document_tree, extension_of};
ghost use Rattle.kohiblad_shell.specs.Words.{extension_text, node_tree, number_text, plain_text};
ghost use Rattle.kohiblad_shell.specs.Words.{text_field, value_text};

use crate::dated::dated_field;
use crate::first::first_value;
use crate::table_text::{TableLayout, absent_field, text_field};
use jsonb::{
    Date, Decimal128, Document, Error, ExtensionValue, Interval, Node, Number, NumberItem,
    Timestamp, TimestampTz,
};
use jsonb_path::Path;
use jsonb_typed::{
    Boolean, ColumnType, Dates, Decimal, Fit, Int64, Intervals, LeastType, ScalarType, Timestamps,
    UInt64, ZonedTimestamps, binary_of, opened,
};
use std::alloc::{AllocError, Global};

/// A column: its name, the path to its values, their type, and whether dates and timestamps are
/// read and written as texts.
#[derive(Drop)]
pub struct TypedPath<'a> {
    pub name: &'a str,
    pub path: Path,
    pub value_type: LeastType,
    pub has_iso_dates: bool,
}

/// The line of the first value to which each path leads, as a value of its type, in a layout. Where
/// a path leads nowhere, or to null, there is no value. `None` if a value is not of its type.
/// `OutOfMemory` is the only error.
///
/// A line of CSV is as RFC 4180 has it, but with a line feed alone at its end: the field of no
/// value is empty, and a text is between quotes if it is empty, or has a comma, a quote, a line
/// feed or a carriage return, and so is a binary value of no bytes.
pub fn table_line(
    alloc: Global,
    document: Document<'_>,
    layout: TableLayout,
    columns: &[TypedPath<'_>],
) -> Result<Option<Vec<u8>>, Error>
    ensures ok { IfOk result (λ line. IsTableLine layout columns.now
        (document_tree document.entry) (option_map (λ line. line.items) line)) }
    ensures csv { layout ≡ TableLayout.Csv → IfOk result (λ line. IsCsvLine columns.now
        (document_tree document.entry) (option_map (λ line. line.items) line)) }
    ensures memory { IfErr result (λ e. e ≡ Error.OutOfMemory) }
{
    let mut line = Vec::new(alloc);
    for (index, column) in columns.iter().enumerate() {
        match field_in(alloc, document, layout, column)? {
            Some(field) => push_field(&mut line, index == 0, layout.separator(), &field)?,
            None => return Ok(None),
        }
    }
    line.push(b'\n')?;
    Ok(Some(line))
}

/// Appends a field, after the separator if it is not the first.
pub fn push_field(
    line: &mut Vec<u8>,
    is_first: bool,
    separator: u8,
    field: &[u8],
) -> Result<(), AllocError>
    ensures { OnOk result (line.new.items
        ≡ line.old.items ++ cond is_first field.now (separator ∷ field.now)) }
{
    if !is_first {
        line.push(separator)?;
    }
    line.extend_from_slice(field)?;
    Ok(())
}

// The field of the first value to which the path of a column leads. `None` if it is not of the
// type.
fn field_in(
    alloc: Global,
    document: Document<'_>,
    layout: TableLayout,
    column: &TypedPath<'_>,
) -> Result<Option<Vec<u8>>, Error>
    ensures ok { IfOk result (λ field. IsFieldAt layout (document_tree document.entry) column.now
        (option_map (λ field. field.items) field)) }
    ensures memory { IfErr result (λ e. e ≡ Error.OutOfMemory) }
{
    let value = first_value(alloc, document, &column.path)?;
    field_of(
        alloc,
        value,
        layout,
        column.value_type,
        column.has_iso_dates,
    )
}

// The field of a value in a column of a type; that of no value if there is none, or it is null.
// `None` if it is not of the type.
fn field_of(
    alloc: Global,
    value: Option<Node<'_>>,
    layout: TableLayout,
    value_type: LeastType,
    has_iso_dates: bool,
) -> Result<Option<Vec<u8>>, Error>
    ensures ok { IfOk result (λ field. IsField layout has_iso_dates value_type
        (option_map node_tree value.entry) (option_map (λ field. field.items) field)) }
    ensures memory { IfErr result (λ e. e ≡ Error.OutOfMemory) }
{
    let Some(value) = value else {
        return Ok(Some(absent_field(alloc, layout)?));
    };
    match opened(value) {
        Node::Null => Ok(Some(absent_field(alloc, layout)?)),
        other => field_of_known(alloc, other, layout, value_type, has_iso_dates),
    }
}

// The same of a value that is there and not null.
fn field_of_known(
    alloc: Global,
    value: Node<'_>,
    layout: TableLayout,
    value_type: LeastType,
    has_iso_dates: bool,
) -> Result<Option<Vec<u8>>, Error>
    requires { HoldsNoScalar value }
    ensures ok { IfOk result (λ field. IsFieldOf layout has_iso_dates value_type
        (node_tree value.entry) (option_map (λ field. field.items) field)) }
    ensures memory { IfErr result (λ e. e ≡ Error.OutOfMemory) }
{
    match value_type {
        LeastType::Nothing => Ok(None),
        LeastType::Of(of) => field_of_scalar(alloc, value, layout, of, has_iso_dates),
        LeastType::Mixed => {
            let text = value.to_string(alloc)?;
            Ok(Some(text_field(alloc, layout, &text)?))
        }
    }
}

// The same of a value that is to be of this type. `None` if it is not.
fn field_of_scalar(
    alloc: Global,
    value: Node<'_>,
    layout: TableLayout,
    of: ScalarType,
    has_iso_dates: bool,
) -> Result<Option<Vec<u8>>, Error>
    requires { HoldsNoScalar value }
    ensures ok { IfOk result (λ field. IsScalarField layout has_iso_dates of
        (node_tree value.entry) (option_map (λ field. field.items) field)) }
    ensures memory { IfErr result (λ e. e ≡ Error.OutOfMemory) }
{
    let fit = Fit::ByValue;
    match of {
        ScalarType::Boolean => field_by(alloc, value, &Boolean),
        ScalarType::Int64 => field_by(alloc, value, &Int64 { fit }),
        ScalarType::UInt64 => field_by(alloc, value, &UInt64 { fit }),
        ScalarType::Decimal(scale) => field_by(alloc, value, &Decimal { scale, fit }),
        ScalarType::Text => field_of_text(alloc, value, layout),
        ScalarType::Date => dated_field(alloc, value, &Dates, has_iso_dates),
        ScalarType::Timestamp => dated_field(alloc, value, &Timestamps, has_iso_dates),
        ScalarType::ZonedTimestamp => dated_field(alloc, value, &ZonedTimestamps, has_iso_dates),
        ScalarType::Interval => field_by(alloc, value, &Intervals),
        ScalarType::Binary => field_of_binary(alloc, value, layout),
    }
}

/// A type whose values are written as fields.
pub trait Written: ColumnType {
    ghost text: { Self → Self.Value → List ℕ };

    /// The field of a value.
    fn field(&self, alloc: Global, value: Self::Value) -> Result<Vec<u8>, Error>
        ensures ok { IfOk result (λ field. field.items ≡ text self.now value) }
        ensures memory { IfErr result (λ e. e ≡ Error.OutOfMemory) };
}

impl Written for Boolean {
    ghost text = { λ s v. plain_text ScalarType.Boolean v };

    fn field(&self, alloc: Global, value: bool) -> Result<Vec<u8>, Error> {
        text_of(alloc, Node::Boolean(value))
    }
}

impl Written for Int64 {
    ghost text = { λ s v. plain_text ScalarType.Int64 v };

    fn field(&self, alloc: Global, value: i64) -> Result<Vec<u8>, Error> {
        text_of_number(alloc, Number::Int64(value))
    }
}

impl Written for UInt64 {
    ghost text = { λ s v. plain_text ScalarType.UInt64 v };

    fn field(&self, alloc: Global, value: u64) -> Result<Vec<u8>, Error> {
        text_of_number(alloc, Number::UInt64(value))
    }
}

impl Written for Decimal {
    ghost text = { λ s v. plain_text (ScalarType.Decimal s.scale) v };

    fn field(&self, alloc: Global, value: i128) -> Result<Vec<u8>, Error> {
        let scale = self.scale;
        text_of_number(alloc, Number::Decimal128(Decimal128 { scale, value }))
    }
}

impl Written for Dates {
    ghost text = { λ s v. plain_text ScalarType.Date v };

    fn field(&self, alloc: Global, value: Date) -> Result<Vec<u8>, Error> {
        text_of_extension(alloc, ExtensionValue::Date(value))
    }
}

impl Written for Timestamps {
    ghost text = { λ s v. plain_text ScalarType.Timestamp v };

    fn field(&self, alloc: Global, value: Timestamp) -> Result<Vec<u8>, Error> {
        text_of_extension(alloc, ExtensionValue::Timestamp(value))
    }
}

impl Written for ZonedTimestamps {
    ghost text = { λ s v. plain_text ScalarType.ZonedTimestamp v };

    fn field(&self, alloc: Global, value: TimestampTz) -> Result<Vec<u8>, Error> {
        text_of_extension(alloc, ExtensionValue::TimestampTz(value))
    }
}

impl Written for Intervals {
    ghost text = { λ s v. plain_text ScalarType.Interval v };

    fn field(&self, alloc: Global, value: Interval) -> Result<Vec<u8>, Error> {
        text_of_extension(alloc, ExtensionValue::Interval(value))
    }
}

/// The field of a value of this type. `None` if it is none.
pub fn field_by<T: Written>(
    alloc: Global,
    value: Node<'_>,
    value_type: &T,
) -> Result<Option<Vec<u8>>, Error>
    requires { HoldsNoScalar value }
    ensures ok { IfOk result (λ field. IsFieldBy (T.ColumnType.stands value_type.now)
        (T.text value_type.now) (node_tree value.entry)
        (option_map (λ field. field.items) field)) }
    ensures memory { IfErr result (λ e. e ≡ Error.OutOfMemory) }
{
    match value_type.value_of(value) {
        Some(value) => Ok(Some(value_type.field(alloc, value)?)),
        None => Ok(None),
    }
}

// The field of a text. `None` if the value is no text.
fn field_of_text(
    alloc: Global,
    value: Node<'_>,
    layout: TableLayout,
) -> Result<Option<Vec<u8>>, Error>
    requires { HoldsNoScalar value }
    ensures ok { IfOk result (λ field. IsFieldBy IsText (text_field layout)
        (node_tree value.entry) (option_map (λ field. field.items) field)) }
    ensures memory { IfErr result (λ e. e ≡ Error.OutOfMemory) }
{
    match value {
        Node::String(text) => Ok(Some(text_field(alloc, layout, text)?)),
        _ => Ok(None),
    }
}

// The field of a binary value: its bytes in hexadecimal, as a text. `None` if the value is no
// binary value.
fn field_of_binary(
    alloc: Global,
    value: Node<'_>,
    layout: TableLayout,
) -> Result<Option<Vec<u8>>, Error>
    requires { HoldsNoScalar value }
    ensures ok { IfOk result (λ field. IsFieldBy IsBinary (value_text layout ScalarType.Binary)
        (node_tree value.entry) (option_map (λ field. field.items) field)) }
    ensures memory { IfErr result (λ e. e ≡ Error.OutOfMemory) }
{
    match binary_of(value) {
        Some(bytes) => {
            let value = ExtensionValue::Binary(bytes);
            let text = format!(in alloc; "{value}")?;
            Ok(Some(text_field(alloc, layout, &text)?))
        }
        None => Ok(None),
    }
}

// The compact text of a value.
fn text_of(alloc: Global, value: Node<'_>) -> Result<Vec<u8>, Error>
    ensures ok { IfOk result (λ text. text.items ≡ compact (node_tree value.entry)) }
    ensures memory { IfErr result (λ e. e ≡ Error.OutOfMemory) }
{
    Ok(value.to_string(alloc)?.into_bytes())
}

// The text of a number.
fn text_of_number(alloc: Global, number: Number) -> Result<Vec<u8>, Error>
    ensures ok { IfOk result (λ text. text.items ≡ number_text number) }
    ensures memory { IfErr result (λ e. e ≡ Error.OutOfMemory) }
{
    text_of(alloc, Node::Number(NumberItem::from_number(number)))
}

// The text of an extension value, without the quotes that it has in JSON.
fn text_of_extension(alloc: Global, value: ExtensionValue<'_>) -> Result<Vec<u8>, Error>
    ensures ok { IfOk result (λ text. text.items ≡ extension_text (extension_of value.entry)) }
    ensures memory { IfErr result (λ e. e ≡ Error.OutOfMemory) }
{
    Ok(format!(in alloc; "{value}")?.into_bytes())
}
