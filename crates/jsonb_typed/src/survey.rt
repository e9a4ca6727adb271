//! What the members of rows are, counted.

ghost use Rattle.std.specs.Prelude.{◌≡◌, ◌↔◌, ◌+◌, ◌^◌, ◌-◌, ℕ, List, IsTrue, Some, max, map, min};
ghost use Rattle.std.specs.Prelude.{decimal, length, option_map, unsigned_abs};
ghost use Rattle.jsonb_typed.specs.Words.{Cell, HoldsNoScalar, IsCellOfRow, IsContainer};
ghost use Rattle.jsonb_typed.specs.Words.{IsDocument, Tree, cell_found, document_tree};
ghost use Rattle.jsonb_typed.specs.Words.{extension_of, is_tree, member_cell, no_rows, node_tree};
ghost use Rattle.jsonb_typed.specs.Words.{one_more, rest_cell, survey_of, widened, with_cell};
ghost use Rattle.jsonb_typed.specs.Words.{with_extension, with_number, with_number_kind, with_row};
ghost use Rattle.jsonb_typed.specs.Words.{with_text, with_tree};

use crate::keeping::opened;
use crate::member::member_of;
use crate::numbers::{coefficient, scale_of};
use itoa::Buffer;
use jsonb::{Document, ExtensionValue, JsonbItemType, Node, Number};
use jsonb_functions::Step;

/// How many digits numbers have after the point, at least and at most.
#[derive(Clone, Copy, Debug, PartialEq, Eq)]
pub struct Scales {
    pub least: u8,
    pub greatest: u8,
}

/// What the members of rows are: how many rows there are, and in how many of them the member is
/// what a count is named after. A count stops at `usize::MAX`.
#[derive(Clone, Copy, Debug, PartialEq, Eq)]
pub struct Survey {
    pub rows: usize,
    /// Rows that are no document, and not empty.
    pub not_documents: usize,
    /// Rows without the member.
    pub absent: usize,
    pub nulls: usize,
    pub booleans: usize,
    pub int64s: usize,
    pub uint64s: usize,
    pub decimal64s: usize,
    pub decimal128s: usize,
    pub texts: usize,
    pub binaries: usize,
    pub dates: usize,
    pub timestamps: usize,
    pub zoned_timestamps: usize,
    pub intervals: usize,
    pub opaques: usize,
    pub arrays: usize,
    pub objects: usize,
    /// How many digits the numbers have after the point. `None` if no member is a number.
    pub scales: Option<Scales>,
    /// How many digits the numbers have at most, written without the point; 0 if there is none.
    pub most_digits: usize,
    /// How many bytes the texts have at most.
    pub longest_text: usize,
}

impl Survey {
    /// The survey of no rows.
    pub fn new() -> Survey
        ensures { result ≡ no_rows }
    {
        Survey {
            rows: 0,
            not_documents: 0,
            absent: 0,
            nulls: 0,
            booleans: 0,
            int64s: 0,
            uint64s: 0,
            decimal64s: 0,
            decimal128s: 0,
            texts: 0,
            binaries: 0,
            dates: 0,
            timestamps: 0,
            zoned_timestamps: 0,
            intervals: 0,
            opaques: 0,
            arrays: 0,
            objects: 0,
            scales: None,
            most_digits: 0,
            longest_text: 0,
        }
    }

    /// The survey of the members of all rows at the end of a path.
    pub fn of(rows: &[Document<'_>], path: &[Step<'_>]) -> Survey
        ensures { result ≡ survey_of (map (cell_found path.now) rows.now) }
    {
        let mut survey = Survey::new();
        for row in rows {
            survey.add_member(member_of(*row, path));
        }
        survey
    }

    /// Counts one more row with this member; `None` if the row has no such member.
    pub fn add_member(&mut self, member: Option<Node<'_>>)
        ensures { self.new ≡ with_cell self.old (member_cell (option_map node_tree member.entry)) }
    {
        self.rows = self.rows.saturating_add(1);
        match member {
            Some(member) => self.add_tree(opened(member)),
            None => self.absent = self.absent.saturating_add(1),
        }
    }

    /// Counts one more row of any bytes with its member at the end of a path, and returns whether
    /// the bytes are a document. No bytes are a row without the member, as a null row of Arrow is.
    pub fn add_row(&mut self, row: &[u8], path: &[Step<'_>]) -> bool
        ensures counted { (c : Cell Tree) × (IsCellOfRow is_tree path.now row.now c
            × (self.new ≡ with_cell self.old c)) }
        ensures document { IsTrue result ↔ IsDocument row.now }
    {
        match Document::new(row) {
            Some(document) => {
                self.add_member(member_of(document, path));
                true
            }
            None => {
                self.add_bytes(row);
                false
            }
        }
    }

    // Counts a row of bytes that are not a document.
    fn add_bytes(&mut self, row: &[u8])
        ensures { self.new ≡ with_cell self.old (rest_cell row.now) }
    {
        self.rows = self.rows.saturating_add(1);
        if row.is_empty() {
            self.absent = self.absent.saturating_add(1);
        } else {
            self.not_documents = self.not_documents.saturating_add(1);
        }
    }

    // Counts a member.
    fn add_tree(&mut self, member: Node<'_>)
        requires { HoldsNoScalar member }
        ensures { self.new ≡ with_tree (node_tree member.entry) self.old }
    {
        match member {
            Node::Null => self.nulls = self.nulls.saturating_add(1),
            Node::Boolean(_) => self.booleans = self.booleans.saturating_add(1),
            Node::Number(item) => self.add_number(item.as_number()),
            Node::String(text) => self.add_text(text),
            Node::Extension(item) => self.add_extension(item.as_extension_value()),
            Node::Container(document) => self.add_container(document),
        }
    }

    // Counts a number.
    fn add_number(&mut self, number: Number)
        ensures { self.new ≡ with_number number self.old }
    {
        self.add_number_kind(number);
        self.scales = Some(widened(scale_of(number), self.scales));
        self.most_digits = self.most_digits.max(digits_of(coefficient(number)));
    }

    // Counts the kind of a number.
    fn add_number_kind(&mut self, number: Number)
        ensures { self.new ≡ with_number_kind number self.old }
    {
        match number {
            Number::Int64(_) => self.int64s = self.int64s.saturating_add(1),
            Number::UInt64(_) => self.uint64s = self.uint64s.saturating_add(1),
            Number::Decimal64(_) => self.decimal64s = self.decimal64s.saturating_add(1),
            Number::Decimal128(_) => self.decimal128s = self.decimal128s.saturating_add(1),
        }
    }

    // Counts a text.
    fn add_text(&mut self, text: &str)
        ensures { self.new ≡ with_text text.now self.old }
    {
        self.texts = self.texts.saturating_add(1);
        self.longest_text = self.longest_text.max(text.len());
    }

    // Counts an extension value.
    fn add_extension(&mut self, value: ExtensionValue<'_>)
        ensures { self.new ≡ with_extension (extension_of value.entry) self.old }
    {
        match value {
            ExtensionValue::Binary(_) => self.binaries = self.binaries.saturating_add(1),
            ExtensionValue::Date(_) => self.dates = self.dates.saturating_add(1),
            ExtensionValue::Timestamp(_) => self.timestamps = self.timestamps.saturating_add(1),
            ExtensionValue::TimestampTz(_) => {
                self.zoned_timestamps = self.zoned_timestamps.saturating_add(1)
            }
            ExtensionValue::Interval(_) => self.intervals = self.intervals.saturating_add(1),
            ExtensionValue::Opaque(_) => self.opaques = self.opaques.saturating_add(1),
        }
    }

    // Counts an array or object.
    fn add_container(&mut self, document: Document<'_>)
        requires { IsContainer (document_tree document) }
        ensures { self.new ≡ with_tree (document_tree document.entry) self.old }
    {
        match document.kind() {
            JsonbItemType::Array(_) => self.arrays = self.arrays.saturating_add(1),
            _ => self.objects = self.objects.saturating_add(1),
        }
    }
}

// The scales with one more.
fn widened(scale: u8, scales: Option<Scales>) -> Scales
    ensures { Some result ≡ widened scale scales }
{
    match scales {
        Some(scales) => Scales {
            least: scales.least.min(scale),
            greatest: scales.greatest.max(scale),
        },
        None => Scales {
            least: scale,
            greatest: scale,
        },
    }
}

// How many decimal digits the value has.
fn digits_of(value: i128) -> usize
    ensures { result ≡ length (decimal (unsigned_abs value)) }
{
    Buffer::new().format(value.unsigned_abs()).len()
}
