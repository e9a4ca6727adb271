//! Writing the texts of documents directly from their bytes.

ghost use Rattle.std.specs.Prelude.{◌≡◌, ◌++◌, ◌^◌, ◌<◌, ℕ, string_bytes, IsOk, IfOk, IfErr, OnOk};
ghost use Rattle.std.specs.Prelude.{[]};
ghost use Rattle.jsonb.specs.Words.{WritesStyledOnOk, formatter_writer, Tree, norm, IsTree, pretty};
ghost use Rattle.jsonb.specs.Words.{extension_of, compact, inside, line_start, colon_text};
ghost use Rattle.jsonb.specs.Words.{laid_out, next_key, in_one_line};
ghost use Rattle.jsonb.specs.Words.{quoted_text, extension_text, depth, Doc, document_tree};
ghost use Rattle.jsonb.specs.Words.{part_tree, rest_trees, rest_pairs, node_tree, array_of};
ghost use Rattle.jsonb.specs.Words.{object_of, IsContainer, HoldsNoScalar, layout_of, lossy_text};
ghost use Rattle.jsonb.specs.Words.{display_text, pretty_display_text, pair_text};
ghost use Rattle.jsonb.specs.Words.{HasIndentRoom, length_64, written_text};

use crate::document::{Contents, Document};
use crate::node::Node;
use crate::nodes::{Items, Members};
use crate::written::Written;
use bstr::ByteSlice;
use jsonb_codec::parts::Part;
use jsonb_value::layer::{write_content, write_number, write_string};
use jsonb_value::{Error, ExtensionValue, extension_text};
use std::alloc::Global;
use std::fmt;

/// Laws of texts: a tree and its normal form, in which signed zeros are made unsigned, have the
/// same texts.
pub fn text_laws()
    ensures compact { (t : Tree) → compact (norm t) ≡ compact t }
    ensures pretty { (t : Tree) → pretty (norm t) ≡ pretty t }
{}

/// No text yet, with memory for about the text of the bytes. `OutOfMemory` is the only error.
pub fn text_for(alloc: Global, bytes: &[u8]) -> Result<Written, Error>
    ensures empty { IfOk result (λ written. written_text written ≡ []) }
    ensures tree { (t : Tree) → Doc bytes.now t → IsTree t }
    ensures memory { IfErr result (λ e. e ≡ Error.OutOfMemory) }
{
    // The text is usually about as long as the bytes.
    Ok(Written::with_capacity(alloc, bytes.len())?)
}

/// The text that was written. Writing to memory fails only for lack of it, so a failed write is
/// `OutOfMemory`.
pub fn finish_text(answer: fmt::Result, f: fmt::Formatter<Written>) -> Result<String, Error>
    ensures ok { OnOk result (IsOk answer) }
    ensures text { IfOk result
        (λ text. string_bytes text ≡ written_text (formatter_writer f)) }
    ensures memory { IfErr result (λ e. e ≡ Error.OutOfMemory) }
{
    match answer {
        Ok(()) => Ok(f.into_inner().finish()),
        Err(_) => Err(Error::OutOfMemory),
    }
}

/// The layout of a text: on one line without white space, or on several lines, nested in this many
/// containers.
#[derive(Clone, Copy)]
pub enum Layout {
    InOneLine,
    OnLines(usize),
}

impl Layout {
    /// The layout of a container's content.
    pub fn inside(self) -> Layout
        requires { HasIndentRoom (layout_of self) 1 }
        ensures { layout_of result ≡ inside (layout_of self) }
    {
        match self {
            Layout::InOneLine => Layout::InOneLine,
            Layout::OnLines(depth) => Layout::OnLines(depth + 1),
        }
    }

    // Writes what precedes an item or a closing bracket.
    #[inline(always)]
    #[tactic(auto, using(jsonb_value::proofs::Writing::joins_two, crate::proofs::LineLaws::indent))]
    fn start_line<W: fmt::Write>(self, f: &mut fmt::Formatter<W>) -> fmt::Result
        ensures { WritesStyledOnOk W.write_str_gives f.old result
            (line_start (layout_of self)) f.new }
    {
        match self {
            Layout::InOneLine => Ok(()),
            Layout::OnLines(depth) => {
                f.write_str("\n")?;
                f.write_repeated("  ", depth)
            }
        }
    }

    /// The length of what precedes an item or a closing bracket, or `usize::MAX` if it is longer.
    #[inline(always)]
    pub fn start_len(self) -> usize
        ensures { result ≡ length_64 (line_start (layout_of self)) }
    {
        match self {
            Layout::InOneLine => 0,
            Layout::OnLines(depth) => depth.saturating_add(depth).saturating_add(1),
        }
    }

    /// The length of the separator between a key and its value.
    #[inline(always)]
    pub fn colon_len(self) -> usize
        ensures { result ≡ length_64 (colon_text (layout_of self)) }
    {
        match self {
            Layout::InOneLine => 1,
            Layout::OnLines(_) => 2,
        }
    }

    // Writes the separator between a key and its value. Each arm writes a text of known length,
    // which the compiler copies without a call.
    #[inline(always)]
    fn write_colon<W: fmt::Write>(self, f: &mut fmt::Formatter<W>) -> fmt::Result
        ensures { WritesStyledOnOk W.write_str_gives f.old result
            (colon_text (layout_of self)) f.new }
    {
        match self {
            Layout::InOneLine => f.write_str(":"),
            Layout::OnLines(_) => f.write_str(": "),
        }
    }
}

/// Writes the text of any bytes.
pub fn write_view<W: fmt::Write>(bytes: &[u8], f: &mut fmt::Formatter<W>) -> fmt::Result
    ensures text { WritesStyledOnOk W.write_str_gives f.old result (display_text bytes.now) f.new }
    ensures tree { (t : Tree) → Doc bytes.now t → IsTree t }
{
    match Document::new(bytes) {
        Some(document) => write_document(document, Layout::InOneLine, f),
        None if bytes.is_empty() => f.write_str("null"),
        None => write_lossy(bytes, f),
    }
}

/// Writes the pretty text of a document, and `null` for all other bytes.
pub fn write_pretty<W: fmt::Write>(bytes: &[u8], f: &mut fmt::Formatter<W>) -> fmt::Result
    ensures text { WritesStyledOnOk W.write_str_gives f.old result
        (pretty_display_text bytes.now) f.new }
    ensures tree { (t : Tree) → Doc bytes.now t → IsTree t }
{
    match Document::new(bytes) {
        Some(document) => write_document(document, Layout::OnLines(0), f),
        None => f.write_str("null"),
    }
}

// Writes the bytes as text, one character at a time, with U+FFFD in place of invalid UTF-8.
fn write_lossy<W: fmt::Write>(bytes: &[u8], f: &mut fmt::Formatter<W>) -> fmt::Result
    ensures { WritesStyledOnOk W.write_str_gives f.old result (lossy_text bytes.now) f.new }
{
    'chars: for char in bytes.chars() {
        f.write_char(char)?;
    }
    Ok(())
}

/// The text of a document in this layout. `capacity` is the length for which memory is asked first.
/// `OutOfMemory` is the only error.
pub fn document_text(
    alloc: Global,
    document: Document,
    layout: Layout,
    capacity: usize,
) -> Result<String, Error>
    requires room { (n : ℕ) → n < 2 ^ 64 → HasIndentRoom (layout_of layout) n }
    ensures text { IfOk result (λ text. string_bytes text
        ≡ laid_out (layout_of layout) (document_tree document.entry)) }
    ensures memory { IfErr result (λ e. e ≡ Error.OutOfMemory) }
{
    let text = Written::with_capacity(alloc, capacity)?;
    let mut f = fmt::Formatter::new(text);
    let answer = write_document(document, layout, &mut f);
    finish_text(answer, f)
}

/// Writes the text of a document in this layout.
pub fn write_document<W: fmt::Write>(
    document: Document,
    layout: Layout,
    f: &mut fmt::Formatter<W>,
) -> fmt::Result
    requires room { (n : ℕ) → n < 2 ^ 64 → HasIndentRoom (layout_of layout) n }
    ensures { WritesStyledOnOk W.write_str_gives f.old result
        (laid_out (layout_of layout) (document_tree document.entry)) f.new }
{
    write_node(document.node(), layout, f)
}

/// The compact text of a value. `OutOfMemory` is the only error.
pub fn node_text(alloc: Global, node: Node) -> Result<String, Error>
    requires { HoldsNoScalar node }
    ensures text { IfOk result (λ text. string_bytes text ≡ compact (node_tree node.entry)) }
    ensures memory { IfErr result (λ e. e ≡ Error.OutOfMemory) }
{
    let mut f = fmt::Formatter::new(Written::new(alloc));
    let answer = write_value(node, &mut f);
    finish_text(answer, f)
}

/// Writes the compact text of a value.
pub fn write_value<W: fmt::Write>(node: Node, f: &mut fmt::Formatter<W>) -> fmt::Result
    requires { HoldsNoScalar node }
    ensures { WritesStyledOnOk W.write_str_gives f.old result
        (compact (node_tree node.entry)) f.new }
{
    write_node(node, Layout::InOneLine, f)
}

// Writes the text of a value.
#[cycle(text)]
#[inline(always)]
fn write_node<W: fmt::Write>(
    node: Node<'_>,
    layout: Layout,
    f: &mut fmt::Formatter<W>,
) -> fmt::Result
    requires container { HoldsNoScalar node }
    requires room { HasIndentRoom (layout_of layout) (depth (node_tree node)) }
    ensures { WritesStyledOnOk W.write_str_gives f.old result
        (laid_out (layout_of layout) (node_tree node.entry)) f.new }
{
    match node {
        Node::Null => f.write_str("null"),
        Node::Boolean(true) => f.write_str("true"),
        Node::Boolean(false) => f.write_str("false"),
        Node::Number(number) => write_number(&number.as_number(), f),
        Node::String(text) => write_string(text, f),
        Node::Extension(value) => write_quotes(&value.as_extension_value(), f),
        Node::Container(document) => write_container(document, layout, f),
    }
}

#[cycle(text)]
fn write_container<W: fmt::Write>(
    document: Document<'_>,
    layout: Layout,
    f: &mut fmt::Formatter<W>,
) -> fmt::Result
    requires container { IsContainer (document_tree document) }
    requires room { HasIndentRoom (layout_of layout) (depth (document_tree document)) }
    ensures { WritesStyledOnOk W.write_str_gives f.old result
        (laid_out (layout_of layout) (document_tree document.entry)) f.new }
{
    match document.container_contents() {
        Contents::Array(items) => write_items(items, layout, f),
        Contents::Object(members) => write_members(members, layout, f),
    }
}

#[cycle(text)]
#[inline(always)]
fn write_items<W: fmt::Write>(
    mut items: Items<'_>,
    layout: Layout,
    f: &mut fmt::Formatter<W>,
) -> fmt::Result
    requires room { HasIndentRoom (layout_of layout) (depth (array_of (rest_trees items))) }
    ensures { WritesStyledOnOk W.write_str_gives f.old result
        (laid_out (layout_of layout) (array_of (rest_trees items.entry))) f.new }
{
    let Some(first) = items.next_part() else {
        return f.write_str("[]");
    };
    f.write_str("[")?;
    write_line(first, layout.inside(), f)?;
    'items: while let Some(next) = items.next_part() {
        f.write_str(",")?;
        write_line(next, layout.inside(), f)?;
    }
    layout.start_line(f)?;
    f.write_str("]")
}

// Writes an item of an array.
#[cycle(text)]
#[inline(always)]
fn write_line<W: fmt::Write>(
    item: Part<'_>,
    layout: Layout,
    f: &mut fmt::Formatter<W>,
) -> fmt::Result
    requires room { HasIndentRoom (layout_of layout) (depth (part_tree item)) }
    ensures { WritesStyledOnOk W.write_str_gives f.old result
        (line_start (layout_of layout)
        ++ laid_out (layout_of layout) (part_tree item.entry)) f.new }
{
    layout.start_line(f)?;
    write_node(Node::of_part(item), layout, f)
}

#[cycle(text)]
#[inline(always)]
fn write_members<W: fmt::Write>(
    mut members: Members<'_>,
    layout: Layout,
    f: &mut fmt::Formatter<W>,
) -> fmt::Result
    requires room { HasIndentRoom (layout_of layout) (depth (object_of (rest_pairs members))) }
    ensures { WritesStyledOnOk W.write_str_gives f.old result
        (laid_out (layout_of layout) (object_of (rest_pairs members.entry))) f.new }
{
    let Some((key, value)) = members.next_parts() else {
        return f.write_str("{}");
    };
    f.write_str("{")?;
    write_member(key, value, layout.inside(), f)?;
    'members: while let Some((key, value)) = members.next_parts() {
        write_next_member(key, value, layout.inside(), f)?;
    }
    layout.start_line(f)?;
    f.write_str("}")
}

// Writes a pair of an object.
#[cycle(text)]
#[inline(always)]
fn write_member<W: fmt::Write>(
    key: &str,
    value: Part<'_>,
    layout: Layout,
    f: &mut fmt::Formatter<W>,
) -> fmt::Result
    requires room { HasIndentRoom (layout_of layout) (depth (part_tree value)) }
    ensures { WritesStyledOnOk W.write_str_gives f.old result (line_start (layout_of layout)
        ++ pair_text (layout_of layout) key.now (part_tree value.entry)) f.new }
{
    layout.start_line(f)?;
    write_string(key, f)?;
    layout.write_colon(f)?;
    write_node(Node::of_part(value), layout, f)
}

// Writes a pair of an object that follows another.
#[cycle(text)]
#[inline(always)]
fn write_next_member<W: fmt::Write>(
    key: &str,
    value: Part<'_>,
    layout: Layout,
    f: &mut fmt::Formatter<W>,
) -> fmt::Result
    requires room { HasIndentRoom (layout_of layout) (depth (part_tree value)) }
    ensures { WritesStyledOnOk W.write_str_gives f.old result (next_key (layout_of layout) key.now
        ++ laid_out (layout_of layout) (part_tree value.entry)) f.new }
{
    write_next_key(key, layout, f)?;
    write_node(Node::of_part(value), layout, f)
}

// Writes a key that follows a pair, up to its value.
#[inline(always)]
fn write_next_key<W: fmt::Write>(
    key: &str,
    layout: Layout,
    f: &mut fmt::Formatter<W>,
) -> fmt::Result
    ensures { WritesStyledOnOk W.write_str_gives f.old result
        (next_key (layout_of layout) key.now) f.new }
{
    match layout {
        Layout::InOneLine => write_key_in_line(key, f),
        Layout::OnLines(_) => {
            f.write_str(",")?;
            layout.start_line(f)?;
            write_string(key, f)?;
            layout.write_colon(f)
        }
    }
}

// Writes the same in one line. The quotes are written with what is beside them, so that there are
// three writes, and not five.
#[inline(never)]
fn write_key_in_line<W: fmt::Write>(key: &str, f: &mut fmt::Formatter<W>) -> fmt::Result
    ensures { WritesStyledOnOk W.write_str_gives f.old result (next_key in_one_line key.now) f.new }
{
    f.write_str(",\"")?;
    write_content(key, f)?;
    f.write_str("\":")
}

#[tactic(auto, using(jsonb_value::proofs::Writing::joins))]
fn write_quotes<W: fmt::Write>(value: &ExtensionValue, f: &mut fmt::Formatter<W>) -> fmt::Result
    ensures { WritesStyledOnOk W.write_str_gives f.old result
        (quoted_text (extension_text (extension_of value.now))) f.new }
{
    f.write_str("\"")?;
    extension_text(value, f)?;
    f.write_str("\"")
}
