//! Values in documents.

use crate::document::Document;
use crate::extension_item::ExtensionItem;
use crate::item::JsonbItem;
use crate::item_type::JsonbItemType;
use crate::number_item::NumberItem;
use crate::owned::OwnedJsonb;
use crate::text::{node_text, write_value};
use jsonb_codec::constants::{
    EXTENSION_TAG, FALSE_TAG, NULL_TAG, NUMBER_TAG, STRING_TAG, TRUE_TAG,
};
use jsonb_codec::parts::Part;
use jsonb_value::Error;
use std::alloc::Global;
use std::borrow::CowStr;
use std::fmt;

/// A value in a document: a scalar, or an array or object, which is a document itself. A number or
/// an extension value keeps the bytes of its payload.
#[derive(Clone, Copy, Debug)]
pub enum Node<'a> {
    Null,
    Boolean(bool),
    Number(NumberItem<'a>),
    String(&'a str),
    Extension(ExtensionItem<'a>),
    Container(Document<'a>),
}

impl<'a> Node<'a> {
    ghost use Rattle.std.specs.Prelude.{◌≡◌, ◌↔◌, Ok, Some, IfOk, IfErr, IsSome, string_bytes};
    ghost use Rattle.jsonb_codec.specs.Contents.{PartMeans};
    ghost use Rattle.jsonb.specs.Words.{Tree, compact, kind_of_tree, node_tree, HoldsNoScalar};
    ghost use Rattle.jsonb.specs.Words.{IsContainer, MadeIfFit, CanBeStored, container_of};
    ghost use Rattle.jsonb.specs.Words.{node_view, item_of, item_document, owned_bytes};
    ghost use Rattle.jsonb.specs.Words.{Doc, IsSignedZero};

    /// The array or object as a document. `None` if the value is a scalar.
    pub fn as_document(&self) -> Option<Document<'a>>
        ensures document { result ≡ container_of self.now }
        ensures container { HoldsNoScalar self.now
            → IsSome result ↔ IsContainer (node_tree self.now) }
    {
        match self {
            Node::Container(document) => Some(*document),
            _ => None,
        }
    }

    /// The value as a document of its own: the bytes of an array or object, or the document of the
    /// scalar, with the payload that it has in its document. It means the value, but for a signed
    /// zero made from a number, which is stored as the unsigned one. `InvalidJsonb`, before any
    /// allocation, if the payload of a scalar exceeds 268,435,455 bytes, which no payload in a
    /// document does; `OutOfMemory` if an allocation fails.
    pub fn to_owned(&self, alloc: Global) -> Result<OwnedJsonb, Error>
        ensures ok { IfOk result (λ owned. owned_bytes owned ≡ item_document (node_view self.now)) }
        ensures means { CanBeStored (node_view self.now) → (IsSignedZero (node_view self.now) → ⊥)
            → Doc (item_document (node_view self.now)) (node_tree self.now) }
        ensures limits { MadeIfFit (CanBeStored (node_view self.now)) result }
    {
        OwnedJsonb::from_item(alloc, JsonbItem::from(*self))
    }

    /// The compact text, without white space. `OutOfMemory` is the only error.
    pub fn to_string(&self, alloc: Global) -> Result<String, Error>
        ensures text { IfOk result (λ text. string_bytes text ≡ compact (node_tree self.now)) }
        ensures memory { IfErr result (λ e. e ≡ Error.OutOfMemory) }
    {
        node_text(alloc, self.opened())
    }

    // The same value, whose container is known to hold an array or object and not a scalar.
    pub(crate) fn opened(self) -> Node<'a>
        ensures tree { node_tree result ≡ node_tree self.entry }
        ensures container { HoldsNoScalar result }
    {
        match self {
            Node::Container(document) => document.node(),
            scalar => scalar,
        }
    }

    // The kind; an array or object with its count of items or pairs.
    pub(crate) fn kind(&self) -> JsonbItemType
        ensures { result ≡ kind_of_tree (node_tree self.now) }
    {
        match self {
            Node::Null => JsonbItemType::Null,
            Node::Boolean(_) => JsonbItemType::Boolean,
            Node::Number(_) => JsonbItemType::Number,
            Node::String(_) => JsonbItemType::String,
            Node::Extension(_) => JsonbItemType::Extension,
            Node::Container(document) => document.kind(),
        }
    }

    /// The value that a part holds.
    #[inline(always)]
    #[tactic(auto, unfolding(crate::specs::Item::item_of))]
    pub fn of_part(part: Part<'a>) -> Node<'a>
        ensures means { (t : Tree) → PartMeans part.entry t → node_tree result ≡ t }
        ensures item { item_of part.entry.type_code part.entry.payload.now
            ≡ Ok (node_view result) }
        ensures container { HoldsNoScalar result }
    {
        match part.type_code {
            NULL_TAG => Node::Null,
            TRUE_TAG => Node::Boolean(true),
            FALSE_TAG => Node::Boolean(false),
            NUMBER_TAG => Node::Number(NumberItem::of_part(part)),
            STRING_TAG => Node::String(part.text()),
            EXTENSION_TAG => Node::Extension(ExtensionItem::of_part(part)),
            _ => Node::Container(Document::of_container(part)),
        }
    }
}

/// A value as an item: an array or object by its bytes, a number or an extension value with those
/// of its payload.
impl<'a> From<Node<'a>> for JsonbItem<'a> {
    ghost use Rattle.std.specs.Prelude.{◌≡◌};
    ghost use Rattle.jsonb.specs.ItemView.{item_view};
    ghost use Rattle.jsonb.specs.Node.{node_view};

    ghost from_gives = { λ node item. item_view item ≡ node_view node };

    fn from(node: Node<'a>) -> Self {
        match node {
            Node::Null => JsonbItem::Null,
            Node::Boolean(value) => JsonbItem::Boolean(value),
            Node::Number(number) => JsonbItem::Number(number),
            Node::String(text) => JsonbItem::String(CowStr::Borrowed(text)),
            Node::Extension(value) => JsonbItem::Extension(value),
            Node::Container(document) => JsonbItem::Raw(document.as_raw()),
        }
    }
}

/// Writes the compact text, without white space. Width and fill are ignored.
impl fmt::Display for Node<'_> {
    ghost use Rattle.std.specs.Prelude.{Some};
    ghost use Rattle.jsonb_value.specs.Text.{compact};
    ghost use Rattle.jsonb.specs.Node.{node_tree};

    ghost output = { λ node. Some (compact (node_tree node)) };

    ghost styled_output = { λ node _. Some (compact (node_tree node)) };

    fn fmt<W: fmt::Write>(&self, f: &mut fmt::Formatter<W>) -> fmt::Result {
        write_value(self.opened(), f)
    }
}
