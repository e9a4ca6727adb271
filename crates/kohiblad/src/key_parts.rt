//! Keys that are cut to the caller's buffer, and keys of some members of an object.

ghost use Rattle.std.specs.Prelude.{◌≡◌, ℕ, List, map, option_copied, option_map};
ghost use Rattle.std.specs.Prelude.{IfErr, IfOk, IfSome};
ghost use Rattle.std.specs.Cmp.Lexicographic.{slice_cmp};
ghost use Rattle.std.specs.Ordering.{nat_cmp};
ghost use Rattle.jsonb_value.specs.WellFormed.{IsTree};
ghost use Rattle.jsonb.specs.Node.{node_tree, value_of_key};
ghost use Rattle.jsonb_comparable.specs.Sink.{length_64};
ghost use Rattle.jsonb_comparable.specs.TreeKey.{tree_key};
ghost use Rattle.kohiblad.specs.KeyParts.{IsCutKey, IsKeyOfList, IsMembersKey};
ghost use Rattle.kohiblad.specs.KeyParts.{keys_of_members, keys_of_parts, members_named};
ghost use Rattle.kohiblad.specs.KeyParts.{part_cmp, part_key};
ghost use Rattle.kohiblad.specs.KeySink.{cut_into};
ghost use Rattle.kohiblad.specs.MemberTable.{IsTableOf};
ghost use Rattle.kohiblad.specs.Words.{IsLongHandedOver, Meaning, Tree, document_tree};
ghost use Rattle.kohiblad.specs.Words.{key_meaning, meaning_key, meaning_within};

use crate::answer::{NO_ROOM, OK, OTHER_KIND, code, refuse};
use crate::checked::checked;
use crate::key_sink::KeyWriter;
use crate::member_table::MemberTable;
use crate::names::read_names;
use jsonb::{Document, Error, Node, SortKey};
use jsonb_comparable::{Sink, append_key_to, append_node};
use std::alloc::Global;

// The key of a member that is not there, which is below all others.
const MISSING: u8 = 0;

// Up to so many names are sooner looked up one by one than in a table of all members.
const FEW: usize = 8;

/// Copies the first bytes of the comparable key of any bytes to the start of `out`, as many as
/// there is room, and the length of the whole key in bytes to `length`: the key is cut if that is
/// more than the length of `out`. It is `SIZE_MAX` if the key is longer. A cut key is a lower
/// bound: it is never above its key, and where two keys cut to one length differ, the keys compare
/// as they do. The key is that of `kohiblad_key`. No memory is requested, and the status is always
/// `OK`. A document that nests deeper than `depth` levels counts as bytes that are not a document.
#[unsafe(no_mangle)]
pub extern "C" fn kohiblad_key_cut(
    bytes: &[u8],
    depth: usize,
    out: &mut [u8],
    length: &mut usize,
) -> u32
    ensures { IsCutKey (meaning_key (meaning_within depth bytes.now))
        out.old out.new length.new result }
{
    *length = cut_key(SortKey::within(bytes, depth), out);
    OK
}

// Writes the first bytes of a key, as many as there is room. Returns its length.
fn cut_key(key: SortKey<'_>, out: &mut [u8]) -> usize
    ensures out { out.new ≡ cut_into (meaning_key (key_meaning key.entry)) out.old }
    ensures len { result ≡ length_64 (meaning_key (key_meaning key.entry)) }
{
    let mut writer = KeyWriter { out, len: 0 };
    append_key_to(key, &mut writer);
    writer.len
}

/// Copies the comparable keys of some members of a document to `out`, one after another, and their
/// length in bytes to `length`. `names` is the document of an array of texts, the members' keys. A
/// member that is not there has the key of one byte, 0, which is below all other keys; a document
/// that is not an object has no members. No key begins another, so these keys compare by their
/// bytes as the lists of the members' values do. `InvalidJsonb` if the bytes or the names are not a
/// document of at most this depth; `OTHER_KIND` if the names are not an array of texts;
/// `OutOfMemory` if an allocation fails. The length is `SIZE_MAX` if the keys are longer.
#[tactic(auto, using(crate::proofs::MemberKeyLaws::members_order))]
#[unsafe(no_mangle)]
pub extern "C" fn kohiblad_member_key(
    alloc: Global,
    bytes: &[u8],
    names: &[u8],
    depth: usize,
    out: &mut [u8],
    length: &mut usize,
) -> u32
    ensures keys { IsMembersKey (meaning_within depth bytes.now) (meaning_within depth names.now)
        out.old out.new length.new result }

    // Such keys compare as the lists of the members.
    ensures order { (t u : Tree) → IsTree t → IsTree u → (names : List (List ℕ))
        → slice_cmp nat_cmp (keys_of_members names t) (keys_of_members names u)
        ≡ slice_cmp part_cmp (members_named names t) (members_named names u) }
{
    let (Ok(document), Ok(names)) = (checked(bytes, depth), checked(names, depth)) else {
        return refuse(code(Error::InvalidJsonb), out, length);
    };
    write_member_keys(alloc, document, names, out, length)
}

// Copies out the keys of the members with these names.
fn write_member_keys(
    alloc: Global,
    document: Document<'_>,
    names: Document<'_>,
    out: &mut [u8],
    length: &mut usize,
) -> u32
    ensures { IsMembersKey (Meaning.document (document_tree document.entry))
        (Meaning.document (document_tree names.entry)) out.old out.new length.new result }
{
    match read_names(alloc, names) {
        Ok(Some(names)) => write_named_keys(alloc, document, &names, out, length),
        Ok(None) => refuse(OTHER_KIND, out, length),
        Err(error) => refuse(code(error), out, length),
    }
}

// Copies out the keys of the members with these names, which are looked up once.
fn write_named_keys(
    alloc: Global,
    document: Document<'_>,
    names: &[&str],
    out: &mut [u8],
    length: &mut usize,
) -> u32
    ensures { IsKeyOfList (document_tree document.entry) (map (λ name. name.now) names.now)
        out.old out.new length.new result }
{
    match values_named(alloc, document, names) {
        Ok(values) => hand_over_keys(&values, out, length),
        Err(error) => refuse(code(error), out, length),
    }
}

// The values of the members with these names; nothing for a name that no member has.
fn values_named<'a>(
    alloc: Global,
    document: Document<'a>,
    names: &[&'a str],
) -> Result<Vec<Option<Node<'a>>>, Error>
    ensures ok { IfOk result (λ values. map (option_map node_tree) values.items
        ≡ members_named (map (λ name. name.now) names.now) (document_tree document.entry)) }
    ensures memory { IfErr result (λ e. e ≡ Error.OutOfMemory) }
{
    let table = table_for(alloc, document, names.len())?;
    let mut values = Vec::with_capacity(alloc, names.len())?;
    for name in names {
        values.push(value_named(document, table.as_ref(), name))?;
    }
    Ok(values)
}

// The table of a document's members, if many names are looked up.
fn table_for<'a>(
    alloc: Global,
    document: Document<'a>,
    names: usize,
) -> Result<Option<MemberTable<'a>>, Error>
    ensures ok { IfOk result (λ table. IfSome table (IsTableOf (document_tree document.entry))) }
    ensures memory { IfErr result (λ e. e ≡ Error.OutOfMemory) }
{
    if names <= FEW {
        return Ok(None);
    }
    let table = MemberTable::new(alloc, document)?;
    Ok(Some(table))
}

// The value of the member with this name, by the table if there is one.
fn value_named<'a>(
    document: Document<'a>,
    table: Option<&MemberTable<'a>>,
    name: &'a str,
) -> Option<Node<'a>>
    requires { IfSome (option_copied table) (IsTableOf (document_tree document)) }
    ensures { option_map node_tree result ≡ value_of_key name.now (document_tree document.entry) }
{
    match table {
        Some(table) => table.get(name),
        None => document.get(name),
    }
}

// Copies out keys if they fit, which are measured before.
fn hand_over_keys(values: &[Option<Node<'_>>], out: &mut [u8], length: &mut usize) -> u32
    ensures { IsLongHandedOver (keys_of_parts (map (option_map node_tree) values.now))
        out.old out.new length.new result }
{
    *length = cut_keys(values, &mut out[..0]);
    if out.len() < *length || *length == usize::MAX {
        return NO_ROOM;
    }
    cut_keys(values, out);
    OK
}

// Writes the first bytes of the values' keys, as many as there is room. Returns their length.
fn cut_keys(values: &[Option<Node<'_>>], out: &mut [u8]) -> usize
    ensures out { out.new
        ≡ cut_into (keys_of_parts (map (option_map node_tree) values.now)) out.old }
    ensures len { result ≡ length_64 (keys_of_parts (map (option_map node_tree) values.now)) }
{
    let mut writer = KeyWriter { out, len: 0 };
    for value in values {
        append_member(*value, &mut writer);
    }
    writer.len
}

// Appends the key of a member.
fn append_member<S: Sink>(value: Option<Node<'_>>, sink: &mut S)
    requires { S.room sink.old (part_key (option_map node_tree value)) }
    ensures { S.appends sink.old sink.new (part_key (option_map node_tree value.entry)) }
{
    match value {
        Some(node) => append_value(node, sink),
        None => sink.append(&[MISSING]),
    }
}

// Appends the key of a value.
fn append_value<S: Sink>(node: Node<'_>, sink: &mut S)
    requires { S.room sink.old (tree_key (node_tree node)) }
    ensures { S.appends sink.old sink.new (tree_key (node_tree node.entry)) }
{
    match node {
        Node::Container(document) => append_node(document.value(), sink),
        scalar => append_node(scalar, sink),
    }
}
