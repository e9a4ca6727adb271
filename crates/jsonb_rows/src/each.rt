//! Copies of documents that are changed at each place to which a path with wildcards leads.

ghost use Rattle.std.specs.Prelude.{◌≡◌, ◌&&◌, IfErr, IfOk, MatchOption, None, OnOk, Some};
ghost use Rattle.std.specs.Prelude.{option_map, string_bytes};
ghost use Rattle.jsonb_value.specs.Tree.{Pairs, Tree, Trees, array, count, object};
ghost use Rattle.jsonb_value.specs.Value.{items_view, pairs_view, tree_of};
ghost use Rattle.jsonb_codec.specs.Canon.{Fits, canon};
ghost use Rattle.jsonb_codec.specs.Doc.{IsDocument};
ghost use Rattle.jsonb_codec.specs.Contents.{AreChildren, AreMembers, PartMeans};
ghost use Rattle.jsonb.specs.Document.{document_tree};
ghost use Rattle.jsonb.specs.Owned.{owned_bytes};
ghost use Rattle.jsonb_functions.specs.Joined.{with_key};
ghost use Rattle.jsonb_functions.specs.MadeWithMemory.{MadeWithMemory};
ghost use Rattle.jsonb_rows.specs.Each.{added, at_end, child_edited, child_if, edited_each, leads};
ghost use Rattle.jsonb_rows.specs.Each.{operation_of, renamed, some_item, some_member};
ghost use Rattle.jsonb_rows.specs.Each.{value_of_name, with_items, with_members, without_name};
ghost use Rattle.jsonb_rows.specs.Pushed.{IsMemberPushed, IsPushed};
ghost use Rattle.jsonb_rows.specs.Reach.{leads_to_item, leads_to_member};

use crate::reach::Reach;
use crate::value::{encoded, value_of};
use jsonb::constants::CONTAINER_TAG;
use jsonb::layer::parts::{Children, Contents, Members, Part};
use jsonb::{Document, Error, Node, Object, OwnedJsonb, Value};
use std::alloc::Global;

/// What is done at each place to which a path leads.
#[derive(Clone, Copy)]
pub enum EachEdit<'a> {
    /// A value is put there. A last key that an object lacks is added to it.
    Set(Document<'a>),
    /// What is there is removed.
    Remove,
    /// In an object that is there, the member of the first name gets the second name, in place of
    /// a member that has it already.
    Rename(&'a str, &'a str),
}

/// The canonical document of the document's value, changed at each place to which the path leads;
/// the indexes of a path count the items that were there before. A whole document is not removed.
/// `InvalidJsonb` if the changed value does not fit the format; `OutOfMemory` if an allocation
/// fails.
pub fn edit_each(
    alloc: Global,
    document: Document<'_>,
    path: &[Reach<'_>],
    edit: EachEdit<'_>,
) -> Result<OwnedJsonb, Error>
    ensures ok { IfOk result (λ owned. owned_bytes owned
        ≡ canon (edited_each path.now (operation_of edit.entry) (document_tree document.entry))) }
    ensures document { IfOk result (λ owned. IsDocument (owned_bytes owned)) }
    ensures limits { MadeWithMemory (Fits
        (edited_each path.now (operation_of edit.entry) (document_tree document.entry))) result }
{
    match edited_child(alloc, document.part(), path, edit)? {
        Some(value) => encoded(alloc, &value),
        None => encoded(alloc, &document.to_value(alloc)?),
    }
}

// What a part becomes, with these steps left; `None` if it is removed.
#[cycle(each)]
fn edited_child<'a>(
    alloc: Global,
    part: Part<'a>,
    path: &[Reach<'_>],
    edit: EachEdit<'a>,
) -> Result<Option<Value<'a>>, Error>
    ensures ok { IfOk result (λ child. (t : Tree) → PartMeans part.entry t
        → option_map tree_of child ≡ child_edited path.now (operation_of edit.entry) t) }
    ensures memory { IfErr result (λ e. e ≡ Error.OutOfMemory) }
{
    let [step, rest @ ..] = path else {
        return edited_end(alloc, part, edit);
    };
    if part.type_code != CONTAINER_TAG {
        return Ok(Some(value_of_part(alloc, part)?));
    }
    match part.contents() {
        Contents::Array(items) => {
            let edited = edited_items(alloc, items, step, rest, edit)?;
            Ok(Some(array_of(edited)))
        }
        Contents::Object(object) => {
            let mut edited = edited_members(alloc, object.members(), step, rest, edit)?;
            add_missing(alloc, &mut edited, step, rest, edit)?;
            Ok(Some(object_of(edited)))
        }
    }
}

// The array of these items.
fn array_of<'a>(items: Vec<Value<'a>>) -> Value<'a>
    ensures { tree_of result ≡ array (items_view items.entry.items) }
{
    Value::Array(items)
}

// The object of these members.
fn object_of<'a>(members: Object<'a>) -> Value<'a>
    ensures { tree_of result ≡ object (pairs_view members.entry.entries) }
{
    Value::Object(members)
}

// What a part at the end of a path becomes.
fn edited_end<'a>(
    alloc: Global,
    part: Part<'a>,
    edit: EachEdit<'a>,
) -> Result<Option<Value<'a>>, Error>
    ensures ok { IfOk result (λ child. (t : Tree) → PartMeans part.entry t
        → option_map tree_of child ≡ at_end (operation_of edit.entry) t) }
    ensures memory { IfErr result (λ e. e ≡ Error.OutOfMemory) }
{
    match edit {
        EachEdit::Set(document) => Ok(Some(document.to_value(alloc)?)),
        EachEdit::Remove => Ok(None),
        EachEdit::Rename(from, to) => Ok(Some(renamed(alloc, part, from, to)?)),
    }
}

// The value of a part.
fn value_of_part<'a>(alloc: Global, part: Part<'a>) -> Result<Value<'a>, Error>
    ensures ok { IfOk result (λ value. (t : Tree) → PartMeans part.entry t → tree_of value ≡ t) }
    ensures memory { IfErr result (λ e. e ≡ Error.OutOfMemory) }
{
    value_of(alloc, Node::of_part(part))
}

// What a child becomes, with these steps left where the step before them leads.
#[cycle(each)]
fn edited_if<'a>(
    alloc: Global,
    is_led_to: bool,
    part: Part<'a>,
    rest: &[Reach<'_>],
    edit: EachEdit<'a>,
) -> Result<Option<Value<'a>>, Error>
    ensures ok { IfOk result (λ child. (t : Tree) → PartMeans part.entry t
        → option_map tree_of child
        ≡ child_if is_led_to (child_edited rest.now (operation_of edit.entry)) t) }
    ensures memory { IfErr result (λ e. e ≡ Error.OutOfMemory) }
{
    if is_led_to {
        edited_child(alloc, part, rest, edit)
    } else {
        Ok(Some(value_of_part(alloc, part)?))
    }
}

// The items, changed where a step leads, with these steps left.
#[cycle(each)]
fn edited_items<'a>(
    alloc: Global,
    items: Children<'a>,
    step: &Reach<'_>,
    rest: &[Reach<'_>],
    edit: EachEdit<'a>,
) -> Result<Vec<Value<'a>>, Error>
    ensures ok { IfOk result (λ values. (ts : Trees) → AreChildren ts items.entry
        → items_view values.items ≡ with_items (leads_to_item step.now (count ts))
        (child_edited rest.now (operation_of edit.entry)) 0 ts) }
    ensures memory { IfErr result (λ e. e ≡ Error.OutOfMemory) }
{
    let count = items.len();
    let mut values = Vec::with_capacity(alloc, count)?;
    let mut left = items;
    let mut index = 0;
    while let Some(child) = left.split_first() {
        let is_led_to = step.leads_to_item(count, index);
        let edited = edited_if(alloc, is_led_to, child.part, rest, edit)?;
        push_child(&mut values, edited)?;
        left = child.later;
        index += 1;
    }
    Ok(values)
}

// The members, changed where a step leads, with these steps left.
#[cycle(each)]
fn edited_members<'a>(
    alloc: Global,
    members: Members<'a>,
    step: &Reach<'_>,
    rest: &[Reach<'_>],
    edit: EachEdit<'a>,
) -> Result<Object<'a>, Error>
    ensures ok { IfOk result (λ made. (ps : Pairs) → AreMembers ps members.entry
        → pairs_view made.entries ≡ with_members (leads_to_member step.now)
        (child_edited rest.now (operation_of edit.entry)) ps) }
    ensures memory { IfErr result (λ e. e ≡ Error.OutOfMemory) }
{
    let mut pairs = Vec::with_capacity(alloc, members.keys.len())?;
    let mut left = members;
    while let Some(member) = left.split_first() {
        let is_led_to = step.leads_to_member(member.key);
        let child = edited_if(alloc, is_led_to, member.value, rest, edit)?;
        push_member(alloc, &mut pairs, member.key, child)?;
        left = member.later;
    }
    Ok(pairs.into_iter().collect(alloc)?)
}

// Appends a value, if there is one.
fn push_child<'a>(values: &mut Vec<Value<'a>>, child: Option<Value<'a>>) -> Result<(), Error>
    ensures ok { OnOk result (IsPushed child.entry values.old.items values.new.items) }
    ensures memory { IfErr result (λ e. e ≡ Error.OutOfMemory) }
{
    if let Some(value) = child {
        values.push(value)?;
    }
    Ok(())
}

// Appends a key with a value, if there is one.
fn push_member<'a>(
    alloc: Global,
    pairs: &mut Vec<(String, Value<'a>)>,
    key: &str,
    child: Option<Value<'a>>,
) -> Result<(), Error>
    ensures ok { OnOk result
        (IsMemberPushed key.now child.entry pairs.old.items pairs.new.items) }
    ensures memory { IfErr result (λ e. e ≡ Error.OutOfMemory) }
{
    if let Some(value) = child {
        let key = String::from_str(alloc, key)?;
        pairs.push((key, value))?;
    }
    Ok(())
}

// Puts a value at the last key of a path.
fn add_missing<'a>(
    alloc: Global,
    members: &mut Object<'a>,
    step: &Reach<'_>,
    rest: &[Reach<'_>],
    edit: EachEdit<'a>,
) -> Result<(), Error>
    ensures ok { OnOk result (pairs_view members.new.entries
        ≡ added step.now rest.now (operation_of edit.entry) (pairs_view members.old.entries)) }
    ensures memory { IfErr result (λ e. e ≡ Error.OutOfMemory) }
{
    if let (Reach::Key(key), [], EachEdit::Set(document)) = (step, rest, edit) {
        let key = String::from_str(alloc, *key)?;
        insert_member(members, key, document.to_value(alloc)?)?;
    }
    Ok(())
}

// Puts a value among members, in place of that with its name, if there is one.
#[tactic(auto, using(crate::proofs::EachLaws::pairs_inserted))]
fn insert_member<'a>(members: &mut Object<'a>, key: String, value: Value<'a>) -> Result<(), Error>
    ensures ok { OnOk result (pairs_view members.new.entries
        ≡ with_key (string_bytes key) (tree_of value.entry) (pairs_view members.old.entries)) }
    ensures memory { IfErr result (λ e. e ≡ Error.OutOfMemory) }
{
    drop(members.insert(key, value)?);
    Ok(())
}

// The value of a part, with another name for a member if it is an object that has it.
fn renamed<'a>(alloc: Global, part: Part<'a>, from: &str, to: &str) -> Result<Value<'a>, Error>
    ensures ok { IfOk result (λ value. (t : Tree) → PartMeans part.entry t
        → tree_of value ≡ renamed from.now to.now t) }
    ensures memory { IfErr result (λ e. e ≡ Error.OutOfMemory) }
{
    if part.type_code != CONTAINER_TAG {
        return value_of_part(alloc, part);
    }
    let Contents::Object(object) = part.contents() else {
        return value_of_part(alloc, part);
    };
    let members = object.members();
    let Some(named) = member_named(members, from) else {
        return value_of_part(alloc, part);
    };
    let mut others = members_but(alloc, members, from)?;
    let key = String::from_str(alloc, to)?;
    insert_member(&mut others, key, value_of_part(alloc, named)?)?;
    Ok(Value::Object(others))
}

// The value of a name.
fn member_named<'a>(members: Members<'a>, name: &str) -> Option<Part<'a>>
    ensures { (ps : Pairs) → AreMembers ps members.entry → MatchOption result
        (value_of_name name.now ps ≡ None)
        (λ part. (t : Tree) × ((value_of_name name.now ps ≡ Some t) × PartMeans part t)) }
{
    let mut left = members;
    while let Some(member) = left.split_first() {
        if name == member.key {
            return Some(member.value);
        }
        left = member.later;
    }
    None
}

// All members but that of a name.
fn members_but<'a>(alloc: Global, members: Members<'a>, name: &str) -> Result<Object<'a>, Error>
    ensures ok { IfOk result (λ made. (ps : Pairs) → AreMembers ps members.entry
        → pairs_view made.entries ≡ without_name name.now ps) }
    ensures memory { IfErr result (λ e. e ≡ Error.OutOfMemory) }
{
    let mut pairs = Vec::with_capacity(alloc, members.keys.len())?;
    let mut left = members;
    while let Some(member) = left.split_first() {
        let child = value_unless(alloc, name == member.key, member.value)?;
        push_member(alloc, &mut pairs, member.key, child)?;
        left = member.later;
    }
    Ok(pairs.into_iter().collect(alloc)?)
}

// The value of a part, unless it is left out.
fn value_unless<'a>(
    alloc: Global,
    is_left_out: bool,
    part: Part<'a>,
) -> Result<Option<Value<'a>>, Error>
    ensures ok { IfOk result (λ child. (t : Tree) → PartMeans part.entry t
        → option_map tree_of child ≡ child_if is_left_out (λ u. None) t) }
    ensures memory { IfErr result (λ e. e ≡ Error.OutOfMemory) }
{
    if is_left_out {
        Ok(None)
    } else {
        Ok(Some(value_of_part(alloc, part)?))
    }
}

/// Whether a path leads to some place in a document.
pub fn leads_somewhere(document: Document<'_>, path: &[Reach<'_>]) -> bool
    ensures { result ≡ leads path.now (document_tree document.entry) }
{
    leads_from(document.part(), path)
}

// Whether a path leads to some place from a part.
#[cycle(leads)]
fn leads_from(part: Part<'_>, path: &[Reach<'_>]) -> bool
    ensures { (t : Tree) → PartMeans part.entry t → result ≡ leads path.now t }
{
    let [step, rest @ ..] = path else {
        return true;
    };
    if part.type_code != CONTAINER_TAG {
        return false;
    }
    match part.contents() {
        Contents::Array(items) => some_item(items, step, rest),
        Contents::Object(object) => some_member(object.members(), step, rest),
    }
}

// Whether the steps that are left lead on from a child to which the step before them leads.
#[cycle(leads)]
fn leads_if(is_led_to: bool, part: Part<'_>, rest: &[Reach<'_>]) -> bool
    ensures { (t : Tree) → PartMeans part.entry t → result ≡ is_led_to && leads rest.now t }
{
    is_led_to && leads_from(part, rest)
}

// Whether the steps that are left lead on from some item to which a step leads.
#[cycle(leads)]
fn some_item(items: Children<'_>, step: &Reach<'_>, rest: &[Reach<'_>]) -> bool
    ensures { (ts : Trees) → AreChildren ts items.entry
        → result ≡ some_item (leads_to_item step.now (count ts)) (leads rest.now) 0 ts }
{
    let count = items.len();
    let mut left = items;
    let mut index = 0;
    while let Some(child) = left.split_first() {
        if leads_if(step.leads_to_item(count, index), child.part, rest) {
            return true;
        }
        left = child.later;
        index += 1;
    }
    false
}

// Whether the steps that are left lead on from some member to which a step leads.
#[cycle(leads)]
fn some_member(members: Members<'_>, step: &Reach<'_>, rest: &[Reach<'_>]) -> bool
    ensures { (ps : Pairs) → AreMembers ps members.entry
        → result ≡ some_member (leads_to_member step.now) (leads rest.now) ps }
{
    let mut left = members;
    while let Some(member) = left.split_first() {
        if leads_if(step.leads_to_member(member.key), member.value, rest) {
            return true;
        }
        left = member.later;
    }
    false
}
