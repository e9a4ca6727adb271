//! Where the values are to which paths lead: their entries, with their positions in the bytes.

ghost use Rattle.std.specs.Prelude.{◌≡◌, ◌≤◌, ◌<◌, ◌+◌, ◌^◌, [], IfOk, IfSome, drop, length};
ghost use Rattle.std.specs.Prelude.{Ok, option_to_list};
ghost use Rattle.std.specs.Iterator.{YieldsFirstBy};
ghost use Rattle.jsonb.specs.Entry.{entry_there, IsEntryIn};
ghost use Rattle.jsonb.specs.Node.{node_view};
ghost use Rattle.jsonb.specs.StoredEntries.{entry_item};
ghost use Rattle.jsonb.specs.declared.entries.Entry.{Entry};
ghost use Rattle.jsonb_functions.specs.PathPlaces.{IsPlaceWithin, entries_after, header_there};
ghost use Rattle.jsonb_functions.specs.PathPlaces.{nth_entry, listed_places, member_entry, moved};
ghost use Rattle.jsonb_functions.specs.PathPlaces.{place_from, places_at};
ghost use Rattle.jsonb_functions.specs.PathPlaces.{range_places, read_entries};
ghost use Rattle.jsonb_functions.specs.PathPlaces.{step_entry, step_place, tree_there};
ghost use Rattle.jsonb_functions.specs.PathPlaces.{value_places, whole_place};
ghost use Rattle.jsonb_functions.specs.PlaceWalks.{IsPart, walk_places};
ghost use Rattle.jsonb_functions.specs.Words.{indexes_of, item_place, node_tree};
ghost use Rattle.jsonb_functions.specs.declared.selection.Selector.TheVariants.{Filter};

use crate::filter::{Condition, holds};
use crate::path::{Step, item_position};
use crate::selection::{Bound, Selector, count_before, count_through, step_at};
use jsonb::layer::{Cursor, Entry};
use jsonb::{Error, Node, read_header};
use jsonb_codec::constants::{ARRAY_CONTAINER_TAG, CONTAINER_TAG, OBJECT_CONTAINER_TAG};
use jsonb_codec::parts::Part;
use std::marker::Model;

/// What is left in a walk over children: those of the entries that are left of an array or object,
/// so many at most, whose bytes begin at `start`.
#[derive(Drop)]
pub struct ChildWalk<'a> {
    entries: Cursor<'a>,
    start: usize,
    left: usize,
}

impl<'a> Model for ChildWalk<'a> {
    ghost use Rattle.std.specs.Prelude.{◌+◌, ◌<◌, ◌^◌, List, length, map, take};
    ghost use Rattle.jsonb.specs.declared.entries.Entry.{Entry};
    ghost use Rattle.jsonb_functions.specs.PathPlaces.{moved, read_entries};

    ghost Value = { List Entry };

    ghost view = { λ s. map (moved s.start) (take s.left (read_entries s.entries.entries)) };

    ghost invariant = { λ s. s.start + length s.entries.bytes < 2 ^ 63 };
}

/// What is left of the values to which a selector leads from a value: one or none, children, or
/// those of the items at the indexes of a list, of which so many were passed.
#[derive(Drop)]
pub enum PlaceWalk<'a> {
    One(Option<Entry>),
    Children(ChildWalk<'a>),
    Listed(usize),
}

/// The position of the whole array or object, or of the payload of a scalar. `InvalidEOF` if the
/// header or a scalar's entry word is cut off, `InvalidJsonb` if the header is of no kind or the
/// payload runs past the end.
pub fn whole_place(bytes: &[u8]) -> Result<Entry, Error>
    ensures value { result ≡ whole_place bytes.now }
    ensures inside { IfOk result (IsPlaceWithin bytes.now) }
{
    match read_header(bytes, 0)? {
        (ARRAY_CONTAINER_TAG | OBJECT_CONTAINER_TAG, _) => Ok(Entry {
            type_code: CONTAINER_TAG,
            start: 0,
            length: bytes.len(),
        }),
        _ => Entry::read(bytes, 4, 8),
    }
}

/// The position to which a path leads from a position. `None` if the path leads nowhere.
pub fn place_at_end(bytes: &[u8], from: Entry, path: &[Step<'_>]) -> Option<Entry>
    requires { IsPlaceWithin bytes.now from }
    ensures value { result ≡ place_from path.now bytes.now from }
    ensures inside { IfSome result (IsPlaceWithin bytes.now) }
{
    let mut place = from;
    let mut left = path;
    while let [step, rest @ ..] = left {
        place = child_place(bytes, place, *step)?;
        left = rest;
    }
    Some(place)
}

// The position to which a step leads from a position. `None` if it leads nowhere.
fn child_place(bytes: &[u8], place: Entry, step: Step<'_>) -> Option<Entry>
    requires { IsPlaceWithin bytes.now place }
    ensures value { result ≡ step_place step.entry bytes.now place }
    ensures inside { IfSome result (IsPlaceWithin bytes.now) }
{
    let entry = child_entry(bytes_at(bytes, place), header_at(bytes, place), step)?;
    Some(Entry {
        type_code: entry.type_code,
        start: place.start + entry.start,
        length: entry.length,
    })
}

// The header of the array or object at a position. `None` at the position of a scalar, and if it
// cannot be read.
fn header_at(bytes: &[u8], place: Entry) -> Option<(u32, usize)>
    requires { IsPlaceWithin bytes.now place }
    ensures value { result ≡ header_there bytes.now place }
    ensures few { IfSome result (λ header. header.1 < 2 ^ 29) }
    ensures there { IfSome result (λ header. 4 ≤ place.length) }
{
    if place.type_code != CONTAINER_TAG {
        return None;
    }
    match read_header(bytes_at(bytes, place), 0) {
        Ok(header) => Some(header),
        Err(_) => None,
    }
}

/// The payload at a position.
pub fn bytes_at<'a>(bytes: &'a [u8], place: Entry) -> &'a [u8]
    requires { IsPlaceWithin bytes.now place }
    ensures bytes { result.now ≡ (entry_there bytes.entry.now place).payload }
    ensures long { length result.now ≡ place.length }
{
    &bytes[place.start..place.start + place.length]
}

// The entry of the child to which a step leads in an array or object with this header.
fn child_entry(bytes: &[u8], header: Option<(u32, usize)>, step: Step<'_>) -> Option<Entry>
    requires few { IfSome header (λ header. header.1 < 2 ^ 29) }
    requires there { IfSome header (λ header. 4 ≤ length bytes.now) }
    ensures value { result ≡ step_entry step.entry bytes.now header }
    ensures inside { IfSome result (IsPlaceWithin bytes.now) }
{
    match header {
        Some((ARRAY_CONTAINER_TAG, count)) => item_entry(bytes, count, step),
        Some((OBJECT_CONTAINER_TAG, count)) => member_entry(bytes, count, step),
        _ => None,
    }
}

// The entry of the item to which a step leads in an array of so many.
fn item_entry(bytes: &[u8], count: usize, step: Step<'_>) -> Option<Entry>
    requires { count < 2 ^ 29 }
    ensures value { result ≡ nth_entry (item_place step.entry count) bytes.now count }
    ensures inside { IfSome result (IsPlaceWithin bytes.now) }
{
    let position = item_position(step, count)?;
    if !position.is_there {
        return None;
    }
    let mut items = Cursor::over_items(bytes, count);
    pass_over(&mut items, position.before);
    next_entry(&mut items)
}

// The entry of the value to which a step leads in an object of so many members.
fn member_entry(bytes: &[u8], count: usize, step: Step<'_>) -> Option<Entry>
    requires few { count < 2 ^ 29 }
    requires there { 4 ≤ length bytes.now }
    ensures value { result ≡ member_entry step.entry bytes.now count }
    ensures inside { IfSome result (IsPlaceWithin bytes.now) }
{
    let Step::Key(name) = step else {
        return None;
    };
    let mut keys = Cursor::over_keys(bytes, count);
    let Ok(mut values) = Cursor::over_values(bytes, count) else {
        return None;
    };
    while let Some(key) = next_entry(&mut keys) {
        let value = next_entry(&mut values)?;
        if name.as_bytes() == key.payload(bytes) {
            return Some(value);
        }
    }
    None
}

// The next entry. `None` after the last one, and if it cannot be read.
#[inline(always)]
fn next_entry(entries: &mut Cursor<'_>) -> Option<Entry>
    ensures steps { YieldsFirstBy (λ entry. entry) (λ run. read_entries run.entries)
        entries.old result entries.new }
    ensures inside { IfSome result (IsEntryIn entries.old.bytes) }
    ensures bytes { entries.new.bytes ≡ entries.old.bytes }
{
    match entries.next() {
        Some(Ok(entry)) => Some(entry),
        _ => None,
    }
}

// Passes over so many entries. None is left if the word of one of them is cut off.
fn pass_over(entries: &mut Cursor<'_>, count: usize)
    ensures rest { read_entries entries.new.entries ≡ entries_after count entries.old.entries }
    ensures bytes { entries.new.bytes ≡ entries.old.bytes }
{
    // A cursor has no entry left after an error.
    let _ = entries.skip(count);
}

/// The positions to which a selector leads from a position.
pub fn places_from<'a>(bytes: &'a [u8], place: Entry, selector: &Selector<'_>) -> PlaceWalk<'a>
    requires { IsPart bytes.now place }
    ensures { walk_places (indexes_of selector.now) bytes.now place result
        ≡ places_at selector.now bytes.now place }
{
    match selector {
        Selector::Step(step) => PlaceWalk::One(child_place(bytes, place, *step)),
        Selector::AllItems => {
            PlaceWalk::Children(items_at(bytes, place, Bound::FromStart(0), Bound::FromEnd(0)))
        }
        Selector::AllMembers => PlaceWalk::Children(values_at(bytes, place)),
        Selector::Range { first, last } => {
            PlaceWalk::Children(items_at(bytes, place, *first, *last))
        }
        Selector::Indexes(_) => PlaceWalk::Listed(0),
        Selector::Filter(condition) => PlaceWalk::One(kept_place(bytes, place, condition)),
    }
}

// A position, if the condition on the value there holds.
fn kept_place(bytes: &[u8], place: Entry, condition: &Condition<'_>) -> Option<Entry>
    requires { IsPart bytes.now place }
    ensures { option_to_list result ≡ places_at (Filter condition.now) bytes.now place }
{
    if holds(node_at_place(bytes, place), condition) {
        Some(place)
    } else {
        None
    }
}

/// The value at a position.
pub fn node_at_place<'a>(bytes: &'a [u8], place: Entry) -> Node<'a>
    requires { IsPart bytes.now place }
    ensures tree { node_tree result ≡ tree_there bytes.entry.now place }
    ensures item { entry_item (entry_there bytes.entry.now place) ≡ Ok (node_view result) }
{
    Node::of_part(Part {
        type_code: place.type_code,
        payload: bytes_at(bytes, place),
    })
}

// The items between two bounds, if there is an array at a position.
fn items_at<'a>(bytes: &'a [u8], place: Entry, first: Bound, last: Bound) -> ChildWalk<'a>
    requires { IsPlaceWithin bytes.now place }
    ensures { result ≡ range_places first last bytes.entry.now place }
{
    let payload = bytes_at(bytes, place);
    match header_at(bytes, place) {
        Some((ARRAY_CONTAINER_TAG, count)) => {
            let before = count_before(first, count);
            let through = count_through(last, count);
            let mut entries = Cursor::over_items(payload, count);
            pass_over(&mut entries, before);
            ChildWalk {
                entries,
                start: place.start,
                left: through.saturating_sub(before),
            }
        }
        _ => no_children(payload),
    }
}

// The values of the members, if there is an object at a position.
fn values_at<'a>(bytes: &'a [u8], place: Entry) -> ChildWalk<'a>
    requires { IsPlaceWithin bytes.now place }
    ensures { result ≡ value_places bytes.entry.now place }
{
    let payload = bytes_at(bytes, place);
    match header_at(bytes, place) {
        Some((OBJECT_CONTAINER_TAG, count)) => match Cursor::over_values(payload, count) {
            Ok(entries) => {
                let left = entries.len();
                ChildWalk {
                    entries,
                    start: place.start,
                    left,
                }
            }
            Err(_) => no_children(payload),
        },
        _ => no_children(payload),
    }
}

// A walk over no children.
fn no_children<'a>(bytes: &'a [u8]) -> ChildWalk<'a>
    ensures { result ≡ [] }
{
    ChildWalk {
        entries: Cursor::over_items(bytes, 0),
        start: 0,
        left: 0,
    }
}

/// The next of these positions.
pub fn next_place(
    bytes: &[u8],
    place: Entry,
    selector: &Selector<'_>,
    walk: &mut PlaceWalk<'_>,
) -> Option<Entry>
    requires { IsPlaceWithin bytes.now place }
    ensures { YieldsFirstBy (λ it. it) (walk_places (indexes_of selector.now) bytes.now place)
        walk.old result walk.new }
{
    match walk {
        PlaceWalk::One(found) => found.take(),
        PlaceWalk::Children(children) => next_child(children),
        PlaceWalk::Listed(passed) => match selector {
            Selector::Indexes(indexes) => next_listed(bytes, place, indexes, passed),
            _ => None,
        },
    }
}

// The position of the next child.
fn next_child(children: &mut ChildWalk<'_>) -> Option<Entry>
    ensures { YieldsFirstBy (λ it. it) (λ left. left) children.old result children.new }
{
    if children.left == 0 {
        return None;
    }
    let entry = next_entry(&mut children.entries)?;
    children.left -= 1;
    Some(Entry {
        type_code: entry.type_code,
        start: children.start + entry.start,
        length: entry.length,
    })
}

// The next of the positions of the items at indexes.
fn next_listed(bytes: &[u8], place: Entry, indexes: &[Bound], passed: &mut usize) -> Option<Entry>
    requires { IsPlaceWithin bytes.now place }
    ensures { YieldsFirstBy (λ it. it) (λ n. listed_places bytes.now place (drop n indexes.now))
        passed.old result passed.new }
{
    while let Some(index) = indexes.get(*passed) {
        *passed += 1;
        if let Some(item) = child_place(bytes, place, step_at(*index)) {
            return Some(item);
        }
    }
    None
}
