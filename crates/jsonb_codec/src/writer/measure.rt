//! How many bytes are written.
//!
//! A measure continues from a start, and ends before a container whose children would begin past a
//! limit. An object's members are located only within the limit, since that may take a step for
//! each of them. To find a container child's length, the child or its later siblings are measured:
//! the side of which less is read, where the source says which that is, and otherwise both in turn,
//! up to limits that grow. Before that a few later siblings are measured up to a small limit, since
//! they are often short. The length of what is not measured is what remains of the whole. So at
//! each level the work is at most a fixed multiple of all children but the largest, and a document
//! takes time n log n.

ghost use Rattle.std.specs.Prelude.{◌≡◌, ◌≤◌, ◌<◌, ◌+◌, ◌^◌, length, IfSome, IfNone, OnSome, IfOk};
ghost use Rattle.std.specs.Prelude.{IfErr, OnOk, OnErr};
ghost use Rattle.jsonb_codec.specs.Shape as shapes;
ghost use Rattle.jsonb_codec.specs.Shape.{ShapeFits};
ghost use Rattle.jsonb_codec.specs.Words.{Shape, Shapes, shape_count, body, payload, document};
ghost use Rattle.jsonb_codec.specs.Words.{AllFit};
ghost use Rattle.jsonb_codec.specs.Words.{FitsInside, FitsEntry, LevelIs, LevelHeld, AreFew};
ghost use Rattle.jsonb_codec.specs.Words.{TakesLeft};

use super::source::{Leaf, Level, Side, Source};
use jsonb_value::Error;

/// The greatest length of a payload that an entry word can hold.
pub const MAX_PAYLOAD: usize = 0x0FFFFFFF;

/// The greatest count that a header word can hold.
pub const MAX_COUNT: usize = 0x1FFFFFFF;

// Greater than the length of anything that fits.
const NO_LIMIT: usize = 1 << 60;

const FIRST_LIMIT: usize = 32;

// The later siblings that are measured before a container: at most this many, up to this limit, and
// only if they and the container are longer than this in total.
const FEW_SIBLINGS: usize = 2;

const SHORT_SIBLINGS: usize = 20;

const SHORT_IN_TOTAL: usize = 96;

/// The length of the document in bytes. `InvalidJsonb` if the value does not fit the format.
#[inline(always)]
pub fn measure_document<S: Source>(
    level: Level<S::Leaf, S::Items, S::Object>,
) -> Result<usize, Error>
    requires { (s : Shape) × LevelIs S.Leaf.code S.meaning level s }
    ensures ok { IfOk result (λ n. (s : Shape) → LevelIs S.Leaf.code S.meaning level s
        → ShapeFits s × (n ≡ length (document s))) }
    ensures held { OnOk result (LevelHeld S.meaning level) }
    ensures err { OnErr result
        ((s : Shape) → LevelIs S.Leaf.code S.meaning level s → ShapeFits s → ⊥) }
    ensures only { IfErr result (λ e. e ≡ Error.InvalidJsonb) }
{
    let end = match level {
        Level::Leaf(leaf) => entry_end(8, leaf.len()),
        Level::Array(items) => measure_array::<S>(items, 0, NO_LIMIT),
        Level::Object(object) => measure_object::<S>(object, 0, NO_LIMIT),
    };
    end.ok_or(Error::InvalidJsonb)
}

// The end of a payload of this length, `None` if no entry word can hold the length.
#[inline(always)]
fn entry_end(start: usize, size: usize) -> Option<usize>
    requires { start ≤ 2 ^ 61 }
    ensures some { IfSome result (λ end. (end ≡ start + size) × (size < 2 ^ 28)) }
    ensures none { IfNone result (2 ^ 28 ≤ size) }
{
    if size > MAX_PAYLOAD {
        return None;
    }
    Some(start + size)
}

// The end of the payload of a child, `None` if it does not fit or ends beyond the limit.
#[cycle(measure)]
#[inline(always)]
fn measure_child<S: Source>(
    child: Level<S::Leaf, S::Items, S::Object>,
    start: usize,
    limit: usize,
) -> Option<usize>
    requires is { (s : Shape) × LevelIs S.Leaf.code S.meaning child s }
    requires start { start ≤ 2 ^ 61 }
    requires limit { limit ≤ 2 ^ 60 }
    ensures some { IfSome result (λ end. (s : Shape) → LevelIs S.Leaf.code S.meaning child s
        → FitsEntry s × (end ≡ start + length (payload s))) }
    ensures held { OnSome result (LevelHeld S.meaning child) }
    ensures none { IfNone result ((s : Shape) → LevelIs S.Leaf.code S.meaning child s → FitsEntry s
        → limit < start + length (payload s)) }
{
    let size = match child {
        Level::Leaf(leaf) => leaf.len(),
        Level::Array(items) => measure_array::<S>(items, start, limit)? - start,
        Level::Object(object) => measure_object::<S>(object, start, limit)? - start,
    };
    entry_end(start, size)
}

#[cycle(measure)]
fn measure_array<S: Source>(items: S::Items, start: usize, limit: usize) -> Option<usize>
    requires are { (ss : Shapes) × S.meaning.items items ss }
    requires start { start ≤ 2 ^ 61 }
    requires limit { limit ≤ 2 ^ 60 }
    ensures some { IfSome result (λ end. (ss : Shapes) → S.meaning.items items ss
        → FitsInside (shapes.array ss) × (end ≡ start + length (payload (shapes.array ss)))) }
    ensures held { OnSome result (S.meaning.items_held items) }
    ensures none { IfNone result ((ss : Shapes) → S.meaning.items items ss
        → FitsInside (shapes.array ss) → limit < start + length (payload (shapes.array ss))) }
{
    let count = S::count(items);
    if count > MAX_COUNT {
        return None;
    }
    let first = start + 4 + 4 * count;
    if first > limit {
        return None;
    }
    measure_items::<S>(items, first, limit)
}

#[cycle(measure)]
fn measure_object<S: Source>(object: S::Object, start: usize, limit: usize) -> Option<usize>
    requires are { (ss : Shapes) × S.meaning.object object ss }
    requires start { start ≤ 2 ^ 61 }
    requires limit { limit ≤ 2 ^ 60 }
    ensures some { IfSome result (λ end. (ss : Shapes) → S.meaning.object object ss
        → FitsInside (shapes.object ss) × (end ≡ start + length (payload (shapes.object ss)))) }
    ensures held { OnSome result (S.meaning.object_held object) }
    ensures none { IfNone result ((ss : Shapes) → S.meaning.object object ss
        → FitsInside (shapes.object ss) → limit < start + length (payload (shapes.object ss))) }
{
    let count = S::object_count(object);
    if count > MAX_COUNT {
        return None;
    }
    let first = start + 4 + 8 * count;
    if first > limit {
        return None;
    }
    measure_members::<S>(S::members(object), first, limit)
}

// The end of the payloads of items, `None` if they do not fit or end beyond the limit.
#[cycle(measure)]
#[inline(always)]
fn measure_items<S: Source>(items: S::Items, start: usize, limit: usize) -> Option<usize>
    requires are { (ss : Shapes) × (S.meaning.items items ss × (shape_count ss < 2 ^ 29)) }
    requires start { start ≤ limit }
    requires limit { limit ≤ 2 ^ 60 }
    ensures some { IfSome result (λ end. (ss : Shapes) → S.meaning.items items ss
        → AllFit ss × (end ≡ start + body ss)) }
    ensures held { OnSome result (S.meaning.items_held items) }
    ensures none { IfNone result ((ss : Shapes) → S.meaning.items items ss → AllFit ss
        → limit < start + body ss) }
{
    let mut end = start;
    let mut left = items;
    while let Some((item, others)) = S::split_item(left) {
        end = measure_child::<S>(S::level(item), end, limit)?;
        left = others;
    }
    Some(end)
}

// The end of the keys and the payloads of members, `None` if they do not fit or end beyond the
// limit.
#[cycle(measure)]
#[inline(always)]
fn measure_members<S: Source>(members: S::Members, start: usize, limit: usize) -> Option<usize>
    requires are { (ss : Shapes) × (S.meaning.members members ss × (shape_count ss < 2 ^ 29)) }
    requires start { start ≤ limit }
    requires limit { limit ≤ 2 ^ 60 }
    ensures some { IfSome result (λ end. (ss : Shapes) → S.meaning.members members ss
        → AllFit ss × (end ≡ start + body ss)) }
    ensures held { OnSome result (S.meaning.members_held members) }
    ensures none { IfNone result ((ss : Shapes) → S.meaning.members members ss → AllFit ss
        → limit < start + body ss) }
{
    let mut end = start;
    let mut left = members;
    while let Some((key, (value, others))) = S::split_member(left) {
        let key_end = entry_end(end, key.len())?;
        end = measure_child::<S>(S::level(value), key_end, limit)?;
        left = others;
    }
    Some(end)
}

/// The payload length of a container that is an array's item. `left`: the total size of this item
/// and its later siblings. `unlimited_levels`: the number of levels from here that are measured
/// without limits.
#[inline(always)]
pub fn item_size<S: Source>(
    item: S::Child,
    container: Level<S::Leaf, S::Items, S::Object>,
    later: S::Items,
    left: usize,
    unlimited_levels: usize,
) -> usize
    requires { (s : Shape) × (LevelIs S.Leaf.code S.meaning container s
        × TakesLeft S.meaning.items later s left) }
    ensures { (s : Shape) → LevelIs S.Leaf.code S.meaning container s
        → result ≡ length (payload s) }
{
    if S::count(later) == 0 {
        return left;
    }
    match S::item_side(item, later) {
        Some(side) => item_size_by_side::<S>(container, later, left, side),
        None => item_size_by_limits::<S>(container, later, left, first_limit(unlimited_levels)),
    }
}

/// The payload length of a container that is an object's value. `left`: the total size of this
/// value, its later siblings and their keys. `unlimited_levels`: the number of levels from here
/// that are measured without limits.
#[inline(always)]
pub fn value_size<S: Source>(
    value: S::Child,
    container: Level<S::Leaf, S::Items, S::Object>,
    later: &S::Members,
    left: usize,
    unlimited_levels: usize,
) -> usize
    requires { (s : Shape) × (LevelIs S.Leaf.code S.meaning container s
        × TakesLeft S.meaning.members later.now s left) }
    ensures { (s : Shape) → LevelIs S.Leaf.code S.meaning container s
        → result ≡ length (payload s) }
{
    if S::members_left(later) == 0 {
        return left;
    }
    let others = S::fork(later);
    match S::value_side(value, later) {
        Some(side) => value_size_by_side::<S>(container, others, left, side),
        None => value_size_by_limits::<S>(container, others, left, first_limit(unlimited_levels)),
    }
}

// The first limit: none in the top levels, and a small one below them.
fn first_limit(unlimited_levels: usize) -> usize
    ensures { 0 < result }
{
    if unlimited_levels > 0 {
        usize::MAX
    } else {
        FIRST_LIMIT
    }
}

// The payload length of a container, by measuring this side of it.
#[inline(never)]
fn item_size_by_side<S: Source>(
    item: Level<S::Leaf, S::Items, S::Object>,
    later: S::Items,
    left: usize,
    side: Side,
) -> usize
    requires { (s : Shape) × (LevelIs S.Leaf.code S.meaning item s
        × TakesLeft S.meaning.items later s left) }
    ensures { (s : Shape) → LevelIs S.Leaf.code S.meaning item s → result ≡ length (payload s) }
{
    match side {
        Side::Child => child_size::<S>(item),
        Side::Later => left - items_size::<S>(later),
    }
}

#[inline(never)]
fn value_size_by_side<S: Source>(
    value: Level<S::Leaf, S::Items, S::Object>,
    later: S::Members,
    left: usize,
    side: Side,
) -> usize
    requires { (s : Shape) × (LevelIs S.Leaf.code S.meaning value s
        × TakesLeft S.meaning.members later s left) }
    ensures { (s : Shape) → LevelIs S.Leaf.code S.meaning value s → result ≡ length (payload s) }
{
    match side {
        Side::Child => child_size::<S>(value),
        Side::Later => left - members_size::<S>(later),
    }
}

// The payload length of a container: by a few short later siblings, or else by measuring it and its
// later siblings up to growing limits.
#[inline(never)]
fn item_size_by_limits<S: Source>(
    item: Level<S::Leaf, S::Items, S::Object>,
    later: S::Items,
    left: usize,
    first_limit: usize,
) -> usize
    requires takes { (s : Shape) × (LevelIs S.Leaf.code S.meaning item s
        × TakesLeft S.meaning.items later s left) }
    requires limit { 0 < first_limit }
    ensures { (s : Shape) → LevelIs S.Leaf.code S.meaning item s → result ≡ length (payload s) }
{
    if left > SHORT_IN_TOTAL && S::count(later) <= FEW_SIBLINGS {
        if let Some(size) = measure_items::<S>(later, 0, SHORT_SIBLINGS) {
            return left - size;
        }
    }
    let mut limit = first_limit;
    while limit < left / 16 {
        if let Some(size) = measure_child::<S>(item, 0, limit) {
            return size;
        }
        if let Some(size) = measure_items::<S>(later, 0, limit) {
            return left - size;
        }
        limit *= 8;
    }
    child_size::<S>(item)
}

#[inline(never)]
fn value_size_by_limits<S: Source>(
    value: Level<S::Leaf, S::Items, S::Object>,
    later: S::Members,
    left: usize,
    first_limit: usize,
) -> usize
    requires takes { (s : Shape) × (LevelIs S.Leaf.code S.meaning value s
        × TakesLeft S.meaning.members later s left) }
    requires limit { 0 < first_limit }
    ensures { (s : Shape) → LevelIs S.Leaf.code S.meaning value s → result ≡ length (payload s) }
{
    if left > SHORT_IN_TOTAL && S::members_left(&later) <= FEW_SIBLINGS {
        if let Some(size) = measure_members::<S>(S::fork(&later), 0, SHORT_SIBLINGS) {
            return left - size;
        }
    }
    let mut limit = first_limit;
    while limit < left / 16 {
        if let Some(size) = measure_child::<S>(value, 0, limit) {
            return size;
        }
        if let Some(size) = measure_members::<S>(S::fork(&later), 0, limit) {
            return left - size;
        }
        limit *= 8;
    }
    child_size::<S>(value)
}

// The payload length of a child, measured completely.
#[inline(always)]
fn child_size<S: Source>(child: Level<S::Leaf, S::Items, S::Object>) -> usize
    requires { (s : Shape) × (LevelIs S.Leaf.code S.meaning child s × FitsEntry s) }
    ensures { (s : Shape) → LevelIs S.Leaf.code S.meaning child s → result ≡ length (payload s) }
{
    let Some(size) = measure_child::<S>(child, 0, NO_LIMIT) else {
        unreachable!();
    };
    size
}

// The total length of items, measured completely.
#[inline(always)]
#[tactic(auto, using(crate::proofs::Shapes::children_short))]
fn items_size<S: Source>(items: S::Items) -> usize
    requires { (ss : Shapes) × (S.meaning.items items ss × AreFew ss) }
    ensures { (ss : Shapes) → S.meaning.items items ss → result ≡ body ss }
{
    let Some(size) = measure_items::<S>(items, 0, NO_LIMIT) else {
        unreachable!();
    };
    size
}

// The total length of values and their keys, measured completely.
#[inline(always)]
#[tactic(auto, using(crate::proofs::Shapes::children_short))]
fn members_size<S: Source>(members: S::Members) -> usize
    requires { (ss : Shapes) × (S.meaning.members members ss × AreFew ss) }
    ensures { (ss : Shapes) → S.meaning.members members ss → result ≡ body ss }
{
    let Some(size) = measure_members::<S>(members, 0, NO_LIMIT) else {
        unreachable!();
    };
    size
}
