//! Two documents put together, written in one pass in canonical form.

ghost use Rattle.std.specs.Prelude.{◌≡◌, ◌≤◌, ◌<◌, ◌+◌, ◌^◌, length, IfOk, IfSome, MatchOption};
ghost use Rattle.jsonb_functions.specs.JoinSource.{join_laws, join_meaning};
ghost use Rattle.jsonb_functions.specs.Overlay.{written};
ghost use Rattle.jsonb_functions.specs.Words.{AreMembers, FirstMerged, FirstOfRun, Fits};
ghost use Rattle.jsonb_functions.specs.Words.{IsNoObject, IsObject, LevelIs, MadeIfFit};
ghost use Rattle.jsonb_functions.specs.Words.{MaybeMembers, MaybeObject, PartMeans, Pairs, RunIs};
ghost use Rattle.jsonb_functions.specs.Words.{Tree, Trees, canon, code_of, count};
ghost use Rattle.jsonb_functions.specs.Words.{document_tree, items_or_one, items_size, joined};
ghost use Rattle.jsonb_functions.specs.Words.{keys_size, maybe_keys_size};
ghost use Rattle.jsonb_functions.specs.Words.{maybe_members_size, maybe_object_size, merged};
ghost use Rattle.jsonb_functions.specs.Words.{no_pairs, no_trees, object, owned_bytes, pair_count};
ghost use Rattle.jsonb_functions.specs.Words.{run_size, shape_of};

use crate::overlay::{
    Counted, Laid, LaidLevel, LaidMember, Meant, Overlay, item_count, kept_level,
};
use jsonb::constants::CONTAINER_TAG;
use jsonb::layer::parts::{Child, Children, Contents, Member, Members, Object, Part};
use jsonb::layer::writer::{Level, append_document};
use jsonb::{Document, Error, OwnedJsonb};
use std::alloc::Global;
use std::cmp::Ordering;

/// A value below the whole ones. Nothing makes one, since none is joined; it is written as it is
/// stored.
#[derive(Clone, Copy)]
pub struct Joined<'a> {
    pub part: Part<'a>,
}

/// No item, one value, or the items of an array.
#[derive(Clone, Copy)]
pub enum Run<'a> {
    Nothing,
    One(Part<'a>),
    Many(Children<'a>),
}

/// The items of one run and then of another.
#[derive(Clone, Copy)]
pub struct JoinedItems<'a> {
    pub first: Run<'a>,
    pub second: Run<'a>,
}

/// The members that are left of an object, and of one whose members are put into it.
#[derive(Clone, Copy)]
pub struct JoinedMembers<'a> {
    pub left: Members<'a>,
    pub right: Option<Members<'a>>,
}

/// The next member of two objects, and what is left of both.
#[derive(Clone, Copy)]
pub struct NextMember<'a> {
    pub key: &'a str,
    pub value: Part<'a>,
    pub left: Members<'a>,
    pub right: Option<Members<'a>>,
}

// The first value of a run, and the rest.
#[inline(always)]
fn split_run<'a>(run: Run<'a>) -> Option<(Part<'a>, Run<'a>)>
    ensures first { (ts : Trees) → RunIs run.entry ts → MatchOption result (ts ≡ no_trees)
        (λ x. FirstOfRun ts x.0 x.1) }
    ensures size { IfSome result (λ x. length x.0.payload.now + run_size x.1
        < run_size run.entry) }
{
    match run {
        Run::Nothing => None,
        Run::One(part) => Some((part, Run::Nothing)),
        Run::Many(items) => {
            let Child { part, later } = items.split_first()?;
            Some((part, Run::Many(later)))
        }
    }
}

// How many values a run has.
#[inline(always)]
fn run_len(run: Run<'_>) -> usize
    ensures len { (ts : Trees) → RunIs run.entry ts → result ≡ count ts }
    ensures few { result < 2 ^ 62 }
{
    match run {
        Run::Nothing => 0,
        Run::One(_) => 1,
        Run::Many(items) => item_count(items),
    }
}

// How many bytes of a run are stored.
#[inline(always)]
fn run_stored_len(run: Run<'_>) -> usize {
    match run {
        Run::Nothing => 0,
        Run::One(part) => part.payload.len(),
        Run::Many(items) => items.stored_len(),
    }
}

// The next member of two objects in the order of their keys; of two with one key the right one.
#[inline(always)]
fn next_merged<'a>(left: Members<'a>, right: Option<Members<'a>>) -> Option<NextMember<'a>>
    ensures first { (ps qs : Pairs) → AreMembers ps left.entry → MaybeMembers right.entry qs
        → MatchOption result (merged ps qs ≡ no_pairs) (λ m. FirstMerged (merged ps qs) m) }
    ensures size { IfSome result (λ m. length m.value.payload.now
        + (items_size m.left.values + maybe_members_size m.right)
        < items_size left.entry.values + maybe_members_size right.entry) }
    ensures keys { IfSome result (λ m. 1 + (keys_size m.left + maybe_keys_size m.right)
        ≤ keys_size left.entry + maybe_keys_size right.entry) }
{
    let Some(members) = right else {
        return left_member(left);
    };
    let Some(second) = members.split_first() else {
        return left_member(left);
    };
    let of_second = NextMember {
        key: second.key,
        value: second.value,
        left,
        right: Some(second.later),
    };
    let Some(first) = left.split_first() else {
        return Some(of_second);
    };
    match first.key.cmp(second.key) {
        Ordering::Less => Some(NextMember {
            key: first.key,
            value: first.value,
            left: first.later,
            right,
        }),
        Ordering::Equal => Some(NextMember {
            left: first.later,
            ..of_second
        }),
        Ordering::Greater => Some(of_second),
    }
}

// The first member of the left object, where the right one has no more.
#[inline(always)]
fn left_member<'a>(left: Members<'a>) -> Option<NextMember<'a>>
    ensures first { (ps : Pairs) → AreMembers ps left.entry
        → MatchOption result (ps ≡ no_pairs) (λ m. FirstMerged ps m) }
    ensures size { IfSome result (λ m. length m.value.payload.now
        + (items_size m.left.values + maybe_members_size m.right)
        < items_size left.entry.values) }
    ensures keys { IfSome result (λ m. 1 + (keys_size m.left + maybe_keys_size m.right)
        ≤ keys_size left.entry) }
{
    let Member { key, value, later } = left.split_first()?;
    Some(NextMember {
        key,
        value,
        left: later,
        right: None,
    })
}

// How many members two objects make.
fn count_merged(first: Members<'_>, second: Members<'_>) -> usize
    ensures { (ps qs : Pairs) → AreMembers ps first.entry → AreMembers qs second.entry
        → result ≡ pair_count (merged ps qs) }
{
    let mut left = first;
    let mut right = Some(second);
    let mut count = 0;
    while let Some(next) = next_merged(left, right) {
        count += 1;
        left = next.left;
        right = next.right;
    }
    count
}

// The values of an array, or the one value that is not an array.
fn run_of<'a>(part: Part<'a>) -> Run<'a>
    ensures { (t : Tree) → PartMeans part.entry t → RunIs result (items_or_one t) }
{
    if part.type_code != CONTAINER_TAG {
        return Run::One(part);
    }
    match part.contents() {
        Contents::Array(items) => Run::Many(items),
        Contents::Object(_) => Run::One(part),
    }
}

/// The object that a part is.
pub fn object_of<'a>(part: Part<'a>) -> Option<Object<'a>>
    ensures object { (t : Tree) → PartMeans part.entry t → MatchOption result (IsNoObject t)
        (λ o. (ps : Pairs) × ((t ≡ object ps) × IsObject o.count o.body.now ps)) }
    ensures size { IfSome result (λ o. length o.body.now < length part.entry.payload.now) }
{
    if part.type_code != CONTAINER_TAG {
        return None;
    }
    match part.contents() {
        Contents::Array(_) => None,
        Contents::Object(object) => Some(object),
    }
}

type JoinedLevel<'a> = LaidLevel<'a, JoinedItems<'a>, JoinedMembers<'a>>;

// The level of two values that are put together.
fn joined_level<'a>(left: Part<'a>, right: Part<'a>) -> JoinedLevel<'a>
    ensures { (t u : Tree) → PartMeans left.entry t → PartMeans right.entry u
        → LevelIs code_of (written join_meaning) result (shape_of (joined t u)) }
{
    let Some(first) = object_of(left) else {
        return Level::Array(Laid::Changed(both_runs(left, right)));
    };
    let Some(second) = object_of(right) else {
        return Level::Array(Laid::Changed(both_runs(left, right)));
    };
    let left = first.members();
    let right = second.members();
    Level::Object(Laid::Changed(Counted {
        members: JoinedMembers {
            left,
            right: Some(right),
        },
        count: count_merged(left, right),
    }))
}

// The items of two values.
#[inline(always)]
fn both_runs<'a>(left: Part<'a>, right: Part<'a>) -> JoinedItems<'a>
    ensures first { (t : Tree) → PartMeans left.entry t → RunIs result.first (items_or_one t) }
    ensures second { (t : Tree) → PartMeans right.entry t → RunIs result.second (items_or_one t) }
{
    JoinedItems {
        first: run_of(left),
        second: run_of(right),
    }
}

/// The canonical document of two documents' values put together: two objects become one, in which
/// the second's values stay; everything else becomes an array of both sides' items, where a value
/// that is not an array is one item. `InvalidJsonb`, before any allocation, if the joined value
/// does not fit the format; `OutOfMemory` if an allocation fails.
pub fn concat(alloc: Global, left: Document<'_>, right: Document<'_>) -> Result<OwnedJsonb, Error>
    ensures ok { IfOk result (λ owned. owned_bytes owned
        ≡ canon (joined (document_tree left.entry) (document_tree right.entry))) }
    ensures limits { MadeIfFit
        (Fits (joined (document_tree left.entry) (document_tree right.entry))) result }
{
    let mut bytes = Vec::new(alloc);
    append_document::<Laid<Part, Joined>>(&mut bytes, joined_level(left.part(), right.part()))?;
    Ok(OwnedJsonb::new(bytes))
}

impl<'a> Meant<'a> for Joined<'a> {
    type Items = JoinedItems<'a>;

    type Members = JoinedMembers<'a>;

    ghost meaning = { join_meaning };

    ghost laws = { join_laws };
}

impl<'a> Overlay<'a> for Joined<'a> {
    #[inline(always)]
    fn level(self) -> JoinedLevel<'a> {
        kept_level::<Joined<'a>>(self.part)
    }

    #[inline(always)]
    fn items_count(items: JoinedItems<'a>) -> usize {
        run_len(items.first) + run_len(items.second)
    }

    #[inline(always)]
    fn next_item(
        items: JoinedItems<'a>,
    ) -> Option<
        (
            Laid<Part<'a>, Joined<'a>>,
            Laid<Children<'a>, JoinedItems<'a>>,
        ),
    > {
        let JoinedItems { first, second } = items;
        if let Some((part, rest)) = split_run(first) {
            let later = JoinedItems {
                first: rest,
                second,
            };
            return Some((Laid::Kept(part), Laid::Changed(later)));
        }
        let (part, rest) = split_run(second)?;
        let later = JoinedItems {
            first: Run::Nothing,
            second: rest,
        };
        Some((Laid::Kept(part), Laid::Changed(later)))
    }

    #[inline(always)]
    fn next_member(
        members: JoinedMembers<'a>,
    ) -> Option<LaidMember<'a, Joined<'a>, JoinedMembers<'a>>> {
        let next = next_merged(members.left, members.right)?;
        Some(LaidMember {
            key: next.key,
            value: Laid::Kept(next.value),
            later: Laid::Changed(JoinedMembers {
                left: next.left,
                right: next.right,
            }),
        })
    }

    #[inline(always)]
    fn stored_len(self) -> usize {
        self.part.payload.len()
    }

    #[inline(always)]
    fn items_stored_len(items: JoinedItems<'a>) -> Option<usize> {
        Some(run_stored_len(items.first).saturating_add(run_stored_len(items.second)))
    }

    #[inline(always)]
    fn members_stored_len(members: JoinedMembers<'a>) -> usize {
        members
            .left
            .values
            .stored_len()
            .saturating_add(maybe_stored_len(members.right))
    }
}

/// The members of an object, if there is one.
#[inline(always)]
pub fn members_of<'a>(object: Option<Object<'a>>) -> Option<Members<'a>>
    ensures members { (ps : Pairs) → MaybeObject object.entry ps → MaybeMembers result ps }
    ensures size { maybe_members_size result ≤ maybe_object_size object.entry }
{
    match object {
        Some(object) => Some(object.members()),
        None => None,
    }
}

/// How many bytes of members and their entry words are stored, if there are any.
#[inline(always)]
pub fn maybe_stored_len(members: Option<Members<'_>>) -> usize {
    match members {
        Some(members) => members.values.stored_len(),
        None => 0,
    }
}
