//! Documents laid over stored ones. What a rule keeps is written as it is stored, and the rule says
//! what comes next of all else.

ghost use Rattle.std.specs.Prelude.{◌≡◌, ◌≤◌, ◌<◌, ◌+◌, ◌^◌, length, suc, IfSome};
ghost use Rattle.std.specs.Prelude.{MatchOption};
ghost use Rattle.jsonb_functions.specs.Overlay.{LaterMean, MembersMean, NextItemIs, NextMemberIs};
ghost use Rattle.jsonb_functions.specs.Overlay.{OverlayLaws, OverlayMeaning, laid_items_size};
ghost use Rattle.jsonb_functions.specs.Overlay.{laid_members_size, laid_size, later_size, written};
ghost use Rattle.jsonb_functions.specs.Overlay.{written_laws};
ghost use Rattle.jsonb_functions.specs.Words.{AreChildren, AreMembers, LevelIs, PartMeans, Pairs};
ghost use Rattle.jsonb_functions.specs.Words.{Tree, Trees, code_of, count, level_size, no_pairs};
ghost use Rattle.jsonb_functions.specs.Words.{no_trees, pair_count, shape_of};

use jsonb::layer::parts::{Child, Children, Member, Members, Object, Part};
use jsonb::layer::writer::{Level, Side, Source, StoredEntry};

/// What is kept as it is stored, or what a rule makes of it.
#[derive(Clone, Copy)]
pub enum Laid<K, C> {
    Kept(K),
    Changed(C),
}

/// What a rule makes of members, and how many members that are.
#[derive(Clone, Copy)]
pub struct Counted<M> {
    pub members: M,
    pub count: usize,
}

/// The next member, and the members after it.
#[derive(Clone, Copy)]
pub struct LaidMember<'a, V, M> {
    pub key: &'a str,
    pub value: Laid<Part<'a>, V>,
    pub later: Laid<Members<'a>, M>,
}

/// One level of a document that is laid over stored ones.
pub type LaidLevel<'a, I, M> = Level<
    StoredEntry<'a>,
    Laid<Children<'a>, I>,
    Laid<Object<'a>, Counted<M>>,
>;

/// Values that are changed, and the items and members that come of them. It has no function, so that
/// `kept_level`, which the rules call, can call none of theirs.
pub trait Meant<'a>: Copy {
    type Items: Copy;

    type Members: Copy;

    ghost meaning: { OverlayMeaning Self Self.Items Self.Members };

    ghost laws: { OverlayLaws meaning };
}

/// A rule for what is written of values that are changed, one level at a time.
pub trait Overlay<'a>: Meant<'a> {
    /// The level of a value that is changed.
    fn level(self) -> LaidLevel<'a, Self::Items, Self::Members>
        ensures is { (t : Tree) → Self.meaning.value self t
            → LevelIs code_of (written Self.meaning) result (shape_of t) }
        ensures size { level_size (written Self.meaning) result ≤ Self.meaning.value_size self };

    /// The number of items.
    fn items_count(items: Self::Items) -> usize
        ensures { (ts : Trees) → Self.meaning.items items ts → result ≡ count ts };

    /// The next item, and the items after it. `None` if there is none.
    fn next_item(
        items: Self::Items,
    ) -> Option<(Laid<Part<'a>, Self>, Laid<Children<'a>, Self::Items>)>
        ensures first { (ts : Trees) → Self.meaning.items items ts → MatchOption result
            (ts ≡ no_trees) (λ x. NextItemIs Self.meaning ts x) }
        ensures size { IfSome result (λ x. laid_size Self.meaning x.0
            + laid_items_size Self.meaning x.1 < Self.meaning.items_size items) };

    /// The next member, and the members after it. `None` if there is none.
    fn next_member(members: Self::Members) -> Option<LaidMember<'a, Self, Self::Members>>
        ensures first { (ps : Pairs) → Self.meaning.members members ps → MatchOption result
            (ps ≡ no_pairs) (λ x. NextMemberIs Self.meaning ps x) }
        ensures size { IfSome result (λ x. laid_size Self.meaning x.value
            + later_size Self.meaning x.later < Self.meaning.members_size members) };

    /// How many bytes are read to write the value. Only a hint, like that of a source's sides.
    fn stored_len(self) -> usize;

    /// How many bytes are read to write the items, if that is known.
    fn items_stored_len(items: Self::Items) -> Option<usize>;

    /// How many bytes are read to write the members.
    fn members_stored_len(members: Self::Members) -> usize;
}

/// The level of a part that is kept.
#[inline(always)]
pub fn kept_level<'a, V: Meant<'a>>(part: Part<'a>) -> LaidLevel<'a, V::Items, V::Members>
    ensures is { (t : Tree) → PartMeans part.entry t
        → LevelIs code_of (written V.meaning) result (shape_of t) }
    ensures size { level_size (written V.meaning) result ≤ length part.entry.payload.now }
{
    match Part::level(part) {
        Level::Leaf(leaf) => Level::Leaf(leaf),
        Level::Array(items) => Level::Array(Laid::Kept(items)),
        Level::Object(object) => Level::Object(Laid::Kept(object)),
    }
}

/// How many items there are.
#[tactic(auto, using(crate::proofs::OverlayLaws::item_count))]
#[inline(always)]
pub fn item_count(items: Children<'_>) -> usize
    ensures count { (ts : Trees) → AreChildren ts items.entry → result ≡ count ts }
    ensures few { result < 2 ^ 62 }
{
    items.len()
}

// How many members there are.
#[tactic(auto, using(crate::proofs::OverlayLaws::member_count))]
#[inline(always)]
fn member_count(members: Members<'_>) -> usize
    ensures count { (ps : Pairs) → AreMembers ps members.entry → result ≡ pair_count ps }
{
    members.values.len()
}

// The members after the first of so many.
#[inline(always)]
fn fewer<'a, V: Meant<'a>>(
    later: Laid<Members<'a>, V::Members>,
    count: usize,
) -> Laid<Members<'a>, Counted<V::Members>>
    ensures are { (ps : Pairs) → LaterMean V.meaning later.entry ps → count ≡ suc (pair_count ps)
        → MembersMean V.meaning result ps }
    ensures size { laid_members_size V.meaning result ≡ later_size V.meaning later.entry }
{
    match later {
        Laid::Kept(members) => Laid::Kept(members),
        Laid::Changed(members) => Laid::Changed(Counted {
            members,
            count: count.saturating_sub(1),
        }),
    }
}

impl<'a, V: Overlay<'a>> Source for Laid<Part<'a>, V> {
    type Leaf = StoredEntry<'a>;

    type Child = Laid<Part<'a>, V>;

    type Items = Laid<Children<'a>, V::Items>;

    type Object = Laid<Object<'a>, Counted<V::Members>>;

    type Members = Laid<Members<'a>, Counted<V::Members>>;

    ghost meaning = { written V.meaning };

    ghost laws = { written_laws V.meaning };

    #[inline(always)]
    fn level(child: Laid<Part<'a>, V>) -> LaidLevel<'a, V::Items, V::Members> {
        match child {
            Laid::Kept(part) => kept_level::<V>(part),
            Laid::Changed(value) => value.level(),
        }
    }

    #[inline(always)]
    fn item_side(item: Laid<Part<'a>, V>, later: Laid<Children<'a>, V::Items>) -> Option<Side> {
        let later = match later {
            Laid::Kept(items) => items.stored_len(),
            Laid::Changed(items) => V::items_stored_len(items)?,
        };
        Some(Side::shorter(child_stored_len(item), later))
    }

    #[inline(always)]
    fn value_side(
        value: Laid<Part<'a>, V>,
        later: &Laid<Members<'a>, Counted<V::Members>>,
    ) -> Option<Side> {
        let later = match *later {
            Laid::Kept(members) => members.values.stored_len(),
            Laid::Changed(counted) => V::members_stored_len(counted.members),
        };
        Some(Side::shorter(child_stored_len(value), later))
    }

    #[inline(always)]
    fn count(items: Laid<Children<'a>, V::Items>) -> usize {
        match items {
            Laid::Kept(items) => item_count(items),
            Laid::Changed(items) => V::items_count(items),
        }
    }

    #[inline(always)]
    fn split_item(
        items: Laid<Children<'a>, V::Items>,
    ) -> Option<(Laid<Part<'a>, V>, Laid<Children<'a>, V::Items>)> {
        match items {
            Laid::Kept(items) => {
                let Child { part, later } = items.split_first()?;
                Some((Laid::Kept(part), Laid::Kept(later)))
            }
            Laid::Changed(items) => V::next_item(items),
        }
    }

    #[inline(always)]
    fn object_count(object: Laid<Object<'a>, Counted<V::Members>>) -> usize {
        match object {
            Laid::Kept(object) => object.count,
            Laid::Changed(counted) => counted.count,
        }
    }

    #[inline(always)]
    fn members(
        object: Laid<Object<'a>, Counted<V::Members>>,
    ) -> Laid<Members<'a>, Counted<V::Members>> {
        match object {
            Laid::Kept(object) => Laid::Kept(object.members()),
            Laid::Changed(counted) => Laid::Changed(counted),
        }
    }

    #[inline(always)]
    fn members_left(members: &Laid<Members<'a>, Counted<V::Members>>) -> usize {
        match members {
            Laid::Kept(members) => member_count(*members),
            Laid::Changed(counted) => counted.count,
        }
    }

    #[inline(always)]
    fn fork(
        members: &Laid<Members<'a>, Counted<V::Members>>,
    ) -> Laid<Members<'a>, Counted<V::Members>> {
        match members {
            Laid::Kept(members) => Laid::Kept(*members),
            Laid::Changed(counted) => Laid::Changed(Counted {
                members: counted.members,
                count: counted.count,
            }),
        }
    }

    #[inline(always)]
    fn split_member(
        members: Laid<Members<'a>, Counted<V::Members>>,
    ) -> Option<WrittenMember<'a, V, V::Members>> {
        match members {
            Laid::Kept(members) => {
                let Member { key, value, later } = members.split_first()?;
                Some((
                    StoredEntry::of_text(key),
                    (Laid::Kept(value), Laid::Kept(later)),
                ))
            }
            Laid::Changed(counted) => {
                let LaidMember { key, value, later } = V::next_member(counted.members)?;
                Some((
                    StoredEntry::of_text(key),
                    (value, fewer::<V>(later, counted.count)),
                ))
            }
        }
    }
}

type WrittenMember<'a, V, M> = (
    StoredEntry<'a>,
    (Laid<Part<'a>, V>, Laid<Members<'a>, Counted<M>>),
);

// How many bytes are read to write a child.
#[inline(always)]
fn child_stored_len<'a, V: Overlay<'a>>(child: Laid<Part<'a>, V>) -> usize {
    match child {
        Laid::Kept(part) => part.payload.len(),
        Laid::Changed(value) => value.stored_len(),
    }
}
