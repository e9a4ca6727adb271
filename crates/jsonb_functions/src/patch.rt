//! Documents patched by others, written in one pass in canonical form.

ghost use Rattle.std.specs.Prelude.{◌≡◌, ◌≤◌, ◌<◌, ◌+◌, length, IfOk, IfSome, MatchOption};
ghost use Rattle.jsonb_functions.specs.Overlay.{laid_size, written};
ghost use Rattle.jsonb_functions.specs.PatchSource.{patch_laws, patch_meaning};
ghost use Rattle.jsonb_functions.specs.Words.{AreBoth, AreChanged, AreMembers, FirstPatched, Fits};
ghost use Rattle.jsonb_functions.specs.Words.{IsFirstOf, IsNextOf, LevelIs, MadeIfFit, MaybeMeans};
ghost use Rattle.jsonb_functions.specs.Words.{MaybeMembers, MaybeObject, PartMeans, Pairs, Tree};
ghost use Rattle.jsonb_functions.specs.Words.{both_keys_size, both_size, canon, code_of, level_size};
ghost use Rattle.jsonb_functions.specs.Words.{document_tree, items_size, keys_size};
ghost use Rattle.jsonb_functions.specs.Words.{maybe_keys_size, maybe_members_size};
ghost use Rattle.jsonb_functions.specs.Words.{maybe_object_size, maybe_size, next_keys_size};
ghost use Rattle.jsonb_functions.specs.Words.{next_size, no_pairs, owned_bytes, pair, pair_count};
ghost use Rattle.jsonb_functions.specs.Words.{pairs_or_none, pairs_patched, patched, shape_of};

use crate::join::{maybe_stored_len, members_of, object_of};
use crate::overlay::{
    Counted, Laid, LaidLevel, LaidMember, Meant, Overlay, item_count, kept_level,
};
use jsonb::constants::NULL_TAG;
use jsonb::layer::parts::{Child, Children, Member, Members, Object, Part};
use jsonb::layer::writer::{Level, append_document};
use jsonb::{Document, Error, OwnedJsonb};
use std::alloc::Global;
use std::cmp::Ordering;

/// A target, if there is one, that a part patches.
#[derive(Clone, Copy)]
pub struct Patched<'a> {
    pub target: Option<Part<'a>>,
    pub patch: Part<'a>,
}

/// The members that are left of both.
#[derive(Clone, Copy)]
pub struct BothMembers<'a> {
    pub target: Option<Members<'a>>,
    pub patch: Option<Members<'a>>,
}

/// A member of the result, and what is left of both after it.
#[derive(Clone, Copy)]
pub struct NextPatched<'a> {
    pub key: &'a str,
    pub value: Laid<Part<'a>, Patched<'a>>,
    pub later: BothMembers<'a>,
}

/// What comes of the next key: a member, or none, since the patch removes it.
#[derive(Clone, Copy)]
pub enum Next<'a> {
    Member(NextPatched<'a>),
    Removed(BothMembers<'a>),
}

type PatchedLevel<'a> = LaidLevel<'a, Children<'a>, BothMembers<'a>>;

/// The canonical document of the target's value with the patch merged into it, as JSON Merge Patch
/// says: a member of the patch that is null removes the member with its key; any other patches the
/// member's value, or is added; a patch that is not an object takes the target's place.
/// `InvalidJsonb`, before any allocation, if it does not fit the format; `OutOfMemory` if an
/// allocation fails.
pub fn merge_patch(
    alloc: Global,
    target: Document<'_>,
    patch: Document<'_>,
) -> Result<OwnedJsonb, Error>
    ensures ok { IfOk result (λ owned. owned_bytes owned
        ≡ canon (patched (document_tree target.entry) (document_tree patch.entry))) }
    ensures limits { MadeIfFit
        (Fits (patched (document_tree target.entry) (document_tree patch.entry))) result }
{
    let mut bytes = Vec::new(alloc);
    let level = patched_level(Some(target.part()), patch.part());
    append_document::<Laid<Part, Patched>>(&mut bytes, level)?;
    Ok(OwnedJsonb::new(bytes))
}

// The level of a target that a part patches.
fn patched_level<'a>(target: Option<Part<'a>>, patch: Part<'a>) -> PatchedLevel<'a>
    ensures is { (t u : Tree) → MaybeMeans target.entry t → PartMeans patch.entry u
        → LevelIs code_of (written patch_meaning) result (shape_of (patched t u)) }
    ensures size { level_size (written patch_meaning) result
        ≤ maybe_size target.entry + length patch.entry.payload.now }
{
    let Some(changes) = object_of(patch) else {
        return kept_level::<Patched>(patch);
    };
    let members = BothMembers {
        target: members_of(object_of_some(target)),
        patch: Some(changes.members()),
    };
    Level::Object(Laid::Changed(Counted {
        members,
        count: count_patched(members),
    }))
}

// The object that a part is, if there is one.
#[tactic(auto, using(crate::proofs::PatchShapes::maybe_object))]
#[inline(always)]
fn object_of_some<'a>(part: Option<Part<'a>>) -> Option<Object<'a>>
    ensures object { (t : Tree) → MaybeMeans part.entry t → MaybeObject result (pairs_or_none t) }
    ensures size { maybe_object_size result ≤ maybe_size part.entry }
{
    match part {
        Some(part) => object_of(part),
        None => None,
    }
}

// The first member, if there is one.
#[inline(always)]
fn first_of<'a>(members: Option<Members<'a>>) -> Option<Member<'a>>
    ensures first { (ps : Pairs) → MaybeMembers members.entry ps
        → MatchOption result (ps ≡ no_pairs) (λ m. IsFirstOf ps m) }
    ensures size { IfSome result (λ m. length m.value.payload.now + items_size m.later.values
        < maybe_members_size members.entry) }
    ensures keys { IfSome result (λ m. keys_size m.later < maybe_keys_size members.entry) }
{
    members?.split_first()
}

// What comes of the least key of both; of two with one key the patch's value patches the other.
#[inline(always)]
fn next_key<'a>(members: BothMembers<'a>) -> Option<Next<'a>>
    ensures first { (ps qs : Pairs) → AreBoth members.entry ps qs
        → MatchOption result (pairs_patched ps qs ≡ no_pairs)
        (λ x. IsNextOf (pairs_patched ps qs) x) }
    ensures size { IfSome result (λ x. next_size x < both_size members.entry) }
    ensures keys { IfSome result (λ x. next_keys_size x < both_keys_size members.entry) }
{
    let BothMembers { target, patch } = members;
    let Some(change) = first_of(patch) else {
        let first = first_of(target)?;
        return Some(kept(first, patch));
    };
    let Some(first) = first_of(target) else {
        return Some(changed(change, None, target));
    };
    match first.key.cmp(change.key) {
        Ordering::Less => Some(kept(first, patch)),
        Ordering::Equal => Some(changed(change, Some(first.value), Some(first.later))),
        Ordering::Greater => Some(changed(change, None, target)),
    }
}

// A member of the target that the patch does not have.
#[inline(always)]
fn kept<'a>(member: Member<'a>, patch: Option<Members<'a>>) -> Next<'a>
    ensures next { (rs ps qs : Pairs) (t : Tree) → PartMeans member.entry.value t
        → AreMembers ps member.entry.later → MaybeMembers patch.entry qs
        → rs ≡ pair member.entry.key.now t (pairs_patched ps qs) → IsNextOf rs result }
    ensures size { next_size result ≡ length member.entry.value.payload.now
        + (items_size member.entry.later.values + maybe_members_size patch.entry) }
    ensures keys { next_keys_size result
        ≡ keys_size member.entry.later + maybe_keys_size patch.entry }
{
    Next::Member(NextPatched {
        key: member.key,
        value: Laid::Kept(member.value),
        later: BothMembers {
            target: Some(member.later),
            patch,
        },
    })
}

// What comes of a member of the patch, where the target has this value of its key, if any: null
// removes it, and any other value patches it.
#[tactic(auto, using(crate::proofs::StripLaws::null_by_type))]
#[inline(always)]
fn changed<'a>(change: Member<'a>, value: Option<Part<'a>>, target: Option<Members<'a>>) -> Next<'a>
    ensures next { (rs ps qs : Pairs) (t u : Tree) → MaybeMeans value.entry t
        → PartMeans change.entry.value u → MaybeMembers target.entry ps
        → AreMembers qs change.entry.later → AreChanged rs change.entry.key.now t u ps qs
        → IsNextOf rs result }
    ensures size { next_size result
        ≤ (maybe_size value.entry + length change.entry.value.payload.now)
        + (maybe_members_size target.entry + items_size change.entry.later.values) }
    ensures keys { next_keys_size result
        ≡ maybe_keys_size target.entry + keys_size change.entry.later }
{
    let later = BothMembers {
        target,
        patch: Some(change.later),
    };
    if change.value.type_code == NULL_TAG {
        return Next::Removed(later);
    }
    Next::Member(NextPatched {
        key: change.key,
        value: Laid::Changed(Patched {
            target: value,
            patch: change.value,
        }),
        later,
    })
}

// The first member of the result, and what is left of both after it.
#[inline(always)]
fn next_member<'a>(members: BothMembers<'a>) -> Option<NextPatched<'a>>
    ensures first { (ps qs : Pairs) → AreBoth members.entry ps qs
        → MatchOption result (pairs_patched ps qs ≡ no_pairs)
        (λ m. FirstPatched (pairs_patched ps qs) m) }
    ensures size { IfSome result (λ m. laid_size patch_meaning m.value + both_size m.later
        < both_size members.entry) }
    ensures keys { IfSome result (λ m. both_keys_size m.later < both_keys_size members.entry) }
{
    let mut left = members;
    while let Some(next) = next_key(left) {
        match next {
            Next::Member(member) => return Some(member),
            Next::Removed(later) => left = later,
        }
    }
    None
}

// How many members both make.
fn count_patched(members: BothMembers<'_>) -> usize
    ensures { (ps qs : Pairs) → AreBoth members.entry ps qs
        → result ≡ pair_count (pairs_patched ps qs) }
{
    let mut left = members;
    let mut count = 0;
    while let Some(next) = next_member(left) {
        count += 1;
        left = next.later;
    }
    count
}

impl<'a> Meant<'a> for Patched<'a> {
    type Items = Children<'a>;

    type Members = BothMembers<'a>;

    ghost meaning = { patch_meaning };

    ghost laws = { patch_laws };
}

impl<'a> Overlay<'a> for Patched<'a> {
    #[inline(always)]
    fn level(self) -> PatchedLevel<'a> {
        patched_level(self.target, self.patch)
    }

    #[inline(always)]
    fn items_count(items: Children<'a>) -> usize {
        item_count(items)
    }

    #[inline(always)]
    fn next_item(
        items: Children<'a>,
    ) -> Option<
        (
            Laid<Part<'a>, Patched<'a>>,
            Laid<Children<'a>, Children<'a>>,
        ),
    > {
        let Child { part, later } = items.split_first()?;
        Some((Laid::Kept(part), Laid::Kept(later)))
    }

    #[inline(always)]
    fn next_member(
        members: BothMembers<'a>,
    ) -> Option<LaidMember<'a, Patched<'a>, BothMembers<'a>>> {
        let NextPatched { key, value, later } = next_member(members)?;
        Some(LaidMember {
            key,
            value,
            later: Laid::Changed(later),
        })
    }

    #[inline(always)]
    fn stored_len(self) -> usize {
        match self.target {
            Some(target) => target
                .payload
                .len()
                .saturating_add(self.patch.payload.len()),
            None => self.patch.payload.len(),
        }
    }

    #[inline(always)]
    fn items_stored_len(items: Children<'a>) -> Option<usize> {
        Some(items.stored_len())
    }

    #[inline(always)]
    fn members_stored_len(members: BothMembers<'a>) -> usize {
        let target = maybe_stored_len(members.target);
        target.saturating_add(maybe_stored_len(members.patch))
    }
}
