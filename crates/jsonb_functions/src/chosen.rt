//! Writing an array of listed values, or an object with some of its members.

ghost use Rattle.std.specs.Prelude.{◌≡◌, ◌≤◌, ◌<◌, ◌+◌, length, IfSome, MatchOption};
ghost use Rattle.jsonb_functions.specs.ChosenSource.{chosen_laws, chosen_meaning};
ghost use Rattle.jsonb_functions.specs.Words.{AreMembers, FirstKept, Pairs, items_size};
ghost use Rattle.jsonb_functions.specs.Words.{keys_size, kept_pairs, no_pairs, pair_count};

use crate::choice::{Choice, is_kept};
use crate::overlay::{Laid, LaidLevel, LaidMember, Meant, Overlay, kept_level};
use jsonb::layer::parts::{Children, Member, Members, Part};

/// A value below the whole. Nothing makes one, since what is chosen is kept; it is written as it is
/// stored.
#[derive(Clone, Copy)]
pub struct Chosen<'a> {
    pub part: Part<'a>,
}

/// Members that are left, and which of them are kept.
#[derive(Clone, Copy)]
pub struct ChosenMembers<'a> {
    pub members: Members<'a>,
    pub choice: Choice<'a>,
}

/// One level of what is written.
pub type ChosenLevel<'a> = LaidLevel<'a, &'a [Part<'a>], ChosenMembers<'a>>;

/// How many members are kept.
pub fn count_kept(members: Members<'_>, choice: Choice<'_>) -> usize
    ensures { (ps : Pairs) → AreMembers ps members.entry
        → result ≡ pair_count (kept_pairs choice.entry ps) }
{
    let mut left = members;
    let mut count = 0;
    while let Some(first) = next_kept(left, choice) {
        count += 1;
        left = first.later;
    }
    count
}

// The next member that is kept, and the members after it.
#[inline(always)]
fn next_kept<'a>(members: Members<'a>, choice: Choice<'_>) -> Option<Member<'a>>
    ensures first { (ps : Pairs) → AreMembers ps members.entry
        → MatchOption result (kept_pairs choice.entry ps ≡ no_pairs)
        (λ m. FirstKept (kept_pairs choice.entry ps) choice.entry m) }
    ensures size { IfSome result (λ m. length m.value.payload.now + items_size m.later.values
        < items_size members.entry.values) }
    ensures keys { IfSome result (λ m. 1 + keys_size m.later ≤ keys_size members.entry) }
{
    let mut left = members;
    while let Some(first) = left.split_first() {
        if is_kept(choice, first.key) {
            return Some(first);
        }
        left = first.later;
    }
    None
}

impl<'a> Meant<'a> for Chosen<'a> {
    type Items = &'a [Part<'a>];

    type Members = ChosenMembers<'a>;

    ghost meaning = { chosen_meaning };

    ghost laws = { chosen_laws };
}

impl<'a> Overlay<'a> for Chosen<'a> {
    #[inline(always)]
    fn level(self) -> ChosenLevel<'a> {
        kept_level::<Chosen<'a>>(self.part)
    }

    #[inline(always)]
    fn items_count(items: &'a [Part<'a>]) -> usize {
        items.len()
    }

    #[inline(always)]
    fn next_item(
        items: &'a [Part<'a>],
    ) -> Option<
        (
            Laid<Part<'a>, Chosen<'a>>,
            Laid<Children<'a>, &'a [Part<'a>]>,
        ),
    > {
        let (part, later) = items.split_first()?;
        Some((Laid::Kept(*part), Laid::Changed(later)))
    }

    #[inline(always)]
    fn next_member(
        members: ChosenMembers<'a>,
    ) -> Option<LaidMember<'a, Chosen<'a>, ChosenMembers<'a>>> {
        let Member { key, value, later } = next_kept(members.members, members.choice)?;
        Some(LaidMember {
            key,
            value: Laid::Kept(value),
            later: Laid::Changed(ChosenMembers {
                members: later,
                choice: members.choice,
            }),
        })
    }

    #[inline(always)]
    fn stored_len(self) -> usize {
        self.part.payload.len()
    }

    // The length of a list is not known without a walk.
    #[inline(always)]
    fn items_stored_len(_: &'a [Part<'a>]) -> Option<usize> {
        None
    }

    #[inline(always)]
    fn members_stored_len(members: ChosenMembers<'a>) -> usize {
        members.members.values.stored_len()
    }
}
