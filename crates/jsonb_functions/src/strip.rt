//! Copies of documents without the members that are null, written in one pass in canonical form.

ghost use Rattle.std.specs.Prelude.{◌≡◌, ◌≤◌, ◌<◌, ◌+◌, length, IfOk, IfSome, MatchOption};
ghost use Rattle.jsonb_functions.specs.Overlay.{written};
ghost use Rattle.jsonb_functions.specs.StripSource.{strip_laws, strip_meaning};
ghost use Rattle.jsonb_functions.specs.Words.{AreMembers, FirstStripped, Fits, LevelIs, MadeIfFit};
ghost use Rattle.jsonb_functions.specs.Words.{PartMeans, Pairs, Tree, canon, code_of};
ghost use Rattle.jsonb_functions.specs.Words.{document_tree, items_size, level_size};
ghost use Rattle.jsonb_functions.specs.Words.{members_stripped, no_pairs, owned_bytes, pair_count};
ghost use Rattle.jsonb_functions.specs.Words.{shape_of, stripped};

use crate::overlay::{
    Counted, Laid, LaidLevel, LaidMember, Meant, Overlay, item_count, kept_level,
};
use jsonb::constants::{CONTAINER_TAG, NULL_TAG};
use jsonb::layer::parts::{Child, Children, Contents, Member, Members, Part};
use jsonb::layer::writer::{Level, append_document};
use jsonb::{Document, Error, OwnedJsonb};
use std::alloc::Global;

/// A part that is written without the members that are null.
#[derive(Clone, Copy)]
pub struct Stripped<'a> {
    pub part: Part<'a>,
}

type StrippedLevel<'a> = LaidLevel<'a, Children<'a>, Members<'a>>;

/// The canonical document of the document's value without the members that are null, in each object
/// in it. Items of arrays that are null stay. `InvalidJsonb`, before any allocation, if it does not
/// fit the format; `OutOfMemory` if an allocation fails.
pub fn strip_nulls(alloc: Global, document: Document<'_>) -> Result<OwnedJsonb, Error>
    ensures ok { IfOk result (λ owned. owned_bytes owned
        ≡ canon (stripped (document_tree document.entry))) }
    ensures limits { MadeIfFit (Fits (stripped (document_tree document.entry))) result }
{
    let mut bytes = Vec::new(alloc);
    append_document::<Laid<Part, Stripped>>(&mut bytes, stripped_level(document.part()))?;
    Ok(OwnedJsonb::new(bytes))
}

// The level of a part without the members that are null.
#[inline(always)]
fn stripped_level<'a>(part: Part<'a>) -> StrippedLevel<'a>
    ensures is { (t : Tree) → PartMeans part.entry t
        → LevelIs code_of (written strip_meaning) result (shape_of (stripped t)) }
    ensures size { level_size (written strip_meaning) result ≤ length part.entry.payload.now }
{
    if part.type_code != CONTAINER_TAG {
        return kept_level::<Stripped>(part);
    }
    match part.contents() {
        Contents::Array(items) => Level::Array(Laid::Changed(items)),
        Contents::Object(object) => {
            let members = object.members();
            Level::Object(Laid::Changed(Counted {
                members,
                count: count_kept(members),
            }))
        }
    }
}

// The first member that is not null, and the members after it.
#[inline(always)]
fn next_kept<'a>(members: Members<'a>) -> Option<Member<'a>>
    ensures first { (ps : Pairs) → AreMembers ps members.entry
        → MatchOption result (members_stripped ps ≡ no_pairs)
        (λ m. FirstStripped (members_stripped ps) m) }
    ensures size { IfSome result (λ m. length m.value.payload.now + items_size m.later.values
        < items_size members.entry.values) }
{
    let mut left = members;
    while let Some(member) = left.split_first() {
        if member.value.type_code != NULL_TAG {
            return Some(member);
        }
        left = member.later;
    }
    None
}

// How many members are not null.
fn count_kept(members: Members<'_>) -> usize
    ensures { (ps : Pairs) → AreMembers ps members.entry
        → result ≡ pair_count (members_stripped ps) }
{
    let mut left = members;
    let mut count = 0;
    while let Some(member) = next_kept(left) {
        count += 1;
        left = member.later;
    }
    count
}

impl<'a> Meant<'a> for Stripped<'a> {
    type Items = Children<'a>;

    type Members = Members<'a>;

    ghost meaning = { strip_meaning };

    ghost laws = { strip_laws };
}

impl<'a> Overlay<'a> for Stripped<'a> {
    #[inline(always)]
    fn level(self) -> StrippedLevel<'a> {
        stripped_level(self.part)
    }

    #[inline(always)]
    fn items_count(items: Children<'a>) -> usize {
        item_count(items)
    }

    #[inline(always)]
    fn next_item(
        items: Children<'a>,
    ) -> Option<
        (
            Laid<Part<'a>, Stripped<'a>>,
            Laid<Children<'a>, Children<'a>>,
        ),
    > {
        let Child { part, later } = items.split_first()?;
        Some((Laid::Changed(Stripped { part }), Laid::Changed(later)))
    }

    #[inline(always)]
    fn next_member(members: Members<'a>) -> Option<LaidMember<'a, Stripped<'a>, Members<'a>>> {
        let Member { key, value, later } = next_kept(members)?;
        Some(LaidMember {
            key,
            value: Laid::Changed(Stripped { part: value }),
            later: Laid::Changed(later),
        })
    }

    #[inline(always)]
    fn stored_len(self) -> usize {
        self.part.payload.len()
    }

    #[inline(always)]
    fn items_stored_len(items: Children<'a>) -> Option<usize> {
        Some(items.stored_len())
    }

    #[inline(always)]
    fn members_stored_len(members: Members<'a>) -> usize {
        members.values.stored_len()
    }
}
