//! Edited copies of documents, written in one pass in canonical form.

ghost use Rattle.std.specs.Prelude.{◌≡◌, ◌≤◌, ◌<◌, ◌+◌, ◌^◌, length, IfOk, IfSome, MatchOption};
ghost use Rattle.std.specs.Prelude.{true, false, Some, None, if◌then◌else◌};
ghost use Rattle.jsonb_functions.specs.declared.overlay.Laid.TheVariants.{Kept};
ghost use Rattle.jsonb_functions.specs.EditSource.{edit_laws, edit_meaning};
ghost use Rattle.jsonb_functions.specs.Overlay.{ItemsMean, NextItemIs, NextMemberIs, ObjectMeans};
ghost use Rattle.jsonb_functions.specs.Overlay.{laid_items_size, laid_object_size, laid_size};
ghost use Rattle.jsonb_functions.specs.Overlay.{written};
ghost use Rattle.jsonb_functions.specs.Words.{AreChildren, AreMembers, Fits, IsObject, LevelIs};
ghost use Rattle.jsonb_functions.specs.Words.{MadeIfFit, Pairs, PartMeans, Tree, Trees, can_wrap};
ghost use Rattle.jsonb_functions.specs.Words.{canon, code_of, comes, count_done, document_tree};
ghost use Rattle.jsonb_functions.specs.Words.{edit_operation, edited, edited_along, edited_items};
ghost use Rattle.jsonb_functions.specs.Words.{edited_pairs, edited_whole, first_done};
ghost use Rattle.jsonb_functions.specs.Words.{first_pair_done, here_at, here_of, items_size};
ghost use Rattle.jsonb_functions.specs.Words.{keys_before, level_size, made_size, made_tree};
ghost use Rattle.jsonb_functions.specs.Words.{makes_container, new_child, no_pairs, no_trees};
ghost use Rattle.jsonb_functions.specs.Words.{operation_of, owned_bytes, pairs_have_key, part_tree};
ghost use Rattle.jsonb_functions.specs.Words.{plan_size, position_view, shape_of, what_size};
ghost use Rattle.jsonb_functions.specs.Words.{wrapped};

use crate::overlay::{
    Counted, Laid, LaidLevel, LaidMember, Meant, Overlay, item_count, kept_level,
};
use crate::path::{Position, Step, is_next, item_position};
use jsonb::constants::CONTAINER_TAG;
use jsonb::layer::parts::{Child, Children, Contents, Member, Members, Object, Part};
use jsonb::layer::writer::{Level, append_document};
use jsonb::{Document, Error, OwnedJsonb};
use std::alloc::Global;
use std::cmp::Ordering;

/// What is done at the end of a path.
#[derive(Clone, Copy)]
pub enum Edit<'a> {
    /// The value is put there, in place of what is there, if anything.
    Put(Document<'a>),
    /// The value is put there, and the containers that the path lacks are made: an object for a
    /// key, an array for the index 0 or `Step::End`. An item is added right after the last one
    /// only, at the index that is the number of items or at `Step::End`. Nothing is done if a step
    /// leads to another missing item, into a scalar or into a container of the other kind.
    Create(Document<'a>),
    /// The value is inserted before an item, or as a member whose key is not there.
    Insert(Document<'a>),
    /// What is there is removed.
    Remove,
}

/// The same, with the part that the value is.
#[derive(Clone, Copy)]
pub enum Change<'a> {
    Put(Part<'a>),
    Create(Part<'a>),
    Insert(Part<'a>),
    Remove,
}

/// What is still to be done along a path. The change is shared, since each child and each list of
/// children that is left carries a plan.
#[derive(Clone, Copy)]
pub struct Plan<'a> {
    pub path: &'a [Step<'a>],
    pub change: &'a Change<'a>,
}

/// A value in a container for each step of a path.
#[derive(Clone, Copy)]
pub struct Made<'a> {
    pub path: &'a [Step<'a>],
    pub value: &'a Part<'a>,
}

/// What is done at a place among children.
#[derive(Clone, Copy)]
pub enum What<'a> {
    Nothing,
    Put(&'a Part<'a>),
    Insert(Made<'a>),
    Remove,
    Below(Plan<'a>),
}

/// A part that is edited along a path, or a value in containers.
#[derive(Clone, Copy)]
pub enum Edited<'a> {
    Along(Part<'a>, Plan<'a>),
    Made(Made<'a>),
}

/// Items that are left, and what is done after some of them.
#[derive(Clone, Copy)]
pub struct EditedItems<'a> {
    pub items: Children<'a>,
    pub before: usize,
    pub what: What<'a>,
}

/// Members that are left, and what is done after some of them; a new one has the key.
#[derive(Clone, Copy)]
pub struct EditedMembers<'a> {
    pub members: Members<'a>,
    pub before: usize,
    pub key: &'a str,
    pub what: What<'a>,
}

type EditedLevel<'a> = LaidLevel<'a, EditedItems<'a>, EditedMembers<'a>>;

/// The canonical document of the document's value, edited at the end of a path. It is that of the
/// value itself if the path leads nowhere and nothing is created. `InvalidJsonb`, before any
/// allocation, if the edited value does not fit the format; `OutOfMemory` if an allocation fails.
pub fn edit_document(
    alloc: Global,
    document: Document<'_>,
    path: &[Step<'_>],
    edit: Edit<'_>,
) -> Result<OwnedJsonb, Error>
    ensures ok { IfOk result (λ owned. owned_bytes owned ≡ canon
        (edited_whole path.now (edit_operation edit.entry) (document_tree document.entry))) }
    ensures limits { MadeIfFit (Fits
        (edited_whole path.now (edit_operation edit.entry) (document_tree document.entry)))
        result }
{
    let change = change_of(edit);
    let plan = Plan {
        path,
        change: &change,
    };
    let mut bytes = Vec::new(alloc);
    append_document::<Laid<Part, Edited>>(&mut bytes, whole_level(document.part(), plan))?;
    Ok(OwnedJsonb::new(bytes))
}

// The change that an edit makes, with the part that its value is.
#[tactic(auto, using(crate::proofs::EditLaws::part_tree_of))]
#[inline(always)]
fn change_of<'a>(edit: Edit<'a>) -> Change<'a>
    ensures { operation_of result ≡ edit_operation edit.entry }
{
    match edit {
        Edit::Put(value) => Change::Put(value.part()),
        Edit::Create(value) => Change::Create(value.part()),
        Edit::Insert(value) => Change::Insert(value.part()),
        Edit::Remove => Change::Remove,
    }
}

// The level of a whole document that is edited along a path.
#[tactic(auto, using(crate::proofs::EditLaws::whole_edited))]
fn whole_level<'a>(part: Part<'a>, plan: Plan<'a>) -> EditedLevel<'a>
    ensures { (t : Tree) → PartMeans part.entry t → LevelIs code_of (written edit_meaning) result
        (shape_of (edited_whole plan.entry.path.now (operation_of plan.entry.change.now) t)) }
{
    if !plan.path.is_empty() {
        return edited_level(part, plan);
    }
    match plan.change {
        Change::Put(value) => kept_level::<Edited>(*value),
        Change::Create(value) => kept_level::<Edited>(*value),
        Change::Insert(_) => kept_level::<Edited>(part),
        Change::Remove => kept_level::<Edited>(part),
    }
}

// The level of a part that is edited along a path.
fn edited_level<'a>(part: Part<'a>, plan: Plan<'a>) -> EditedLevel<'a>
    ensures is { (t : Tree) → PartMeans part.entry t → LevelIs code_of (written edit_meaning) result
        (shape_of (edited plan.entry.path.now (operation_of plan.entry.change.now) t)) }
    ensures size { level_size (written edit_meaning) result
        ≤ length part.entry.payload.now + (1 + plan_size plan.entry) }
{
    let [step, rest @ ..] = plan.path else {
        return kept_level::<Edited>(part);
    };
    if part.type_code != CONTAINER_TAG {
        return kept_level::<Edited>(part);
    }
    let later = Plan {
        path: rest,
        change: plan.change,
    };
    match part.contents() {
        Contents::Array(items) => Level::Array(edited_items(items, *step, later)),
        Contents::Object(object) => Level::Object(edited_object(object, *step, later)),
    }
}

// The items, edited where a step leads, with a plan for later steps.
fn edited_items<'a>(
    items: Children<'a>,
    step: Step<'a>,
    later: Plan<'a>,
) -> Laid<Children<'a>, EditedItems<'a>>
    ensures are { (ts : Trees) → AreChildren ts items.entry → ItemsMean edit_meaning result
        (edited_items step.entry later.entry.path.now (operation_of later.entry.change.now)
        (λ t. edited_along later.entry t) ts) }
    ensures size { laid_items_size edit_meaning result
        ≤ items_size items.entry + (1 + plan_size later.entry) }
{
    let count = item_count(items);
    let Some(position) = item_position(step, count) else {
        return Laid::Kept(items);
    };
    Laid::Changed(EditedItems {
        items,
        before: position.before,
        what: what_at(true, position.is_there, is_next(step, count), later),
    })
}

// The object, edited where a step leads, with a plan for later steps.
fn edited_object<'a>(
    object: Object<'a>,
    step: Step<'a>,
    later: Plan<'a>,
) -> Laid<Object<'a>, Counted<EditedMembers<'a>>>
    ensures is { (ps : Pairs) → IsObject object.entry.count object.entry.body.now ps
        → ObjectMeans edit_meaning result (edited_pairs step.entry later.entry.path.now
        (operation_of later.entry.change.now) (λ t. edited_along later.entry t) ps) }
    ensures size { laid_object_size edit_meaning result
        ≤ length object.entry.body.now + (1 + plan_size later.entry) }
{
    let Step::Key(key) = step else {
        return Laid::Kept(object);
    };
    let members = object.members();
    let position = position_of_key(members, key);
    let what = what_at(false, position.is_there, true, later);
    Laid::Changed(Counted {
        members: EditedMembers {
            members,
            before: position.before,
            key,
            what,
        },
        count: count_after(object.count, what),
    })
}

// What is done where a step leads, to a child that is there or not, with a plan for later steps.
#[tactic(auto, using(crate::proofs::EditLaws::last_insert))]
fn what_at<'a>(is_item: bool, is_there: bool, is_next: bool, plan: Plan<'a>) -> What<'a>
    ensures what { here_of result ≡ here_at is_item is_there is_next plan.entry.path.now
        (operation_of plan.entry.change.now) (λ t. edited_along plan.entry t) }
    ensures size { what_size result ≤ 1 + plan_size plan.entry }
{
    if !is_there {
        return what_missing(is_next, plan);
    }
    if !plan.path.is_empty() {
        return What::Below(plan);
    }
    match plan.change {
        Change::Put(value) => What::Put(value),
        Change::Create(value) => What::Put(value),
        Change::Insert(value) => insert_if(is_item, plan.path, value),
        Change::Remove => What::Remove,
    }
}

// What is done where no child is, with the steps that are left.
#[tactic(auto, using(crate::proofs::EditLaws::not_put, crate::proofs::EditLaws::not_inserted))]
fn what_missing<'a>(is_next: bool, plan: Plan<'a>) -> What<'a>
    ensures what { here_of result ≡ comes
        (new_child is_next plan.entry.path.now (operation_of plan.entry.change.now)) }
    ensures size { what_size result ≤ 1 + plan_size plan.entry }
{
    let path = plan.path;
    match plan.change {
        Change::Put(value) => insert_if(path.is_empty(), path, value),
        Change::Create(value) => insert_if(is_next && can_wrap(path), path, value),
        Change::Insert(value) => insert_if(path.is_empty(), path, value),
        Change::Remove => What::Nothing,
    }
}

// A value in containers comes there, if it is wanted.
fn insert_if<'a>(is_wanted: bool, path: &'a [Step<'a>], value: &'a Part<'a>) -> What<'a>
    ensures what { here_of result ≡ comes (if is_wanted
        then Some (wrapped path.entry.now (part_tree value.entry.now)) else None) }
    ensures size { what_size result
        ≤ 1 + (length path.entry.now + length value.entry.now.payload.now) }
{
    if is_wanted {
        What::Insert(Made { path, value })
    } else {
        What::Nothing
    }
}

// Whether containers are made for all these steps.
fn can_wrap(path: &[Step<'_>]) -> bool
    ensures { result ≡ can_wrap path.now }
{
    let mut left = path;
    while let [step, rest @ ..] = left {
        if !makes_container(*step) {
            return false;
        }
        left = rest;
    }
    true
}

// Whether a container is made for a step.
fn makes_container(step: Step<'_>) -> bool
    ensures { result ≡ makes_container step.entry }
{
    match step {
        Step::Key(_) => true,
        _ => is_next(step, 0),
    }
}

// The level of a value in containers.
fn made_level<'a>(made: Made<'a>) -> EditedLevel<'a>
    ensures is { LevelIs code_of (written edit_meaning) result (shape_of (made_tree made.entry)) }
    ensures size { level_size (written edit_meaning) result ≤ made_size made.entry }
{
    let [step, rest @ ..] = made.path else {
        return kept_level::<Edited>(*made.value);
    };
    let what = insert_if(true, rest, made.value);
    match *step {
        Step::Key(key) => Level::Object(Laid::Changed(Counted {
            members: EditedMembers {
                members: no_object().members(),
                before: 0,
                key,
                what,
            },
            count: 1,
        })),
        _ => Level::Array(Laid::Changed(EditedItems {
            items: no_items(),
            before: 0,
            what,
        })),
    }
}

// An object of no member.
fn no_object<'a>() -> Object<'a>
    ensures are { IsObject result.count result.body.now no_pairs }
    ensures size { length result.body.now ≡ 0 }
{
    Object {
        count: 0,
        body: &[],
    }
}

// The items of an empty array.
fn no_items<'a>() -> Children<'a>
    ensures are { AreChildren no_trees result }
    ensures size { items_size result ≡ 0 }
{
    Children {
        entries: &[],
        payloads: &[],
    }
}

// How many members have lesser keys, and whether one has this key.
fn position_of_key(members: Members<'_>, key: &str) -> Position
    ensures { (ps : Pairs) → AreMembers ps members.entry
        → position_view result ≡ (keys_before key.now ps, pairs_have_key key.now ps) }
{
    let mut left = members;
    let mut before = 0;
    while let Some(first) = left.split_first() {
        match first.key.cmp(key) {
            Ordering::Less => (),
            Ordering::Equal => {
                return Position {
                    before,
                    is_there: true,
                };
            }
            Ordering::Greater => {
                return Position {
                    before,
                    is_there: false,
                };
            }
        }
        before += 1;
        left = first.later;
    }
    Position {
        before,
        is_there: false,
    }
}

// How many children there are, after what is done among so many.
#[inline(always)]
fn count_after(count: usize, what: What<'_>) -> usize
    requires { count < 2 ^ 63 }
    ensures { result ≡ count_done (here_of what.entry) count }
{
    match what {
        What::Insert(_) => count + 1,
        What::Remove => count.saturating_sub(1),
        _ => count,
    }
}

impl<'a> Meant<'a> for Edited<'a> {
    type Items = EditedItems<'a>;

    type Members = EditedMembers<'a>;

    ghost meaning = { edit_meaning };

    ghost laws = { edit_laws };
}

impl<'a> Overlay<'a> for Edited<'a> {
    #[inline(always)]
    fn level(self) -> EditedLevel<'a> {
        match self {
            Edited::Along(part, plan) => edited_level(part, plan),
            Edited::Made(made) => made_level(made),
        }
    }

    #[inline(always)]
    fn items_count(items: EditedItems<'a>) -> usize {
        count_after(item_count(items.items), items.what)
    }

    #[inline(always)]
    fn next_item(
        items: EditedItems<'a>,
    ) -> Option<
        (
            Laid<Part<'a>, Edited<'a>>,
            Laid<Children<'a>, EditedItems<'a>>,
        ),
    > {
        if items.before > 0 {
            let Child { part, later } = items.items.split_first()?;
            let later = EditedItems {
                items: later,
                before: items.before - 1,
                what: items.what,
            };
            return Some((Laid::Kept(part), Laid::Changed(later)));
        }
        let (child, later) = changed_item(items.items, items.what)?;
        Some((child, Laid::Kept(later)))
    }

    #[inline(always)]
    fn next_member(
        members: EditedMembers<'a>,
    ) -> Option<LaidMember<'a, Edited<'a>, EditedMembers<'a>>> {
        if members.before > 0 {
            let Member { key, value, later } = members.members.split_first()?;
            return Some(LaidMember {
                key,
                value: Laid::Kept(value),
                later: Laid::Changed(EditedMembers {
                    members: later,
                    before: members.before - 1,
                    key: members.key,
                    what: members.what,
                }),
            });
        }
        let (key, value, later) = changed_member(members.members, members.key, members.what)?;
        Some(LaidMember {
            key,
            value,
            later: Laid::Kept(later),
        })
    }

    // A child on the path is never measured, since its later siblings are different bytes at each
    // level, but the child itself holds those of the levels below.
    #[inline(always)]
    fn stored_len(self) -> usize {
        match self {
            Edited::Along(_, _) => usize::MAX,
            Edited::Made(made) => made.value.payload.len(),
        }
    }

    #[inline(always)]
    fn items_stored_len(items: EditedItems<'a>) -> Option<usize> {
        Some(items.items.stored_len())
    }

    #[inline(always)]
    fn members_stored_len(members: EditedMembers<'a>) -> usize {
        members.members.values.stored_len()
    }
}

// The first item, of which something is done, and the items after it.
#[inline(always)]
fn changed_item<'a>(
    items: Children<'a>,
    what: What<'a>,
) -> Option<(Laid<Part<'a>, Edited<'a>>, Children<'a>)>
    ensures first { (ts : Trees) → AreChildren ts items.entry → MatchOption result
        (first_done (here_of what.entry) ts ≡ no_trees)
        (λ x. NextItemIs edit_meaning (first_done (here_of what.entry) ts) (x.0, Kept x.1)) }
    ensures size { IfSome result (λ x. laid_size edit_meaning x.0 + items_size x.1
        < items_size items.entry + what_size what.entry) }
{
    match what {
        What::Insert(made) => Some((Laid::Changed(Edited::Made(made)), items)),
        What::Put(value) => {
            let Child { later, .. } = items.split_first()?;
            Some((Laid::Kept(*value), later))
        }
        What::Below(plan) => {
            let Child { part, later } = items.split_first()?;
            Some((Laid::Changed(Edited::Along(part, plan)), later))
        }
        What::Remove => {
            let Child { later, .. } = items.split_first()?;
            let Child { part, later } = later.split_first()?;
            Some((Laid::Kept(part), later))
        }
        What::Nothing => {
            let Child { part, later } = items.split_first()?;
            Some((Laid::Kept(part), later))
        }
    }
}

// The first member, of which something is done, and the members after it.
#[inline(always)]
fn changed_member<'a>(
    members: Members<'a>,
    new_key: &'a str,
    what: What<'a>,
) -> Option<(&'a str, Laid<Part<'a>, Edited<'a>>, Members<'a>)>
    ensures first { (ps : Pairs) → AreMembers ps members.entry → MatchOption result
        (first_pair_done new_key.now (here_of what.entry) ps ≡ no_pairs)
        (λ x. NextMemberIs edit_meaning (first_pair_done new_key.now (here_of what.entry) ps)
        (record { key = x.0; value = x.1; later = Kept x.2 })) }
    ensures size { IfSome result (λ x. laid_size edit_meaning x.1 + items_size x.2.values
        < items_size members.entry.values + what_size what.entry) }
{
    match what {
        What::Insert(made) => Some((new_key, Laid::Changed(Edited::Made(made)), members)),
        What::Put(value) => {
            let Member { key, later, .. } = members.split_first()?;
            Some((key, Laid::Kept(*value), later))
        }
        What::Below(plan) => {
            let Member { key, value, later } = members.split_first()?;
            Some((key, Laid::Changed(Edited::Along(value, plan)), later))
        }
        What::Remove => {
            let Member { later, .. } = members.split_first()?;
            let Member { key, value, later } = later.split_first()?;
            Some((key, Laid::Kept(value), later))
        }
        What::Nothing => {
            let Member { key, value, later } = members.split_first()?;
            Some((key, Laid::Kept(value), later))
        }
    }
}
