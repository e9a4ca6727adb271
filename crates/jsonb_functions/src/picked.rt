//! Copies of objects with some of their members.

ghost use Rattle.std.specs.Prelude.{◌≡◌, IfOk};
ghost use Rattle.jsonb_functions.specs.ChosenSource.{chosen_meaning};
ghost use Rattle.jsonb_functions.specs.Overlay.{written};
ghost use Rattle.jsonb_functions.specs.Words.{Fits, LevelIs, MadeIfFit, MadeWithMemory, PartMeans};
ghost use Rattle.jsonb_functions.specs.Words.{Tree, canon, code_of, document_tree, owned_bytes};
ghost use Rattle.jsonb_functions.specs.Words.{picked, shape_of};

use crate::choice::{Choice, Kept, sorted};
use crate::chosen::{Chosen, ChosenLevel, ChosenMembers, count_kept};
use crate::overlay::{Counted, Laid, kept_level};
use jsonb::constants::CONTAINER_TAG;
use jsonb::layer::parts::{Contents, Part};
use jsonb::layer::writer::{Level, append_document};
use jsonb::{Document, Error, OwnedJsonb};
use std::alloc::Global;

/// The canonical document of an object with only those of its members whose keys are among the
/// names, or only those whose keys are not. It does not matter how often or in which order names
/// are listed. What is not an object is kept whole. `InvalidJsonb`, before the document is
/// allocated, if it does not fit the format; `OutOfMemory` if an allocation fails, that of a sorted
/// list of the names or that of the document.
#[tactic(auto, using(crate::proofs::MemoryLaws::with_memory, crate::proofs::PickLaws::same_picked))]
pub fn pick(
    alloc: Global,
    document: Document<'_>,
    names: &[&str],
    which: Kept,
) -> Result<OwnedJsonb, Error>
    ensures ok { IfOk result (λ owned. owned_bytes owned
        ≡ canon (picked names.now which (document_tree document.entry))) }
    ensures limits { MadeWithMemory
        (Fits (picked names.now which (document_tree document.entry))) result }
{
    let names = sorted(alloc, names)?;
    let choice = Choice {
        names: &names,
        which,
    };
    pick_by(alloc, document, choice)
}

// The canonical document of a value, of whose members some are kept if it is an object.
fn pick_by(alloc: Global, document: Document<'_>, choice: Choice<'_>) -> Result<OwnedJsonb, Error>
    ensures ok { IfOk result (λ owned. owned_bytes owned ≡ canon
        (picked choice.entry.names.now choice.entry.which (document_tree document.entry))) }
    ensures limits { MadeIfFit (Fits
        (picked choice.entry.names.now choice.entry.which (document_tree document.entry)))
        result }
{
    let mut bytes = Vec::new(alloc);
    append_document::<Laid<Part, Chosen>>(&mut bytes, picked_level(document.part(), choice))?;
    Ok(OwnedJsonb::new(bytes))
}

// The level of a value, of whose members some are kept if it is an object.
fn picked_level<'a>(part: Part<'a>, choice: Choice<'a>) -> ChosenLevel<'a>
    ensures { (t : Tree) → PartMeans part.entry t → LevelIs code_of (written chosen_meaning) result
        (shape_of (picked choice.entry.names.now choice.entry.which t)) }
{
    if part.type_code != CONTAINER_TAG {
        return kept_level::<Chosen>(part);
    }
    match part.contents() {
        Contents::Array(_) => kept_level::<Chosen>(part),
        Contents::Object(object) => {
            let members = object.members();
            Level::Object(Laid::Changed(Counted {
                members: ChosenMembers { members, choice },
                count: count_kept(members, choice),
            }))
        }
    }
}
