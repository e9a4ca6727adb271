//! What a path gives.

ghost use Rattle.std.specs.Prelude.{◌≡◌, [], ◌∷◌, IfOk, map};
ghost use Rattle.jsonb.specs.Node.{node_tree};
ghost use Rattle.jsonb_path.specs.Found.{Finds, ended, outcome_of};
ghost use Rattle.jsonb_path.specs.Meaning as meaning;
ghost use Rattle.jsonb_path.specs.Meaning.{exists_in, fails, gives, joined, lone_truth, match_in};

use crate::compare::Truth;
use crate::path::{Mode, PathError};
use crate::value::truth_in;
use jsonb::Node;
use std::alloc::{AllocError, Global};

/// What a path gives: values in their order, and then an end or an error.
#[derive(Debug, Drop)]
pub struct Outcome<'a> {
    pub values: Vec<Node<'a>>,
    pub error: Option<PathError>,
}

impl<'a> Outcome<'a> {
    /// Whether there is a value, as `Path::exists` says it of a path of this mode: `Unknown` if
    /// there is an error, unless the mode is lax and a value comes before it.
    pub fn exists(&self, mode: Mode) -> Truth
        ensures { result ≡ exists_in mode (outcome_of self.now) }
    {
        match (mode, self.error, self.values.as_slice()) {
            (_, None, []) => Truth::False,
            (_, None, [_, ..]) => Truth::True,
            (_, Some(_), []) => Truth::Unknown,
            (Mode::Lax, Some(_), [_, ..]) => Truth::True,
            (Mode::Strict, Some(_), [_, ..]) => Truth::Unknown,
        }
    }

    /// The truth that is the one value, as `Path::matches` says it: `Unknown` is null. The error if
    /// there is one, and `BooleanRequired` if there is another number of values or another value.
    pub fn matches(&self) -> Result<Truth, PathError>
        ensures { result ≡ match_in (outcome_of self.now) }
    {
        match (self.error, self.truth()) {
            (Some(error), _) => Err(error),
            (None, Some(truth)) => Ok(truth),
            (None, None) => Err(PathError::BooleanRequired),
        }
    }

    /// The truth that is the one value, also before an error: `Unknown` is null. `None` if there is
    /// another number of values or another value. So a silent match is this or unknown.
    pub fn truth(&self) -> Option<Truth>
        ensures { result ≡ lone_truth (map node_tree self.now.values.items) }
    {
        match self.values.as_slice() {
            [value] => truth_in(*value),
            _ => None,
        }
    }

    // This value alone.
    pub(crate) fn one(alloc: Global, value: Node<'a>) -> Result<Outcome<'a>, AllocError>
        ensures { IfOk result (λ o. outcome_of o ≡ gives (node_tree value.entry ∷ [])) }
    {
        let mut values = Vec::new(alloc);
        values.push(value)?;
        Ok(Outcome {
            values,
            error: None,
        })
    }

    // This error without a value.
    pub(crate) fn failed(alloc: Global, error: PathError) -> Outcome<'a>
        ensures { outcome_of result ≡ fails error }
    {
        Outcome {
            values: Vec::new(alloc),
            error: Some(error),
        }
    }

    // What a walk found, and after that this end.
    #[tactic(auto, using(crate::proofs::FoundLaws::ends_of_walks))]
    pub(crate) fn of_walk(
        values: Vec<Node<'a>>,
        walked: Result<(), WalkError>,
        end: Option<PathError>,
    ) -> Result<Outcome<'a>, AllocError>
        ensures { (o : meaning.Outcome) → Finds [] values.entry.items walked o
            → IfOk result (λ p. outcome_of p ≡ joined o (ended [] end)) }
    {
        match walked {
            Ok(()) => Ok(Outcome { values, error: end }),
            Err(WalkError::Failed(error)) => Ok(Outcome {
                values,
                error: Some(error),
            }),
            Err(WalkError::OutOfMemory) => Err(AllocError),
        }
    }
}

/// Why a walk over values ends before it is through.
#[derive(Clone, Copy, Debug, PartialEq, Eq)]
pub(crate) enum WalkError {
    /// The path is given up.
    Failed(PathError),
    OutOfMemory,
}

impl From<AllocError> for WalkError {
    ghost use Rattle.std.specs.Prelude.{◌≡◌};
    ghost use Rattle.jsonb_path.specs.declared.outcome.WalkError.TheVariants.{OutOfMemory};

    ghost from_gives = { λ _ result. result ≡ OutOfMemory };

    fn from(_error: AllocError) -> WalkError {
        WalkError::OutOfMemory
    }
}

// Appends a value.
pub(crate) fn append<'a>(value: Node<'a>, found: &mut Vec<Node<'a>>) -> Result<(), WalkError>
    ensures { Finds found.old.items found.new.items result
        (gives (node_tree value.entry ∷ [])) }
{
    match found.push(value) {
        Ok(()) => Ok(()),
        Err(_) => Err(WalkError::OutOfMemory),
    }
}
