//! What a path gives of a document.

ghost use Rattle.std.specs.Prelude.{◌≡◌, IfOk, IsTrue, map};
ghost use Rattle.jsonb.specs.Node.{member_tree, node_tree};
ghost use Rattle.jsonb_path.specs.Found.{outcome_of};
ghost use Rattle.jsonb_path.specs.Meaning.{exists_in, is_lax, match_in};
ghost use Rattle.jsonb_path.specs.PathParts.{are_parts};
ghost use Rattle.jsonb_path.specs.PathTree.{path_means};

use crate::compare::Truth;
use crate::follow::follow_at;
use crate::given::given_at;
use crate::outcome::Outcome;
use crate::path::{Mode, Part, Path, PathError};
use crate::place::Place;
use jsonb::{Document, Error, Node};
use std::alloc::{AllocError, Global};

impl Path {
    ghost use Rattle.std.specs.Prelude.{IfErr};
    ghost use Rattle.jsonb.specs.Document.{document_tree};

    /// What the path gives of a document with these variables, each after its name: values, and the
    /// error by which the path is given up after them, if there is one. All variables that the path
    /// names are looked for first: `UndefinedVariable` without a value if one is not given.
    /// `OutOfMemory` is the only error of the call.
    pub fn query<'a>(
        &'a self,
        alloc: Global,
        document: Document<'a>,
        variables: &'a [(&'a str, Node<'a>)],
    ) -> Result<Outcome<'a>, Error>
        ensures ok { IfOk result (λ outcome. outcome_of outcome ≡ path_means self.now
            (map member_tree variables.now) (document_tree document.entry)) }
        ensures memory { IfErr result (λ e. e ≡ Error.OutOfMemory) }
    {
        match follow_whole(
            alloc,
            self.mode(),
            self.parts(),
            document.value(),
            variables,
        ) {
            Ok(outcome) => Ok(outcome),
            Err(_) => Err(Error::OutOfMemory),
        }
    }

    /// Whether the path gives a value of a document: `Unknown` if it is given up by an error,
    /// unless it passes over what is not there and a value comes before the error. `OutOfMemory` is
    /// the only error of the call.
    pub fn exists<'a>(
        &'a self,
        alloc: Global,
        document: Document<'a>,
        variables: &'a [(&'a str, Node<'a>)],
    ) -> Result<Truth, Error>
        ensures ok { IfOk result (λ truth. truth ≡ exists_in self.now.mode (path_means self.now
            (map member_tree variables.now) (document_tree document.entry))) }
        ensures memory { IfErr result (λ e. e ≡ Error.OutOfMemory) }
    {
        let outcome = self.query(alloc, document, variables)?;
        Ok(outcome.exists(self.mode()))
    }

    /// The truth that the path gives of a document, as PostgreSQL's `jsonb_path_match`: its one
    /// value, `Unknown` for null. The error by which the path is given up, if there is one, and
    /// `BooleanRequired` if there is another number of values or another value. `OutOfMemory` is
    /// the only error of the call.
    pub fn matches<'a>(
        &'a self,
        alloc: Global,
        document: Document<'a>,
        variables: &'a [(&'a str, Node<'a>)],
    ) -> Result<Result<Truth, PathError>, Error>
        ensures ok { IfOk result (λ answer. answer ≡ match_in (path_means self.now
            (map member_tree variables.now) (document_tree document.entry))) }
        ensures memory { IfErr result (λ e. e ≡ Error.OutOfMemory) }
    {
        let outcome = self.query(alloc, document, variables)?;
        Ok(outcome.matches())
    }
}

// What the parts of a path give of a document: all variables are looked for first.
#[tactic(auto, using(crate::proofs::PathTextLaws::path_parts))]
pub(crate) fn follow_whole<'a>(
    alloc: Global,
    mode: Mode,
    parts: &'a [Part],
    root: Node<'a>,
    variables: &'a [(&'a str, Node<'a>)],
) -> Result<Outcome<'a>, AllocError>
    requires { IsTrue (are_parts parts.now) }
    ensures { IfOk result (λ o. outcome_of o ≡ path_means
        (record { mode = mode; parts = parts.now }) (map member_tree variables.now)
        (node_tree root.entry)) }
{
    let last = parts.len() - 1;
    if !given_at(parts, last, variables) {
        return Ok(Outcome::failed(alloc, PathError::UndefinedVariable));
    }
    let place = Place {
        mode,
        forgives: is_lax(mode),
        root,
        current: root,
        count: 1,
        variables,
    };
    follow_at(alloc, &place, parts, last)
}

fn is_lax(mode: Mode) -> bool
    ensures { result ≡ is_lax mode }
{
    match mode {
        Mode::Lax => true,
        Mode::Strict => false,
    }
}
