//! The sink that makes a value of a text.

ghost use Rattle.std.specs.Prelude.{◌≡◌, List, [], ◌∷◌, IfErr, OnOk};
ghost use Rattle.jsonb_value.specs.Words.{Tree, tree_of, OutOfMemory};
ghost use Rattle.jsonb_value.specs.Json.Syntax.{Entries};
ghost use Rattle.jsonb_value.specs.Reader.Resume.{Content, going, whole, Adds, AddsKey, members};
ghost use Rattle.jsonb_value.specs.Reader.TreesHeld.{ContainerHolds, trees_are};

use crate::error::Error;
use crate::number::Number;
use crate::parser::members::Members;
use crate::parser::sink::Sink;
use crate::value::Value;
use std::alloc::Global;
use std::borrow::CowStr;
use std::mem::replace;

/// A container that is being read, or the place of the whole value, which is null before that.
#[derive(Drop)]
pub enum Container<'a> {
    Whole(Value<'a>),
    Array(Vec<Value<'a>>),
    Object(Members<'a>),
}

/// The value of a text while it is read: the open containers.
#[derive(Drop)]
pub struct Trees<'a> {
    alloc: Global,
    innermost: Container<'a>,
    outer: Vec<Container<'a>>,
}

impl<'a> Trees<'a> {
    /// Nothing has been read.
    pub fn new(alloc: Global) -> Trees<'a>
        ensures { trees_are result (going []) }
    {
        Trees {
            alloc,
            innermost: Container::Whole(Value::Null),
            outer: Vec::new(alloc),
        }
    }

    /// The value of the whole text.
    pub fn into_value(self) -> Value<'a>
        requires { (t : Tree) × trees_are self (whole t) }
        ensures { (t : Tree) → trees_are self.entry (whole t) → tree_of result ≡ t }
    {
        let Trees { innermost, .. } = self;
        let Container::Whole(value) = innermost else {
            unreachable!();
        };
        value
    }

    // Adds a value to the innermost container.
    #[tactic(auto, using(crate::proofs::TreesLaws::member_added))]
    fn add(&mut self, value: Value<'a>) -> Result<(), Error>
        ensures ok { OnOk result (Adds trees_are self.old self.new (tree_of value.entry)) }
        ensures memory { IfErr result (λ e. e ≡ OutOfMemory) }
    {
        match &mut self.innermost {
            Container::Whole(whole) => *whole = value,
            Container::Array(items) => items.push(value)?,
            Container::Object(members) => members.insert(self.alloc, value)?,
        }
        Ok(())
    }

    // Takes the key whose value comes next.
    fn set_key(&mut self, key: &str) -> Result<(), Error>
        requires { (front : Entries) × ((cs : List Content)
            × trees_are self.old (going (members front ∷ cs))) }
        ensures ok { OnOk result (AddsKey trees_are self.old self.new key.now) }
        ensures memory { IfErr result (λ e. e ≡ OutOfMemory) }
    {
        let Container::Object(members) = &mut self.innermost else {
            unreachable!();
        };
        members.key = String::from_str(self.alloc, key)?;
        Ok(())
    }

    // Begins a container.
    fn begin(&mut self, container: Container<'a>) -> Result<(), Error>
        ensures ok { OnOk result ((content : Content) (cs : List Content)
            → ContainerHolds container.entry content → trees_are self.old (going cs)
            → trees_are self.new (going (content ∷ cs))) }
        ensures memory { IfErr result (λ e. e ≡ OutOfMemory) }
    {
        self.outer.push(replace(&mut self.innermost, container))?;
        Ok(())
    }

    // Ends the innermost container and takes it out.
    fn end(&mut self) -> Container<'a>
        requires { (content : Content) × ((cs : List Content)
            × trees_are self.old (going (content ∷ cs))) }
        ensures { (content : Content) (cs : List Content)
            → trees_are self.old (going (content ∷ cs))
            → ContainerHolds result content × trees_are self.new (going cs) }
    {
        let Some(outer) = self.outer.pop() else {
            unreachable!();
        };
        replace(&mut self.innermost, outer)
    }
}

impl<'a> Sink<'a> for Trees<'a> {
    ghost use Rattle.jsonb_value.specs.Reader.TreesHeld.{trees_are};

    ghost is = { trees_are };

    fn null(&mut self) -> Result<(), Error> {
        self.add(Value::Null)
    }

    fn truth(&mut self, truth: bool) -> Result<(), Error> {
        self.add(Value::Bool(truth))
    }

    fn number(&mut self, value: Number) -> Result<(), Error> {
        self.add(Value::Number(value))
    }

    fn string(&mut self, content: &'a str) -> Result<(), Error> {
        self.add(Value::String(CowStr::Borrowed(content)))
    }

    fn spelled(&mut self, content: &str) -> Result<(), Error> {
        let content = String::from_str(self.alloc, content)?;
        self.add(Value::String(CowStr::Owned(content)))
    }

    fn key(&mut self, content: &'a str) -> Result<(), Error> {
        self.set_key(content)
    }

    fn spelled_key(&mut self, content: &str) -> Result<(), Error> {
        self.set_key(content)
    }

    fn begin_array(&mut self) -> Result<(), Error> {
        self.begin(Container::Array(Vec::new(self.alloc)))
    }

    fn end_array(&mut self) -> Result<(), Error> {
        let Container::Array(items) = self.end() else {
            unreachable!();
        };
        self.add(Value::Array(items))
    }

    fn begin_object(&mut self) -> Result<(), Error> {
        self.begin(Container::Object(Members::new(self.alloc)))
    }

    fn end_object(&mut self) -> Result<(), Error> {
        let Container::Object(members) = self.end() else {
            unreachable!();
        };
        let object = members.into_object(self.alloc)?;
        self.add(Value::Object(object))
    }
}
