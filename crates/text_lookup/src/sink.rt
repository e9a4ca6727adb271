//! The sink that keeps the value at one key of the outermost object.

ghost use Rattle.std.specs.Prelude.{◌≡◌, ◌≤◌, IfErr, OnOk};
ghost use Rattle.text_lookup.specs.Sink.{IsDeeper, IsMet, IsOpened, IsTaken, is_wanted};

use crate::member::TextMember;
use jsonb_value::{Error, Number, Sink, Value};
use std::alloc::Global;
use std::borrow::CowStr;

/// What was read of a text, as far as the value at a key needs it: how many containers are open,
/// whether the outermost one is an object at this key, and what was found at it so far.
#[derive(Drop)]
pub struct MemberSink<'a, 'k> {
    pub alloc: Global,
    pub key: &'k str,
    pub depth: usize,
    pub is_at_key: bool,
    pub member: TextMember<'a>,
}

impl<'a> MemberSink<'a, '_> {
    // Whether the next value is the one at the key.
    #[inline(always)]
    fn is_wanted(&self) -> bool
        ensures { result ≡ is_wanted self.now }
    {
        self.is_at_key && self.depth == 1
    }

    // Notes whether this key is the one whose value is kept, if it is of the outermost container.
    #[inline(always)]
    fn meet(&mut self, content: &str)
        ensures { IsMet self.old content.now self.new }
    {
        if self.depth == 1 {
            self.is_at_key = self.key == content;
        }
    }

    // Counts one more open container. A text that opens too many to count would take more bytes
    // than there can be.
    #[inline(always)]
    fn deepen(&mut self) -> Result<(), Error>
        ensures ok { OnOk result (IsDeeper self.old self.new) }
        ensures memory { IfErr result (λ e. e ≡ Error.OutOfMemory) }
    {
        match self.depth.checked_add(1) {
            Some(depth) => {
                self.depth = depth;
                Ok(())
            }
            None => Err(Error::OutOfMemory),
        }
    }

    // Counts one open container less.
    #[inline(always)]
    fn rise(&mut self)
        requires { 1 ≤ self.old.depth }
        ensures { IsDeeper self.new self.old }
    {
        self.depth -= 1;
    }

    // Keeps this in place of what was found.
    #[inline(always)]
    fn keep(&mut self, member: TextMember<'a>)
        ensures key { self.new.key ≡ self.old.key }
        ensures depth { self.new.depth ≡ self.old.depth }
        ensures is_at_key { self.new.is_at_key ≡ self.old.is_at_key }
        ensures member { self.new.member ≡ member.entry }
    {
        self.member = member;
    }

    // Keeps this, if it is of the value at the key.
    #[inline(always)]
    fn take(&mut self, member: TextMember<'a>)
        ensures { IsTaken self.old member.entry self.new }
    {
        if self.is_wanted() {
            self.keep(member);
        }
    }

    // Notes that an object begins.
    #[inline(always)]
    fn open(&mut self)
        ensures { IsOpened self.old self.new }
    {
        if self.depth == 0 {
            self.keep(TextMember::Missing);
        }
    }
}

impl<'a> Sink<'a> for MemberSink<'a, '_> {
    ghost use Rattle.text_lookup.specs.Sink.{sink_is};

    ghost is = { sink_is };

    #[inline(always)]
    fn null(&mut self) -> Result<(), Error> {
        self.take(TextMember::Scalar(Value::Null));
        Ok(())
    }

    #[inline(always)]
    fn truth(&mut self, truth: bool) -> Result<(), Error> {
        self.take(TextMember::Scalar(Value::Bool(truth)));
        Ok(())
    }

    #[inline(always)]
    fn number(&mut self, value: Number) -> Result<(), Error> {
        self.take(TextMember::Scalar(Value::Number(value)));
        Ok(())
    }

    #[inline(always)]
    fn string(&mut self, content: &'a str) -> Result<(), Error> {
        self.take(TextMember::Scalar(Value::String(CowStr::Borrowed(content))));
        Ok(())
    }

    fn spelled(&mut self, content: &str) -> Result<(), Error> {
        if self.is_wanted() {
            let content = String::from_str(self.alloc, content)?;
            self.take(TextMember::Scalar(Value::String(CowStr::Owned(content))));
        }
        Ok(())
    }

    #[inline(always)]
    fn key(&mut self, content: &'a str) -> Result<(), Error> {
        self.meet(content);
        Ok(())
    }

    fn spelled_key(&mut self, content: &str) -> Result<(), Error> {
        self.meet(content);
        Ok(())
    }

    #[inline(always)]
    fn begin_array(&mut self) -> Result<(), Error> {
        self.deepen()
    }

    #[inline(always)]
    fn end_array(&mut self) -> Result<(), Error> {
        self.rise();
        self.take(TextMember::Unread);
        Ok(())
    }

    #[inline(always)]
    fn begin_object(&mut self) -> Result<(), Error> {
        self.open();
        self.deepen()
    }

    #[inline(always)]
    fn end_object(&mut self) -> Result<(), Error> {
        self.rise();
        self.take(TextMember::Unread);
        Ok(())
    }
}
