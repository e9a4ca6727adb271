//! The sink that keeps nothing.

use crate::error::Error;
use crate::number::Number;
use crate::parser::sink::Sink;

/// Keeps nothing of a text: for a reader that asks only whether the text is JSON.
#[derive(Clone, Copy)]
pub struct Nothing;

impl<'a> Sink<'a> for Nothing {
    ghost use Rattle.std.specs.Prelude.{⊤};

    ghost is = { λ sink state. ⊤ };

    fn null(&mut self) -> Result<(), Error> {
        Ok(())
    }

    fn truth(&mut self, _truth: bool) -> Result<(), Error> {
        Ok(())
    }

    fn number(&mut self, _value: Number) -> Result<(), Error> {
        Ok(())
    }

    fn string(&mut self, _content: &'a str) -> Result<(), Error> {
        Ok(())
    }

    fn spelled(&mut self, _content: &str) -> Result<(), Error> {
        Ok(())
    }

    fn key(&mut self, _content: &'a str) -> Result<(), Error> {
        Ok(())
    }

    fn spelled_key(&mut self, _content: &str) -> Result<(), Error> {
        Ok(())
    }

    fn begin_array(&mut self) -> Result<(), Error> {
        Ok(())
    }

    fn end_array(&mut self) -> Result<(), Error> {
        Ok(())
    }

    fn begin_object(&mut self) -> Result<(), Error> {
        Ok(())
    }

    fn end_object(&mut self) -> Result<(), Error> {
        Ok(())
    }
}
