//! What the reader reports of a text: one reader, and a sink for each thing made of it.

ghost use Rattle.std.specs.Prelude.{◌≡◌, List, [], ◌∷◌, OnOk, IfErr};
ghost use Rattle.jsonb_value.specs.declared.error.Error.TheVariants.{OutOfMemory};
ghost use Rattle.jsonb_value.specs.Tree.{Tree, array, object, no_trees, null, boolean, number};
ghost use Rattle.jsonb_value.specs.Tree.{text};
ghost use Rattle.jsonb_value.specs.Value.{trees_of};
ghost use Rattle.jsonb_value.specs.Json.Syntax.{Entries, pairs};
ghost use Rattle.jsonb_value.specs.Reader.Resume.{State, going, Content, items, members, put};
ghost use Rattle.jsonb_value.specs.Reader.Resume.{Adds, AddsKey};

use crate::error::Error;
use crate::number::Number;

/// Receives what the reader meets, in order: scalars, keys before their values, and where arrays
/// and objects begin and end. Each call fails only if an allocation does.
pub trait Sink<'a> {
    ghost is: { Self → State → Type 0 };

    /// The value `null`.
    fn null(&mut self) -> Result<(), Error>
        ensures ok { OnOk result (Adds is self.old self.new null) }
        ensures memory { IfErr result (λ e. e ≡ OutOfMemory) };

    /// `true` or `false`.
    fn truth(&mut self, truth: bool) -> Result<(), Error>
        ensures ok { OnOk result (Adds is self.old self.new (boolean truth)) }
        ensures memory { IfErr result (λ e. e ≡ OutOfMemory) };

    /// A number.
    fn number(&mut self, value: Number) -> Result<(), Error>
        ensures ok { OnOk result (Adds is self.old self.new (number value)) }
        ensures memory { IfErr result (λ e. e ≡ OutOfMemory) };

    /// A string without escapes, as it stands in the text.
    fn string(&mut self, content: &'a str) -> Result<(), Error>
        ensures ok { OnOk result (Adds is self.old self.new (text content.now)) }
        ensures memory { IfErr result (λ e. e ≡ OutOfMemory) };

    /// A string with escapes: its content, without them.
    fn spelled(&mut self, content: &str) -> Result<(), Error>
        ensures ok { OnOk result (Adds is self.old self.new (text content.now)) }
        ensures memory { IfErr result (λ e. e ≡ OutOfMemory) };

    /// The key whose value comes next, without escapes, as it stands in the text.
    fn key(&mut self, content: &'a str) -> Result<(), Error>
        requires { (front : Entries) × ((cs : List Content)
            × is self.old (going (members front ∷ cs))) }
        ensures ok { OnOk result (AddsKey is self.old self.new content.now) }
        ensures memory { IfErr result (λ e. e ≡ OutOfMemory) };

    /// The key whose value comes next, with escapes: its content, without them.
    fn spelled_key(&mut self, content: &str) -> Result<(), Error>
        requires { (front : Entries) × ((cs : List Content)
            × is self.old (going (members front ∷ cs))) }
        ensures ok { OnOk result (AddsKey is self.old self.new content.now) }
        ensures memory { IfErr result (λ e. e ≡ OutOfMemory) };

    /// An array begins.
    fn begin_array(&mut self) -> Result<(), Error>
        ensures ok { OnOk result ((cs : List Content) → is self.old (going cs)
            → is self.new (going (items [] ∷ cs))) }
        ensures memory { IfErr result (λ e. e ≡ OutOfMemory) };

    /// The innermost container, an array, ends.
    fn end_array(&mut self) -> Result<(), Error>
        requires { (front : List Tree) × ((cs : List Content)
            × is self.old (going (items front ∷ cs))) }
        ensures ok { OnOk result ((front : List Tree) (cs : List Content)
            → is self.old (going (items front ∷ cs))
            → is self.new (put (array (trees_of front)) cs)) }
        ensures memory { IfErr result (λ e. e ≡ OutOfMemory) };

    /// An object begins.
    fn begin_object(&mut self) -> Result<(), Error>
        ensures ok { OnOk result ((cs : List Content) → is self.old (going cs)
            → is self.new (going (members [] ∷ cs))) }
        ensures memory { IfErr result (λ e. e ≡ OutOfMemory) };

    /// The innermost container, an object, ends. Of equal keys the last value is kept.
    fn end_object(&mut self) -> Result<(), Error>
        requires { (front : Entries) × ((cs : List Content)
            × is self.old (going (members front ∷ cs))) }
        ensures ok { OnOk result ((front : Entries) (cs : List Content)
            → is self.old (going (members front ∷ cs))
            → is self.new (put (object (pairs front)) cs)) }
        ensures memory { IfErr result (λ e. e ≡ OutOfMemory) };
}
