//! Encoding values as documents.

pub mod ast;
pub mod value;

ghost use Rattle.std.specs.Prelude.{◌≡◌, ◌≤◌, ◌+◌, ◌++◌, ◌↔◌, length, vec_capacity, IsOk};
ghost use Rattle.std.specs.Prelude.{IfOk, IfErr, OnOk, OnErr};
ghost use Rattle.jsonb_codec.specs.Canon.{Fits};
ghost use Rattle.jsonb_codec.specs.Words.{tree_of, ast_tree, AscendEverywhere, Tree, norm, IsTree};
ghost use Rattle.jsonb_codec.specs.Words.{Doc, canon, MadeIfFit};

use crate::writer::append::append_document;
use crate::writer::measure::measure_document;
use ast::ast_level;
use jsonb_value::{Error, JsonAst, Value};
use value::value_level;

/// Encodes values, appending the canonical document of each to a buffer.
#[derive(Drop)]
pub struct Encoder<'a> {
    buf: &'a mut Vec<u8>,
}

impl<'a> Encoder<'a> {
    ghost use Rattle.jsonb_codec.specs.Words.{buffer};

    /// An encoder that appends to `buf`.
    pub fn new(buf: &'a mut Vec<u8>) -> Encoder<'a>
        ensures same_buffer { (buffer result).ghost_name ≡ buf.entry.ghost_name }
        ensures same_value { (buffer result).now ≡ buf.old }
    {
        Encoder { buf }
    }

    /// The length of the value's canonical document in bytes. `InvalidJsonb` if a payload or a key
    /// is longer than 268,435,455 bytes, or a count exceeds 536,870,911.
    pub fn measure(value: &Value<'_>) -> Result<usize, Error>
        ensures len { IfOk result (λ m. m ≡ length (canon (tree_of value.now))) }
        ensures fits { IsOk result ↔ Fits (tree_of value.now) }
        ensures only { IfErr result (λ e. e ≡ Error.InvalidJsonb) }
        ensures tree { OnOk result (IsTree (tree_of value.now)) }
    {
        measure_document::<&Value>(value_level(value))
    }

    /// Appends the value's canonical document with a single growth of the buffer. `InvalidJsonb`,
    /// before any allocation, if a payload or a key is longer than 268,435,455 bytes, or a count
    /// exceeds 536,870,911; `OutOfMemory` if the buffer cannot grow. After an error the bytes of
    /// the buffer are unchanged. The document means the value with signed zeros made unsigned, and
    /// values that differ in more than that have different documents.
    pub fn encode(&mut self, value: &Value<'_>) -> Result<(), Error>
        ensures same_buffer { (buffer self.new).ghost_name ≡ (buffer self.old).ghost_name }
        ensures appended { OnOk result
            ((buffer self.new).now.items ≡ (buffer self.old).now.items
            ++ canon (tree_of value.now)) }
        ensures err { OnErr result ((buffer self.new).now.items ≡ (buffer self.old).now.items) }

        // Which error is returned: an allocation is attempted only if the value fits.
        ensures limits { MadeIfFit (Fits (tree_of value.now)) result }
        ensures room { Fits (tree_of value.now)
            → length (buffer self.old).now.items + length (canon (tree_of value.now))
            ≤ vec_capacity (buffer self.old).now
            → IsOk result }

        // The canonical document of a tree that fits means the tree with signed zeros made
        // unsigned; trees that differ in more than that have different canonical documents.
        ensures tree { OnOk result (IsTree (tree_of value.now)) }
        ensures means { (t : Tree) → IsTree t → Fits t → Doc (canon t) (norm t) }
        ensures distinct { (t u : Tree) → IsTree t → IsTree u → Fits t → Fits u
            → (canon t ≡ canon u) ↔ (norm t ≡ norm u) }
    {
        append_document::<&Value>(self.buf, value_level(value))
    }
}

/// Encodes values whose objects are lists of pairs, appending the canonical document of each to a
/// buffer.
#[derive(Drop)]
pub struct JsonAstEncoder<'a> {
    buf: &'a mut Vec<u8>,
}

impl<'a> JsonAstEncoder<'a> {
    ghost use Rattle.jsonb_codec.specs.Words.{ast_buffer};

    /// An encoder that appends to `buf`.
    pub fn new(buf: &'a mut Vec<u8>) -> JsonAstEncoder<'a>
        ensures same_buffer { (ast_buffer result).ghost_name ≡ buf.entry.ghost_name }
        ensures same_value { (ast_buffer result).now ≡ buf.old }
    {
        JsonAstEncoder { buf }
    }

    /// The length of the value's canonical document in bytes. The keys of every object must ascend
    /// (`has_ascending_keys`). `InvalidJsonb` if a payload or a key is longer than 268,435,455
    /// bytes, or a count exceeds 536,870,911.
    pub fn measure(value: &JsonAst<'_>) -> Result<usize, Error>
        requires { AscendEverywhere (ast_tree value.now) }
        ensures len { IfOk result (λ m. m ≡ length (canon (ast_tree value.now))) }
        ensures fits { IsOk result ↔ Fits (ast_tree value.now) }
        ensures only { IfErr result (λ e. e ≡ Error.InvalidJsonb) }
        ensures tree { OnOk result (IsTree (ast_tree value.now)) }
    {
        measure_document::<&JsonAst>(ast_level(value))
    }

    /// Appends the value's canonical document with a single growth of the buffer. The keys of every
    /// object must ascend (`has_ascending_keys`). `InvalidJsonb`, before any allocation, if a
    /// payload or a key is longer than 268,435,455 bytes, or a count exceeds 536,870,911;
    /// `OutOfMemory` if the buffer cannot grow. After an error the bytes of the buffer are
    /// unchanged. The document means the value with signed zeros made unsigned, and values that
    /// differ in more than that have different documents.
    pub fn encode(&mut self, value: &JsonAst<'_>) -> Result<(), Error>
        requires { AscendEverywhere (ast_tree value.now) }
        ensures same_buffer { (ast_buffer self.new).ghost_name ≡ (ast_buffer self.old).ghost_name }
        ensures appended { OnOk result
            ((ast_buffer self.new).now.items ≡ (ast_buffer self.old).now.items
            ++ canon (ast_tree value.now)) }
        ensures err { OnErr result
            ((ast_buffer self.new).now.items ≡ (ast_buffer self.old).now.items) }

        // Which error is returned: an allocation is attempted only if the value fits.
        ensures limits { MadeIfFit (Fits (ast_tree value.now)) result }
        ensures room { Fits (ast_tree value.now)
            → length (ast_buffer self.old).now.items + length (canon (ast_tree value.now))
            ≤ vec_capacity (ast_buffer self.old).now
            → IsOk result }

        // The canonical document of a tree that fits means the tree with signed zeros made
        // unsigned; trees that differ in more than that have different canonical documents.
        ensures tree { OnOk result (IsTree (ast_tree value.now)) }
        ensures means { (t : Tree) → IsTree t → Fits t → Doc (canon t) (norm t) }
        ensures distinct { (t u : Tree) → IsTree t → IsTree u → Fits t → Fits u
            → (canon t ≡ canon u) ↔ (norm t ≡ norm u) }
    {
        append_document::<&JsonAst>(self.buf, ast_level(value))
    }
}
