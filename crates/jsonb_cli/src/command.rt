//! The grammar of commands, and executing them.

ghost use Rattle.std.specs.Prelude.{◌≡◌, ◌⊎◌, ◌↔◌, ◌++◌, ℕ, List, codes, IfSome, IfNone, IfOk};
ghost use Rattle.std.specs.Prelude.{IfErr, IsErrOf};
ghost use Rattle.jsonb_cli.specs.Names.{OutOfMemory, Form, IsOfForm, form_of, outcome_line};
ghost use Rattle.jsonb_cli.specs.Names.{IsExactReply, IsFormAnswer, IsAnswerOrRefusal, IsHexOf};
ghost use Rattle.jsonb_cli.specs.Names.{IsDocument, IsDocumentWithin};

use crate::answer::{Answer, Refusal};
use crate::calls::{
    answer_arr, answer_canon, answer_cmp, answer_dec, answer_enc, answer_get, answer_pretty,
    answer_type,
};
use crate::words::{Words, split_word};
use hex::FromHexError;
use jsonb::{Error, nests_deeper};
use std::alloc::Global;

/// How deep the bytes of a word may nest if a command walks them. As LLVM builds the program a
/// level takes at most 404 bytes of stack where it was measured, for `canon`, so this takes half of
/// the usual 8 MB.
pub const MAX_WORD_DEPTH: usize = 10_000;

/// A command with its arguments: a text, or words.
#[derive(Drop)]
pub enum Command<'a> {
    Enc(&'a [u8]),
    Dec(&'a [u8]),
    Pretty(&'a [u8]),
    ItemType(&'a [u8]),
    Get { document: &'a [u8], key: &'a [u8] },
    Cmp { left: &'a [u8], right: &'a [u8] },
    Arr(Words<'a>),
    Canon(&'a [u8]),
}

impl<'a> Command<'a> {
    /// The command of a line, `None` if the line does not have the form of a command.
    pub fn parse(line: &'a [u8]) -> Option<Command<'a>>
        ensures some { IfSome result (λ command. IsOfForm (form_of command) line.now) }
        ensures none { IfNone result ((form : Form) → IsOfForm form line.now → ⊥) }
    {
        let (name, rest) = split_word(line);
        if name == b"arr".as_slice() {
            return Some(Command::Arr(Words::new(rest)));
        }
        let rest = rest?;
        if name == b"enc".as_slice() {
            Some(Command::Enc(rest))
        } else if name == b"dec".as_slice() {
            Some(Command::Dec(rest))
        } else if name == b"pretty".as_slice() {
            Some(Command::Pretty(rest))
        } else if name == b"type".as_slice() {
            Some(Command::ItemType(rest))
        } else if name == b"get".as_slice() {
            parse_get(rest)
        } else if name == b"cmp".as_slice() {
            parse_cmp(rest)
        } else if name == b"canon".as_slice() {
            Some(Command::Canon(rest))
        } else {
            None
        }
    }
}

// `get` has a word, a space and a text as its arguments.
fn parse_get(words: &[u8]) -> Option<Command<'_>>
    ensures some { IfSome result (λ command.
        IsOfForm (form_of command) (codes "get " ++ words.now)) }
    ensures none { IfNone result ((form : Form) →
        IsOfForm form (codes "get " ++ words.now) → ⊥) }
{
    let (document, key) = split_word(words);
    Some(Command::Get {
        document,
        key: key?,
    })
}

// `cmp` has two words as its arguments.
fn parse_cmp(words: &[u8]) -> Option<Command<'_>>
    ensures some { IfSome result (λ command.
        IsOfForm (form_of command) (codes "cmp " ++ words.now)) }
    ensures none { IfNone result ((form : Form) →
        IsOfForm form (codes "cmp " ++ words.now) → ⊥) }
{
    let (left, right) = split_word(words);
    let (right, more) = split_word(right?);
    match more {
        None => Some(Command::Cmp { left, right }),
        Some(_) => None,
    }
}

impl Command<'_> {
    /// Executes the command. Running out of memory is an outcome too.
    pub fn answer(self, alloc: Global) -> Result<Answer, Refusal>
        ensures { IsAnswerOrRefusal IsFormAnswer (form_of self.entry) (outcome_line result) }
    {
        match self {
            Command::Enc(text) => answer_enc(alloc, text),
            Command::Dec(word) => answer_dec(alloc, word),
            Command::Pretty(word) => answer_pretty(alloc, word),
            Command::ItemType(word) => answer_type(alloc, word),
            Command::Get { document, key } => answer_get(alloc, document, key),
            Command::Cmp { left, right } => answer_cmp(alloc, left, right),
            Command::Arr(words) => answer_arr(alloc, words),
            Command::Canon(word) => answer_canon(alloc, word),
        }
    }
}

/// The outcome of a line: that of its command, or `BadCommand` if it has none. A line has exactly
/// one answer, and the outcome is that, or else `error OutOfMemory`, which `BadCommand` never
/// gives way to.
pub fn answer(alloc: Global, line: &[u8]) -> Result<Answer, Refusal>
    ensures { IsExactReply line.now (outcome_line result) }
{
    match Command::parse(line) {
        Some(command) => command.answer(alloc),
        None => Err(Refusal::BadCommand),
    }
}

/// The bytes of a hexadecimal word of either case; none for an empty word. `BadHex` if the word is
/// not hexadecimal, `OutOfMemory` if an allocation fails.
pub fn decode_word(alloc: Global, word: &[u8]) -> Result<Vec<u8>, Refusal>
    ensures ok { IfOk result (λ bytes. IsHexOf bytes.items word.now) }
    ensures bad { IsErrOf result Refusal.BadHex → (bytes : List ℕ) → IsHexOf bytes word.now → ⊥ }
    ensures refused { IfErr result (λ refusal.
        (refusal ≡ Refusal.BadHex) ⊎ (refusal ≡ Refusal.Call OutOfMemory)) }
{
    match hex::decode(alloc, word) {
        Ok(bytes) => Ok(bytes),
        Err(FromHexError::OutOfMemory) => Err(Refusal::Call(Error::OutOfMemory)),
        Err(_) => Err(Refusal::BadHex),
    }
}

/// The bytes of a hexadecimal word, as `decode_word` returns them, for a command that walks them.
/// `TooDeep` if checking them goes deeper than `MAX_WORD_DEPTH`, which never happens with a
/// document that nests at most so deep.
pub fn decode_shallow(alloc: Global, word: &[u8]) -> Result<Vec<u8>, Refusal>
    ensures ok { IfOk result (λ bytes. IsHexOf bytes.items word.now) }
    ensures shallow { IfOk result
        (λ bytes. IsDocument bytes.items ↔ IsDocumentWithin MAX_WORD_DEPTH bytes.items) }
    ensures bad { IsErrOf result Refusal.BadHex → (bytes : List ℕ) → IsHexOf bytes word.now → ⊥ }
    ensures deep { IsErrOf result Refusal.TooDeep → (bytes : List ℕ) → IsHexOf bytes word.now
        → IsDocumentWithin MAX_WORD_DEPTH bytes → ⊥ }
    ensures refused { IfErr result (λ refusal. (refusal ≡ Refusal.BadHex)
        ⊎ ((refusal ≡ Refusal.TooDeep) ⊎ (refusal ≡ Refusal.Call OutOfMemory))) }
{
    let bytes = decode_word(alloc, word)?;
    if nests_deeper(&bytes, MAX_WORD_DEPTH) {
        return Err(Refusal::TooDeep);
    }
    Ok(bytes)
}
