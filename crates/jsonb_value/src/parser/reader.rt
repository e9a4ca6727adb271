//! The reader: a loop at a value, and one after a value, with a call of a sink for each value, key
//! and bracket of a text.
//! Nested values take no stack: of each open container it keeps whether it is an object.

ghost use Rattle.std.specs.Prelude.{◌≡◌, ◌↔◌, ℕ, ◌<◌, ◌≤◌, List, [], ◌∷◌, length, chars, Option};
ghost use Rattle.std.specs.Prelude.{Bool, IfOk, IfErr, None, OnOk, Some, codes};
ghost use Rattle.jsonb_value.specs.declared.parser.number.Exponents.{Exponents};
ghost use Rattle.jsonb_value.specs.Tree.{Tree, null, boolean, number, text as text_tree};
ghost use Rattle.jsonb_value.specs.declared.number.Number.{Number};
ghost use Rattle.jsonb_value.specs.Reader.Gives.{Fails, FailsIf, FailsString, Gives, GivesString};
ghost use Rattle.jsonb_value.specs.Reader.Kind.{kind_view};
ghost use Rattle.jsonb_value.specs.Reader.OpenKinds.{kinds_held};
ghost use Rattle.jsonb_value.specs.Reader.Reading.{kind_begun, read_document, read_number};
ghost use Rattle.jsonb_value.specs.Reader.Reading.{read_word};
ghost use Rattle.jsonb_value.specs.Reader.Resume.{Adds, AddsKey, IsAtValue, IsAfterValue};
ghost use Rattle.jsonb_value.specs.Reader.Resume.{IsAtKey};
ghost use Rattle.jsonb_value.specs.Reader.IsAt.{IsAtStep, left};
ghost use Rattle.jsonb_value.specs.Reader.IsWithin.{IsWithin, IsStepWithin};
ghost use Rattle.jsonb_value.specs.TextDepth.{text_depth};
ghost use Rattle.jsonb_value.specs.Reader.Resume.{Content, going, innermost, members, whole};
ghost use Rattle.jsonb_value.specs.Json.Syntax.{Entries, JsonText};
ghost use Rattle.jsonb_value.specs.Json.Characters.{open_bracket, open_brace};

use crate::error::Error;
use crate::parser::cursor::{after_all, after_char, skip_blank, split_ascii};
use crate::parser::number::{Exponents, read_number, read_short_number};
use crate::parser::open_kinds::OpenKinds;
use crate::parser::sink::Sink;
use crate::parser::string::{read_string, split_plain};
use std::alloc::Global;

// The kind of a value, known from its first character.
#[derive(Clone, Copy)]
enum Kind {
    Null,
    True,
    False,
    String,
    Array,
    Object,
    Number,
}

fn kind_of(first: char) -> Kind
    ensures { kind_view result ≡ kind_begun first }
{
    match first {
        'n' => Kind::Null,
        't' => Kind::True,
        'f' => Kind::False,
        '"' => Kind::String,
        '[' => Kind::Array,
        '{' => Kind::Object,
        _ => Kind::Number,
    }
}

// Reads the rest of `null`, `true` or `false`; returns the text after it.
fn read_word<'a>(text: &'a str, word: &[char]) -> Result<&'a str, Error>
    ensures { (t : Tree)
        → Gives (λ rest. (t, chars rest.now)) result (read_word word.now t (chars text.now)) }
{
    after_all(text, word).ok_or(Error::InvalidJson)
}

/// What comes next, and the text that is left.
#[derive(Clone, Copy)]
pub enum Step<'a> {
    /// A value, without white space before it.
    Value(&'a str),
    /// What follows a value.
    After(&'a str),
    /// Nothing: the text ended after its value.
    End,
}

// Gives the sink null, from after its first character; returns the text after it.
#[inline(always)]
fn give_null<'a, S: Sink<'a>>(sink: &mut S, text: &'a str) -> Result<&'a str, Error>
    ensures ok { IfOk result (λ after.
        (read_word (codes "ull") null (chars text.now) ≡ Some (null, chars after.now))
        × Adds S.is sink.old sink.new null) }
    ensures err { IfErr result (λ e. Fails e (read_word (codes "ull") null (chars text.now))) }
{
    let after = read_word(text, &['u', 'l', 'l'])?;
    sink.null()?;
    Ok(after)
}

// Gives the sink a truth value, if the text begins with the rest of its word; returns the text
// after that.
#[inline(always)]
fn give_truth<'a, S: Sink<'a>>(
    sink: &mut S,
    truth: bool,
    word: &[char],
    text: &'a str,
) -> Result<&'a str, Error>
    ensures ok { IfOk result (λ after. (read_word word.now (boolean truth) (chars text.now)
        ≡ Some (boolean truth, chars after.now)) × Adds S.is sink.old sink.new (boolean truth)) }
    ensures err { IfErr result
        (λ e. Fails e (read_word word.now (boolean truth) (chars text.now))) }
{
    let after = read_word(text, word)?;
    sink.truth(truth)?;
    Ok(after)
}

// Gives the sink a number, in 128 bits; returns the text after it.
#[cold]
#[inline(never)]
fn give_long_number<'a, S: Sink<'a>>(
    sink: &mut S,
    exponents: Exponents,
    text: &'a str,
) -> Result<&'a str, Error>
    ensures ok { IfOk result (λ after. (n : Number)
        × ((read_number exponents (chars text.now) ≡ Some (n, chars after.now))
        × Adds S.is sink.old sink.new (number n))) }
    ensures err { IfErr result (λ e. Fails e (read_number exponents (chars text.now))) }
{
    let Some((number, after)) = read_number(exponents, text) else {
        return Err(Error::InvalidJson);
    };
    sink.number(number)?;
    Ok(after)
}

// Gives the sink a number; returns the text after it.
#[inline(always)]
fn give_number<'a, S: Sink<'a>>(
    sink: &mut S,
    exponents: Exponents,
    text: &'a str,
) -> Result<&'a str, Error>
    ensures ok { IfOk result (λ after. (n : Number)
        × ((read_number exponents (chars text.now) ≡ Some (n, chars after.now))
        × Adds S.is sink.old sink.new (number n))) }
    ensures err { IfErr result (λ e. Fails e (read_number exponents (chars text.now))) }
{
    let Some((number, after)) = read_short_number(text) else {
        return give_long_number(sink, exponents, text);
    };
    sink.number(number)?;
    Ok(after)
}

// Gives the sink a string, from after its opening quote; returns the text after its closing quote.
#[inline(always)]
fn give_string<'a, S: Sink<'a>>(
    sink: &mut S,
    content: &mut String,
    text: &'a str,
) -> Result<&'a str, Error>
    ensures ok { IfOk result (λ after. (string : List ℕ)
        × (GivesString (chars text.now) string (chars after.now)
        × Adds S.is sink.old sink.new (text_tree string))) }
    ensures err { IfErr result (FailsString (chars text.now)) }
{
    let (front, rest) = split_plain(text);
    if let Some(after) = after_char(rest, '"') {
        sink.string(front)?;
        return Ok(after);
    }
    let after = read_string(content, front, rest)?;
    sink.spelled(content.as_str())?;
    Ok(after)
}

// Gives the sink a key, likewise.
#[inline(always)]
fn give_key<'a, S: Sink<'a>>(
    sink: &mut S,
    content: &mut String,
    text: &'a str,
) -> Result<&'a str, Error>
    requires { (front : Entries) × ((cs : List Content)
        × S.is sink.old (going (members front ∷ cs))) }
    ensures ok { IfOk result (λ after. (key : List ℕ)
        × (GivesString (chars text.now) key (chars after.now)
        × AddsKey S.is sink.old sink.new key)) }
    ensures err { IfErr result (FailsString (chars text.now)) }
{
    let (front, rest) = split_plain(text);
    if let Some(after) = after_char(rest, '"') {
        sink.key(front)?;
        return Ok(after);
    }
    let after = read_string(content, front, rest)?;
    sink.spelled_key(content.as_str())?;
    Ok(after)
}

// Ends the text after a value: nothing may be left of it, and no container be open.
fn end_text<'a>(kinds: &OpenKinds, rest: &str) -> Result<Step<'a>, Error>
    ensures ok { IfOk result (λ step. (step ≡ Step.End) × ((chars rest.now ≡ [])
        × (innermost (kinds_held kinds.now) ≡ None))) }
    ensures err { IfErr result (λ e. (e ≡ Error.InvalidJson) × (chars rest.now ≡ []
        → innermost (kinds_held kinds.now) ≡ None → ⊥)) }
{
    if rest.is_empty() && kinds.innermost().is_none() {
        Ok(Step::End)
    } else {
        Err(Error::InvalidJson)
    }
}

// Reads what follows a value: a comma, the end of its container, or the end of the text.
fn go_on<'a, S: Sink<'a>>(
    sink: &mut S,
    kinds: &mut OpenKinds,
    content: &mut String,
    text: &'a str,
) -> Result<Step<'a>, Error>
    requires { (rule : Exponents) × ((target : Option Tree)
        × IsAfterValue rule S.is target sink.old (kinds_held kinds.old) (chars text.now)) }
    ensures ok { IfOk result (λ step. (rule : Exponents) (target : Option Tree)
        → IsAfterValue rule S.is target sink.old (kinds_held kinds.old) (chars text.now)
        → IsAtStep rule S.is target sink.new (kinds_held kinds.new) step) }
    ensures err { IfErr result (λ e. (rule : Exponents) (target : Option Tree)
        → IsAfterValue rule S.is target sink.old (kinds_held kinds.old) (chars text.now)
        → Fails e target) }
    ensures deep { IfOk result
        (λ step. IsWithin kinds.old (chars text.now) ↔ IsStepWithin kinds.new step) }
    ensures shorter { IfOk result (λ step. left step ≤ length (chars text.now)) }
{
    let rest = skip_blank(text);
    let Some((mark, after)) = split_ascii(rest) else {
        return end_text(kinds, rest);
    };
    let Some(is_object) = kinds.innermost() else {
        return Err(Error::InvalidJson);
    };
    if mark == ',' {
        return if is_object {
            Ok(Step::Value(read_key(sink, content, after)?))
        } else {
            Ok(Step::Value(skip_blank(after)))
        };
    }
    if is_object {
        if mark != '}' {
            return Err(Error::InvalidJson);
        }
        sink.end_object()?;
        kinds.pop();
        return Ok(Step::After(after));
    }
    if mark != ']' {
        return Err(Error::InvalidJson);
    }
    sink.end_array()?;
    kinds.pop();
    Ok(Step::After(after))
}

// Reads a scalar, or the beginning of a container.
fn begin<'a, S: Sink<'a>>(
    sink: &mut S,
    kinds: &mut OpenKinds,
    content: &mut String,
    text: &'a str,
    exponents: Exponents,
) -> Result<Step<'a>, Error>
    requires { (target : Option Tree)
        × IsAtValue exponents S.is target sink.old (kinds_held kinds.old) (chars text.now) }
    ensures ok { IfOk result (λ step. (target : Option Tree)
        → IsAtValue exponents S.is target sink.old (kinds_held kinds.old) (chars text.now)
        → IsAtStep exponents S.is target sink.new (kinds_held kinds.new) step) }
    ensures err { IfErr result (λ e. (target : Option Tree)
        → IsAtValue exponents S.is target sink.old (kinds_held kinds.old) (chars text.now)
        → FailsIf (IsWithin kinds.old (chars text.now)) e target) }
    ensures deep { IfOk result
        (λ step. IsWithin kinds.old (chars text.now) ↔ IsStepWithin kinds.new step) }
    ensures shorter { IfOk result (λ step. left step ≤ length (chars text.now)) }
{
    let Some((first, rest)) = split_ascii(text) else {
        return Err(Error::InvalidJson);
    };
    match kind_of(first) {
        Kind::Array => begin_array(sink, kinds, text),
        Kind::Object => begin_object(sink, kinds, content, text),
        Kind::Null => Ok(Step::After(give_null(sink, rest)?)),
        Kind::True => Ok(Step::After(give_truth(sink, true, &['r', 'u', 'e'], rest)?)),
        Kind::False => Ok(Step::After(give_truth(sink, false, &['a', 'l', 's', 'e'], rest)?)),
        Kind::String => Ok(Step::After(give_string(sink, content, rest)?)),
        Kind::Number => Ok(Step::After(give_number(sink, exponents, text)?)),
    }
}

// Reads the beginning of an array, and its end if it is empty. An array that is one too deep is
// refused.
fn begin_array<'a, S: Sink<'a>>(
    sink: &mut S,
    kinds: &mut OpenKinds,
    text: &'a str,
) -> Result<Step<'a>, Error>
    requires first { (s : List ℕ) × (chars text.now ≡ open_bracket ∷ s) }
    requires stands { (rule : Exponents) × ((target : Option Tree)
        × IsAtValue rule S.is target sink.old (kinds_held kinds.old) (chars text.now)) }
    ensures ok { IfOk result (λ step. (rule : Exponents) (target : Option Tree)
        → IsAtValue rule S.is target sink.old (kinds_held kinds.old) (chars text.now)
        → IsAtStep rule S.is target sink.new (kinds_held kinds.new) step) }
    ensures err { IfErr result (λ e. (target : Option Tree)
        → FailsIf (IsWithin kinds.old (chars text.now)) e target) }
    ensures deep { IfOk result
        (λ step. IsWithin kinds.old (chars text.now) ↔ IsStepWithin kinds.new step) }
    ensures shorter { IfOk result (λ step. left step ≤ length (chars text.now)) }
{
    let Some((_, rest)) = split_ascii(text) else {
        unreachable!();
    };
    if kinds.is_full() {
        return Err(Error::InvalidJson);
    }
    sink.begin_array()?;
    let inside = skip_blank(rest);
    if let Some(after) = after_char(inside, ']') {
        sink.end_array()?;
        return Ok(Step::After(after));
    }
    kinds.push(false)?;
    Ok(Step::Value(inside))
}

// Reads the beginning of an object, likewise.
fn begin_object<'a, S: Sink<'a>>(
    sink: &mut S,
    kinds: &mut OpenKinds,
    content: &mut String,
    text: &'a str,
) -> Result<Step<'a>, Error>
    requires first { (s : List ℕ) × (chars text.now ≡ open_brace ∷ s) }
    requires stands { (rule : Exponents) × ((target : Option Tree)
        × IsAtValue rule S.is target sink.old (kinds_held kinds.old) (chars text.now)) }
    ensures ok { IfOk result (λ step. (rule : Exponents) (target : Option Tree)
        → IsAtValue rule S.is target sink.old (kinds_held kinds.old) (chars text.now)
        → IsAtStep rule S.is target sink.new (kinds_held kinds.new) step) }
    ensures err { IfErr result (λ e. (rule : Exponents) (target : Option Tree)
        → IsAtValue rule S.is target sink.old (kinds_held kinds.old) (chars text.now)
        → FailsIf (IsWithin kinds.old (chars text.now)) e target) }
    ensures deep { IfOk result
        (λ step. IsWithin kinds.old (chars text.now) ↔ IsStepWithin kinds.new step) }
    ensures shorter { IfOk result (λ step. left step ≤ length (chars text.now)) }
{
    let Some((_, rest)) = split_ascii(text) else {
        unreachable!();
    };
    if kinds.is_full() {
        return Err(Error::InvalidJson);
    }
    sink.begin_object()?;
    if let Some(after) = after_char(skip_blank(rest), '}') {
        sink.end_object()?;
        return Ok(Step::After(after));
    }
    kinds.push(true)?;
    Ok(Step::Value(read_key(sink, content, rest)?))
}

// Reads a key and its colon; returns the text of its value, without white space before it.
#[inline(always)]
fn read_key<'a, S: Sink<'a>>(
    sink: &mut S,
    content: &mut String,
    text: &'a str,
) -> Result<&'a str, Error>
    requires { (rule : Exponents) × ((target : Option Tree) × ((kinds : List Bool)
        × IsAtKey rule S.is target sink.old kinds (chars text.now))) }
    ensures ok { IfOk result (λ next. (rule : Exponents) (target : Option Tree) (kinds : List Bool)
        → IsAtKey rule S.is target sink.old kinds (chars text.now)
        → IsAtValue rule S.is target sink.new kinds (chars next.now)) }
    ensures err { IfErr result (λ e. (rule : Exponents) (target : Option Tree) (kinds : List Bool)
        → IsAtKey rule S.is target sink.old kinds (chars text.now) → Fails e target) }
    ensures deep { IfOk result (λ next. (kinds : OpenKinds)
        → IsWithin kinds (chars text.now) ↔ IsWithin kinds (chars next.now)) }
    ensures shorter { IfOk result (λ next. length (chars next.now) < length (chars text.now)) }
{
    let Some(opened) = after_char(skip_blank(text), '"') else {
        return Err(Error::InvalidJson);
    };
    let after = give_key(sink, content, opened)?;
    let Some(later) = after_char(skip_blank(after), ':') else {
        return Err(Error::InvalidJson);
    };
    Ok(skip_blank(later))
}

/// Reads a whole text, and calls the sink for each part of it. `InvalidJson` if it is not a JSON
/// text, `OutOfMemory` if an allocation fails.
pub fn read_text<'a, S: Sink<'a>>(
    alloc: Global,
    sink: &mut S,
    text: &'a str,
    exponents: Exponents,
) -> Result<(), Error>
    requires { S.is sink.old (going []) }
    ensures ok { OnOk result ((t : Tree)
        × (JsonText exponents (chars text.now) t × S.is sink.new (whole t))) }
    ensures err { IfErr result (λ e. Fails e (read_document exponents (chars text.now))) }
{
    // No more brackets are open than there are bytes.
    read_text_within(alloc, sink, text, exponents, text.len())
}

/// Reads a whole text as `read_text` does, if at most `depth` of its brackets are open at once,
/// those in strings not counted. `InvalidJson` also if the text is deeper, which is found where it
/// is: `refusal_within` tells why a text was refused.
pub fn read_text_within<'a, S: Sink<'a>>(
    alloc: Global,
    sink: &mut S,
    text: &'a str,
    exponents: Exponents,
    depth: usize,
) -> Result<(), Error>
    requires { S.is sink.old (going []) }
    ensures ok { OnOk result ((t : Tree)
        × (JsonText exponents (chars text.now) t × S.is sink.new (whole t))) }
    ensures within { OnOk result (text_depth text.now ≤ depth) }
    ensures err { IfErr result (λ e. FailsIf (text_depth text.now ≤ depth) e
        (read_document exponents (chars text.now))) }
{
    let mut kinds = OpenKinds::new(alloc, depth);
    let mut content = String::new(alloc);
    let mut step = Step::Value(skip_blank(text));
    'values: while let Step::Value(rest) = step {
        step = begin(sink, &mut kinds, &mut content, rest, exponents)?;
        'after: while let Step::After(rest) = step {
            step = go_on(sink, &mut kinds, &mut content, rest)?;
        }
    }
    Ok(())
}
