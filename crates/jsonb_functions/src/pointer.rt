//! JSON pointers.

ghost use Rattle.std.specs.Prelude.{◌≡◌, ◌↔◌, IfErr, IfOk, List, Some, false, option_map, ℕ};
ghost use Rattle.std.specs.List.{prefix_len};
ghost use Rattle.jsonb_functions.specs.Names.{name_and_rest, names_of};
ghost use Rattle.jsonb_functions.specs.Pointer.{character_of, is_unescaped, pointer_name};
ghost use Rattle.jsonb_functions.specs.Pointer.{pointer_of, unescaped};

use crate::marks::split_mark;
use jsonb::Error;
use std::alloc::{AllocError, Global};

/// The names in a JSON pointer (RFC 6901): each is written after a `/`, with `~1` for a `/` in it
/// and `~0` for a `~`. The empty text has none, and is the pointer to the whole value. `None` if
/// the text is not a pointer: it does not begin with `/`, or another character follows a `~`.
/// `OutOfMemory`, the only error, if an allocation fails.
pub fn read_pointer(alloc: Global, text: &str) -> Result<Option<Vec<String>>, Error>
    ensures ok { IfOk result (λ read. (names : List (List ℕ)) → (text.now ≡ pointer_of names)
        ↔ (option_map names_of read ≡ Some names)) }
    ensures memory { IfErr result (λ e. e ≡ Error.OutOfMemory) }
{
    let mut names = Vec::new(alloc);
    let mut left = text;
    while !left.is_empty() {
        let Some((name, rest)) = read_name(alloc, left)? else {
            return Ok(None);
        };
        names.push(name)?;
        left = rest;
    }
    Ok(Some(names))
}

// The first name of a pointer, and what is after it.
fn read_name<'a>(alloc: Global, text: &'a str) -> Result<Option<(String, &'a str)>, AllocError>
    ensures { IfOk result (λ read. option_map name_and_rest read ≡ pointer_name text.now) }
{
    let Some((mark, rest)) = split_mark(text) else {
        return Ok(None);
    };
    if mark != b'/' {
        return Ok(None);
    }
    unescape(alloc, rest)
}

// A name up to the next slash or the end, and the rest.
fn unescape<'a>(alloc: Global, text: &'a str) -> Result<Option<(String, &'a str)>, AllocError>
    ensures { IfOk result (λ read. option_map name_and_rest read ≡ unescaped false text.now) }
{
    let mut name = String::new(alloc);
    let mut left = text;
    'runs: loop {
        let end = run_len(left);
        name.push_str(&left[..end])?;
        let rest = &left[end..];
        let Some((mark, after)) = split_mark(rest) else {
            return Ok(Some((name, rest)));
        };
        if mark != b'~' {
            return Ok(Some((name, rest)));
        }
        let Some((code, next)) = split_mark(after) else {
            return Ok(None);
        };
        let Some(character) = character_of(code) else {
            return Ok(None);
        };
        name.push(character)?;
        left = next;
    }
}

// How many bytes are before the first slash or tilde.
fn run_len(text: &str) -> usize
    ensures { result ≡ prefix_len is_unescaped text.now }
{
    let bytes = text.as_bytes();
    bytes.iter().take_while(|byte| is_unescaped(**byte)).count()
}

// Whether a byte is neither a slash nor a tilde.
fn is_unescaped(byte: u8) -> bool
    ensures { result ≡ is_unescaped byte }
{
    byte != b'/' && byte != b'~'
}

// The character that is written as `~` and this byte.
fn character_of(code: u8) -> Option<char>
    ensures { result ≡ character_of code }
{
    match code {
        b'0' => Some('~'),
        b'1' => Some('/'),
        _ => None,
    }
}
