//! Lists of names.

ghost use Rattle.std.specs.Prelude.{◌≡◌, ◌↔◌, ◌<◌, IfErr, IfOk, List, Some, false, option_map, ℕ};
ghost use Rattle.std.specs.List.{prefix_len};
ghost use Rattle.jsonb_functions.specs.NameList.{NameList, is_null, is_plain_byte, is_unquoted};
ghost use Rattle.jsonb_functions.specs.NameList.{list_name, name_after, plain_name, quoted};
ghost use Rattle.jsonb_functions.specs.Names.{name_and_rest, names_of};

use crate::marks::split_mark;
use jsonb::Error;
use std::alloc::{AllocError, Global};

/// The names in a list that is written as PostgreSQL writes an array of texts: `{a,0,"b c"}`. A
/// name is between quotes, where `\` takes the next character as it is, or it is plain: not empty,
/// not `NULL` in any case, and without braces, commas, quotes, backslashes and the six white space
/// characters of ASCII. `{}` has no names. `None` for any other text, such as one with a list in a
/// list or an unquoted `NULL`. `OutOfMemory`, the only error, if an allocation fails.
pub fn read_name_list(alloc: Global, text: &str) -> Result<Option<Vec<String>>, Error>
    ensures ok { IfOk result (λ read. (names : List (List ℕ)) → NameList text.now names
        ↔ (option_map names_of read ≡ Some names)) }
    ensures memory { IfErr result (λ e. e ≡ Error.OutOfMemory) }
{
    let mut names = Vec::new(alloc);
    if text == "{}" {
        return Ok(Some(names));
    }
    let Some((name, rest)) = read_after(alloc, b'{', text)? else {
        return Ok(None);
    };
    names.push(name)?;
    let mut left = rest;
    while left != "}" {
        let Some((name, rest)) = read_after(alloc, b',', left)? else {
            return Ok(None);
        };
        names.push(name)?;
        left = rest;
    }
    Ok(Some(names))
}

// The name after this mark, and what is after the name.
fn read_after<'a>(
    alloc: Global,
    mark: u8,
    text: &'a str,
) -> Result<Option<(String, &'a str)>, AllocError>
    requires { mark < 128 }
    ensures { IfOk result (λ read. option_map name_and_rest read ≡ name_after mark text.now) }
{
    let Some((first, rest)) = split_mark(text) else {
        return Ok(None);
    };
    if first != mark {
        return Ok(None);
    }
    read_name(alloc, rest)
}

// The name with which a text begins, and what is after it.
fn read_name<'a>(alloc: Global, text: &'a str) -> Result<Option<(String, &'a str)>, AllocError>
    ensures { IfOk result (λ read. option_map name_and_rest read ≡ list_name text.now) }
{
    let Some((mark, rest)) = split_mark(text) else {
        return read_plain(alloc, text);
    };
    if mark != b'"' {
        return read_plain(alloc, text);
    }
    read_quoted(alloc, rest)
}

// A plain name, and what is after it.
fn read_plain<'a>(alloc: Global, text: &'a str) -> Result<Option<(String, &'a str)>, AllocError>
    ensures { IfOk result (λ read. option_map name_and_rest read ≡ plain_name text.now) }
{
    let end = plain_len(text);
    let name = &text[..end];
    if name.is_empty() || is_null(name) {
        return Ok(None);
    }
    Ok(Some((String::from_str(alloc, name)?, &text[end..])))
}

// Whether a name is `NULL`, in any case.
fn is_null(name: &str) -> bool
    ensures { result ≡ is_null name.now }
{
    name.eq_ignore_ascii_case("NULL")
}

// How many bytes are before the first one that is not plain.
fn plain_len(text: &str) -> usize
    ensures { result ≡ prefix_len is_plain_byte text.now }
{
    let bytes = text.as_bytes();
    bytes
        .iter()
        .take_while(|byte| is_plain_byte(**byte))
        .count()
}

// Whether a byte may be in a plain name.
fn is_plain_byte(byte: u8) -> bool
    ensures { result ≡ is_plain_byte byte }
{
    !matches!(
        byte,
        b'\t'..=b'\r' | b' ' | b'"' | b',' | b'\\' | b'{' | b'}'
    )
}

// A name up to its closing quote, and what is after that.
fn read_quoted<'a>(alloc: Global, text: &'a str) -> Result<Option<(String, &'a str)>, AllocError>
    ensures { IfOk result (λ read. option_map name_and_rest read ≡ quoted false text.now) }
{
    let mut name = String::new(alloc);
    let mut left = text;
    'runs: loop {
        let end = run_len(left);
        name.push_str(&left[..end])?;
        let rest = &left[end..];
        let Some((mark, after)) = split_mark(rest) else {
            return Ok(None);
        };
        if mark == b'"' {
            return Ok(Some((name, after)));
        }
        let Some((byte, next)) = split_mark(after) else {
            left = after;
            continue;
        };
        name.push(char::from(byte))?;
        left = next;
    }
}

// How many bytes are before the first quote or backslash.
fn run_len(text: &str) -> usize
    ensures { result ≡ prefix_len is_unquoted text.now }
{
    let bytes = text.as_bytes();
    bytes.iter().take_while(|byte| is_unquoted(**byte)).count()
}

// Whether a byte is neither a quote nor a backslash.
fn is_unquoted(byte: u8) -> bool
    ensures { result ≡ is_unquoted byte }
{
    byte != b'"' && byte != b'\\'
}
