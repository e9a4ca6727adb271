//! The columns of a table, read from the words of a command.

ghost use Rattle.std.specs.Prelude.{◌≡◌, ◌≤◌, MatchOption, false, length, true};
ghost use Rattle.std.specs.List.{after_first, before_first, list_all};
ghost use Rattle.kohiblad_shell.specs.Words.{IsColumnWord, IsPlainName, column_words, is_column};
ghost use Rattle.kohiblad_shell.specs.Words.{is_equals, is_name_byte, is_named};

use crate::arguments::{has_iso_dates_in, operand_in, value_in, words_in};
use crate::extract::TypedPath;
use crate::messages::misuse;
use crate::operands::push_column;
use crate::removal::begins_path;
use clap::ArgMatches;

/// The columns that the arguments name, or the status after a fault of one is reported.
pub fn columns_in<'a>(
    rt: &HostRuntime,
    arguments: &ArgMatches<'a>,
) -> Result<Vec<TypedPath<'a>>, u8> {
    let mut columns = Vec::new(rt.alloc());
    let has_iso_dates = has_iso_dates_in(arguments);
    let (word, type_name) = (operand_in(arguments), value_in(arguments));
    push_column(rt, &mut columns, word, type_name, has_iso_dates)?;
    let words = words_in(arguments).unwrap_or(&[]);
    let (typed, files) = words.split_at(column_words(words));
    let mut left = typed;
    while let [word, type_name, rest @ ..] = left {
        push_column(rt, &mut columns, *word, *type_name, has_iso_dates)?;
        left = rest;
    }
    match files {
        [word, ..] if is_column(word) => Err(misuse(rt, "the last path has no type after it")),
        _ => Ok(columns),
    }
}

/// How many of these words, from the first on, stand for columns, and after each the name of a
/// type.
pub fn column_words(words: &[&str]) -> usize
    ensures count { result ≡ column_words words.now }
    ensures within { result ≤ length words.now }
{
    let mut count = 0;
    let mut left = words;
    while let [word, _, rest @ ..] = left {
        if !is_column(word) {
            return count;
        }
        count += 2;
        left = rest;
    }
    count
}

// Whether a word stands for a column: a path, which begins by `$`, or a name, `=` and a path.
fn is_column(word: &str) -> bool
    ensures { result ≡ is_column word.now }
{
    begins_path(word) || named_parts(word).is_some()
}

/// The name of a column and the text of its path, by the word for it: a name, `=` and a path, or
/// else a path alone, whose text is the name but for `$.` at its start.
pub fn split_name(word: &str) -> (&str, &str)
    ensures { IsColumnWord word.now result.0.now result.1.now }
{
    match named_parts(word) {
        Some(parts) => parts,
        None => (plain_name(word), word),
    }
}

// The name and the path of a word that has both.
fn named_parts(word: &str) -> Option<(&str, &str)>
    ensures { MatchOption result (is_named word.now ≡ false)
        (λ parts. (is_named word.now ≡ true)
        × (parts.0.now ≡ before_first is_equals word.now)
        × (parts.1.now ≡ after_first is_equals word.now)) }
{
    let (name, path) = word.split_once('=')?;
    if is_name(name) && begins_path(path) {
        Some((name, path))
    } else {
        None
    }
}

// Whether a text has only bytes that a name may have.
fn is_name(text: &str) -> bool
    ensures { result ≡ list_all is_name_byte text.now }
{
    text.as_bytes().iter().all(|byte| is_name_byte(*byte))
}

// Whether a name may have a byte: of a letter, a digit, a space, `_`, `-` or `.`, where each
// character past ASCII counts as a letter.
fn is_name_byte(byte: u8) -> bool
    ensures { result ≡ is_name_byte byte }
{
    matches!(
        byte,
        b'a'..=b'z' | b'A'..=b'Z' | b'0'..=b'9' | b' ' | b'_' | b'-' | b'.' | 128..=255
    )
}

// The text of a path, without `$.` at its start.
fn plain_name(path: &str) -> &str
    ensures { IsPlainName path.now result.now }
{
    match path.strip_prefix("$.") {
        Some(name) => name,
        None => path,
    }
}
