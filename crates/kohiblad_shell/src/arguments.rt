//! What the arguments of a command say.

ghost use Rattle.std.specs.Prelude.{◌≡◌, IfSome, codes, false, map, option_map};
ghost use Rattle.kohiblad_shell.specs.Words.{IsFlag, IsMemory, are_documents, are_texts};
ghost use Rattle.kohiblad_shell.specs.Arguments.{is_items, is_values, texts_of};
ghost use Rattle.kohiblad_shell.specs.Words.{are_items, are_values, colors_of, exponents_of};
ghost use Rattle.kohiblad_shell.specs.Words.{first_value, form_of};
ghost use Rattle.kohiblad_shell.specs.Words.{found_of, is_pretty, is_raw, is_tsv};
ghost use Rattle.kohiblad_shell.specs.Words.{passes_empty_lines, shows_of, stops_of, text_or};
ghost use Rattle.kohiblad_shell.specs.Words.{value_of, values_of};

use crate::commands::End;
use crate::input::{Form, Reading, TextForm};
use crate::operand_kind::ValueKind;
use crate::operation::{Style, TextLayout};
use crate::part_lines::Look;
use crate::size::size_of;
use crate::sort::Arrangement;
use crate::table_text::TableLayout;
use clap::ArgMatches;
use jsonb::Exponents;
use jsonb_pattern::Flags;

// How much memory the rows of a sort may take if nothing is said.
const USUAL_MEMORY: u64 = 1 << 30;

/// The operand that was given to a command: a path, or a JSON text; empty if there is none.
pub fn operand_in<'a>(arguments: &ArgMatches<'a>) -> &'a str
    ensures { result.now ≡ value_of arguments.now (codes "operand") }
{
    match arguments.get_str("operand") {
        Some(operand) => operand,
        None => "",
    }
}

/// The second operand that was given to a command: a JSON text; empty if there is none.
pub fn value_in<'a>(arguments: &ArgMatches<'a>) -> &'a str
    ensures { result.now ≡ value_of arguments.now (codes "value") }
{
    match arguments.get_str("value") {
        Some(value) => value,
        None => "",
    }
}

/// How many rows are wanted, by the operand. `None` if that is no whole number, or one of more than
/// 64 bits.
pub fn limit_in(arguments: &ArgMatches<'_>) -> Option<usize> {
    operand_in(arguments).parse::<usize>().ok()
}

/// Whether the counts of a survey are to be written as JSON.
pub fn writes_json_in(arguments: &ArgMatches<'_>) -> bool
    ensures { IsFlag arguments.now (codes "json") result }
{
    has_flag(arguments, "json")
}

/// Whether texts are read as dates and timestamps, and these written as texts.
pub fn has_iso_dates_in(arguments: &ArgMatches<'_>) -> bool
    ensures { IsFlag arguments.now (codes "iso-dates") result }
{
    has_flag(arguments, "iso-dates")
}

/// How the lines of a table are laid out: with tabs if the flag says so.
pub fn table_layout_in(arguments: &ArgMatches<'_>) -> TableLayout
    ensures { IsFlag arguments.now (codes "tsv") (is_tsv result) }
{
    if has_flag(arguments, "tsv") {
        TableLayout::Tsv
    } else {
        TableLayout::Csv
    }
}

/// Whether the first line of a table is the names of its columns.
pub fn has_heading_in(arguments: &ArgMatches<'_>) -> bool
    ensures { IsFlag arguments.now (codes "header") result }
{
    has_flag(arguments, "header")
}

/// What the values among the operands are: texts if the flag says so, or else JSON texts.
pub fn value_kind_in(arguments: &ArgMatches<'_>) -> ValueKind
    ensures { IsFlag arguments.now (codes "text") (are_texts result) }
{
    if has_flag(arguments, "text") {
        ValueKind::Text
    } else {
        ValueKind::Json
    }
}

/// The words after the operands: files, and before them more paths where a command takes several.
pub fn words_in<'m, 'a>(arguments: &'m ArgMatches<'a>) -> Option<&'m [&'a str]>
    ensures { option_map (λ words. map (λ word. word.now) words.now) result
        ≡ values_of arguments.now (codes "file") }
{
    arguments.get_strs("file")
}

// Whether a flag is set.
fn has_flag(arguments: &ArgMatches<'_>, id: &str) -> bool
    ensures { IsFlag arguments.now id.now result }
{
    arguments.get_flag(id)
}

/// How values are to be written: raw if the flag says so.
pub fn style_in(arguments: &ArgMatches<'_>) -> Style
    ensures { IsFlag arguments.now (codes "raw") (is_raw result) }
{
    if has_flag(arguments, "raw") {
        Style::Raw
    } else {
        Style::Json
    }
}

/// How documents are to be laid out: on several lines if the flag says so.
pub fn layout_in(arguments: &ArgMatches<'_>) -> TextLayout
    ensures { IsFlag arguments.now (codes "pretty") (is_pretty result) }
{
    if has_flag(arguments, "pretty") {
        TextLayout::Pretty
    } else {
        TextLayout::Compact
    }
}

/// In which form rows are read and written by a command that ends so: as documents if the flag says
/// so, or else as the items of an array or as values if another flag does, or else as lines. Numbers
/// of texts may have exponents unless these are refused. Some commands pass over lines of white
/// space alone.
pub fn form_in(arguments: &ArgMatches<'_>, end: End) -> Form
    ensures documents { IsFlag arguments.now (codes "documents") (are_documents result) }
    ensures items { are_documents result ≡ false
        → IsFlag arguments.now (codes "array") (are_items result) }
    ensures values { are_documents result ≡ false → are_items result ≡ false
        → IsFlag arguments.now (codes "values") (are_values result) }
    ensures form { result ≡ form_of (are_documents result) (record {
      exponents = exponents_of (first_value (found_of arguments.now) (codes "exponents"));
      passes_over_empty = passes_empty_lines end;
      texts = texts_of (are_items result) (are_values result);
    }) }
{
    if has_flag(arguments, "documents") {
        return Form::Documents;
    }
    Form::Lines(Reading {
        exponents: exponents_in(arguments),
        passes_over_empty: end.passes_empty_lines(),
        texts: texts_in(arguments),
    })
}

// How texts stand one after another.
fn texts_in(arguments: &ArgMatches<'_>) -> TextForm
    ensures items { IsFlag arguments.now (codes "array") (is_items result) }
    ensures values { is_items result ≡ false
        → IsFlag arguments.now (codes "values") (is_values result) }
{
    if has_flag(arguments, "array") {
        TextForm::Items
    } else if has_flag(arguments, "values") {
        TextForm::Values
    } else {
        TextForm::Lines
    }
}

// Whether numbers of rows may have exponents.
fn exponents_in(arguments: &ArgMatches<'_>) -> Exponents
    ensures { result
        ≡ exponents_of (first_value (found_of arguments.now) (codes "exponents")) }
{
    match arguments.get_str("exponents") {
        Some("refuse") => Exponents::Forbidden,
        _ => Exponents::Allowed,
    }
}

/// Whether nothing is to be said of a path, or a name, at which no row has a value.
pub fn is_quiet_in(arguments: &ArgMatches<'_>) -> bool
    ensures { IsFlag arguments.now (codes "quiet") result }
{
    has_flag(arguments, "quiet")
}

/// How parts are to be shown, where `is_terminal` holds if a terminal shows what is written.
pub fn look_in(arguments: &ArgMatches<'_>, is_terminal: bool) -> Look
    ensures whole { IsFlag arguments.now (codes "whole") result.is_whole }
    ensures colored { result.is_colored
        ≡ colors_of (first_value (found_of arguments.now) (codes "color")) is_terminal }
{
    Look {
        is_whole: has_flag(arguments, "whole"),
        is_colored: colors_in(arguments, is_terminal),
    }
}

// Whether words have colors.
fn colors_in(arguments: &ArgMatches<'_>, is_terminal: bool) -> bool
    ensures { result
        ≡ colors_of (first_value (found_of arguments.now) (codes "color")) is_terminal }
{
    match arguments.get_str("color") {
        Some(word) => word == "always" || word == "auto" && is_terminal,
        None => is_terminal,
    }
}

/// How sorted rows are to be arranged, by two flags.
pub fn arrangement_in(arguments: &ArgMatches<'_>) -> Arrangement
    ensures reversed { IsFlag arguments.now (codes "reverse") result.is_reversed }
    ensures unique { IsFlag arguments.now (codes "unique") result.is_unique }
{
    Arrangement {
        is_reversed: has_flag(arguments, "reverse"),
        is_unique: has_flag(arguments, "unique"),
    }
}

/// The file for the rows; `-` if none is named, for standard output.
pub fn output_in<'a>(arguments: &ArgMatches<'a>) -> &'a str
    ensures { result.now ≡ text_or (codes "-")
        (first_value (found_of arguments.now) (codes "output")) }
{
    match arguments.get_str("output") {
        Some(output) => output,
        None => "-",
    }
}

/// Whether a line is to say how far the run is, where `otherwise` holds if the arguments do not
/// say.
pub fn shows_progress_in(arguments: &ArgMatches<'_>, otherwise: bool) -> bool
    ensures { result
        ≡ shows_of (first_value (found_of arguments.now) (codes "progress")) otherwise }
{
    match arguments.get_str("progress") {
        Some(word) if word == "always" => true,
        Some(word) if word == "never" => false,
        _ => otherwise,
    }
}

/// The flags of a pattern that is looked for.
pub fn pattern_flags_in(arguments: &ArgMatches<'_>) -> Flags
    ensures case { IsFlag arguments.now (codes "ignore-case") result.ignore_case }
    ensures fixed { IsFlag arguments.now (codes "fixed-strings") result.quoted }
    ensures lines { (result.dot_all ≡ false) × (result.multi_line ≡ false) }
{
    Flags {
        ignore_case: has_flag(arguments, "ignore-case"),
        quoted: has_flag(arguments, "fixed-strings"),
        ..Flags::none()
    }
}

/// Whether the rows are wanted in which a pattern is not found.
pub fn is_inverted_in(arguments: &ArgMatches<'_>) -> bool
    ensures { IsFlag arguments.now (codes "invert-match") result }
{
    has_flag(arguments, "invert-match")
}

/// How many bytes of memory rows and their keys may take: 1 GiB if nothing is said. `None` if what
/// is said is no size.
pub fn memory_in(arguments: &ArgMatches<'_>) -> Option<u64>
    ensures { IfSome result (IsMemory (first_value (found_of arguments.now) (codes "memory"))) }
{
    match arguments.get_str("memory") {
        Some(text) => size_of(text),
        None => Some(USUAL_MEMORY),
    }
}

/// The folder for temporary files, if one is named.
pub fn folder_in<'a>(arguments: &ArgMatches<'a>) -> Option<&'a str>
    ensures { option_map (λ folder. folder.now) result
        ≡ first_value (found_of arguments.now) (codes "temporary-directory") }
{
    arguments.get_str("temporary-directory")
}

/// Whether the run is to end at the first row that is wrong, where `otherwise` holds if the
/// arguments do not say.
pub fn stops_in(arguments: &ArgMatches<'_>, otherwise: bool) -> bool
    ensures { result
        ≡ stops_of (first_value (found_of arguments.now) (codes "on-error")) otherwise }
{
    match arguments.get_str("on-error") {
        Some(word) => word == "stop",
        None => otherwise,
    }
}
