//! What a command does with each row.

ghost use Rattle.std.specs.Prelude.{◌≡◌, ◌++◌, ◌∷◌, [], IfOk, IfErr, map, string_bytes};
ghost use Rattle.std.specs.Option.{ForSome};
ghost use Rattle.std.specs.Prelude.{Ok, option_map, option_to_list};
ghost use Rattle.kohiblad_shell.specs.Words.{Fits, HoldsNoScalar, IsCanonicalRow, IsOutcome};
ghost use Rattle.kohiblad_shell.specs.Words.{IsResultOf, IsRowAnswer, IsTypedLine};
ghost use Rattle.kohiblad_shell.specs.Words.{MadeWithMemory, canon};
ghost use Rattle.kohiblad_shell.specs.Words.{changed, document_bytes, document_line};
ghost use Rattle.kohiblad_shell.specs.Words.{document_tree, encode_lower, framed, kept_row};
ghost use Rattle.kohiblad_shell.specs.Words.{key_and_line, made_row, node_tree, owned_bytes};
ghost use Rattle.kohiblad_shell.specs.Words.{raw_text, read_row_rule, row_key, row_rule, text_of};
ghost use Rattle.kohiblad_shell.specs.Words.{value_line, value_lines};
ghost use Rattle.kohiblad_shell.specs.Operations.{IsFirstGiven, IsGiven};
ghost use Rattle.kohiblad_shell.specs.declared.input.Form.TheVariants.{Lines};
ghost use Rattle.jsonb_path.specs.Found.{outcome_of};

use crate::extract::table_line;
use crate::first::{asked, first_of, given_up, passes_path};
use crate::input::{Form, Reading};
use crate::key::row_key;
use crate::member::member_line;
use crate::outcome::{LineFault, LineWorker, Reason, Unanswered};
use crate::part_lines::Look;
use crate::range::{ValueRange, is_in_range};
use crate::removal::removed_row;
use crate::row::{check_document, parse_line};
use crate::show::shown_lines;
use crate::sort_path::SortPath;
use crate::table::Table;
use crate::target::Target;
use crate::template::{Template, built_row};
use crate::text_search::{TextSearch, is_searched};
use crate::watch::Watch;
use jsonb::{Document, Error, Node, OwnedJsonb, RawJsonb, append_row};
use jsonb_functions::{Edit, Kept, Step, contains, edit_document, merge_patch, pick, strip_nulls};
use jsonb_path::{Outcome, Path};
use jsonb_rows::{EachEdit, Reach, edit_each};
use std::alloc::{AllocError, Global};

/// How a value is written.
#[derive(Clone, Copy, Debug, PartialEq, Eq)]
pub enum Style {
    /// As a JSON text.
    Json,
    /// A string without its quotes and escapes, and every other value as a JSON text.
    Raw,
}

/// How the text of a document is laid out.
#[derive(Clone, Copy, Debug, PartialEq, Eq)]
pub enum TextLayout {
    /// On one line, without white space.
    Compact,
    /// Each item or member on a line of its own.
    Pretty,
}

/// What a command does with each row, in which form it reads rows and writes them, and what sees
/// their documents besides.
#[derive(Clone, Copy)]
pub struct Job<'a, 'w> {
    pub operation: Operation<'a>,
    pub form: Form,
    pub watch: &'w Watch<'w>,
}

/// What a command does with each row.
#[derive(Clone, Copy)]
pub enum Operation<'a> {
    /// Writes nothing: only rows that are wrong are reported.
    Check,
    /// Writes the value of the row as a compact text, or as its canonical document.
    Canonical,
    /// Writes the first value that a path gives. A row of which it is given up is wrong.
    Get(&'a Path, Style),
    /// Writes all values that a path gives. A row of which it is given up is wrong.
    Select(&'a Path, Style),
    /// Writes the row if a test is true of it, or a path that is no test gives a value.
    Filter(&'a Path),
    /// Writes the row if its value contains another.
    Contains(Document<'a>),
    /// Writes the changed value as a compact text, or as its canonical document.
    Change(Change<'a>),
    /// Writes what is left of the value, as a compact text or as its canonical document, after what
    /// is at the end of each path, or at each place of one with wildcards, is removed, one after the
    /// other.
    Remove(&'a [Target<'a>]),
    /// Writes the row if its value lies in a range.
    Range(ValueRange<'a>),
    /// Writes the row if a pattern is found in its texts.
    Grep(TextSearch<'a>),
    /// Writes the document of the row, after its length, as a column stores it.
    Encode,
    /// Writes the text of the document.
    Decode(TextLayout),
    /// Writes the key of the row by these paths in hexadecimal.
    Key(&'a [SortPath]),
    /// Keeps the key of the row by these paths and the row as it stands, each after its length.
    Sort(&'a [SortPath]),
    /// Writes the values at paths as a line of a table. A row of which one is not of its type is
    /// wrong.
    Extract(Table<'a>),
    /// Writes the value that a template makes of the row, as a compact text or as its canonical
    /// document. A row of which a path is given up is wrong.
    Build(&'a Template),
    /// Writes the bytes of the document, part by part.
    Show(Look),
}

/// How a value is changed.
#[derive(Clone, Copy)]
pub enum Change<'a> {
    /// A value is put at the end of a path, and what the path lacks is made.
    Set(&'a [Step<'a>], Document<'a>),
    /// Each place to which a path with wildcards leads is changed.
    Each(&'a [Reach<'a>], EachEdit<'a>),
    /// A JSON Merge Patch is applied.
    Merge(Document<'a>),
    /// The members of these names are kept, and no others.
    Pick(&'a [&'a str]),
    /// Members that are null are removed, at every depth.
    StripNulls,
}

impl LineWorker for Job<'_, '_> {
    ghost rule = { row_rule };

    ghost after = { λ job rows. job };

    ghost keeps = { λ job rows line outcome is. is };

    #[tactic(auto, using(crate::proofs::PassedLaws::passed_gives, crate::proofs::PassedLaws::result_gives))]
    fn answer(&mut self, alloc: Global, row: &[u8]) -> Result<Vec<u8>, Unanswered> {
        if self.form.passes_over(row) {
            Ok(Vec::new(alloc))
        } else {
            read_row_lines(alloc, *self, row)
        }
    }
}

// The lines that a job writes for a row that is not passed over, or why there are none.
fn read_row_lines(alloc: Global, job: Job<'_, '_>, row: &[u8]) -> Result<Vec<u8>, Unanswered>
    ensures { IsOutcome (read_row_rule job.entry row.now) result }
{
    match job.form {
        Form::Lines(reading) => match looked_up(alloc, job, row, reading)? {
            Some(lines) => Ok(lines),
            None => {
                let owned = parse_line(alloc, row, reading)?;
                let document = Document::new_unchecked(owned.as_bytes());
                job.watch.see(alloc, job.operation, document)?;
                row_lines(alloc, job, row, document)
            }
        },
        Form::Documents => {
            let document = check_document(row)?;
            job.watch.see(alloc, job.operation, document)?;
            row_lines(alloc, job, row, document)
        }
    }
}

// The lines that a job writes for a line of which it asks for the value at one key, if the document
// of the line is not needed for it. After a line of which it was, none is looked up in.
fn looked_up(
    alloc: Global,
    job: Job<'_, '_>,
    row: &[u8],
    reading: Reading,
) -> Result<Option<Vec<u8>>, AllocError>
    requires { job.form ≡ Lines reading }
    ensures { IfOk result (λ found. ForSome found
        (λ lines. read_row_rule job.entry row.now (Ok lines.items))) }
{
    let Operation::Get(path, style) = job.operation else {
        return Ok(None);
    };
    if job.watch.reads_documents() {
        return Ok(None);
    }
    let found = member_line(alloc, row, reading, path, style)?;
    match &found {
        Some(lines) => job.watch.see_member(!lines.is_empty()),
        None => job.watch.read_documents(),
    }
    Ok(found)
}

// The lines that a job writes for a row and its document, or why there are none.
fn row_lines(
    alloc: Global,
    job: Job<'_, '_>,
    row: &[u8],
    document: Document<'_>,
) -> Result<Vec<u8>, Unanswered>
    ensures { IsOutcome (IsRowAnswer job.entry.operation job.entry.form row.now
        (document_bytes document.entry)) result }
{
    let form = job.form;
    match job.operation {
        Operation::Check => Ok(Vec::new(alloc)),
        Operation::Canonical => Ok(canonical_row(alloc, form, document)?),
        Operation::Get(path, style) => {
            let outcome = asked(alloc, document, path)?;
            first_given(alloc, &outcome, style)
        }
        Operation::Select(path, style) => {
            let outcome = asked(alloc, document, path)?;
            all_given(alloc, &outcome, style)
        }
        Operation::Filter(path) => {
            let is_kept = passes_path(alloc, document, path)?;
            Ok(kept_row(alloc, form, row, is_kept)?)
        }
        Operation::Contains(part) => {
            let is_kept = contains(alloc, document, part)?;
            Ok(kept_row(alloc, form, row, is_kept)?)
        }
        Operation::Change(change) => {
            let made = changed(alloc, change, document)?;
            job.watch.see_change(change, document, made.as_bytes());
            Ok(made_row(alloc, form, made.as_bytes())?)
        }
        Operation::Remove(paths) => {
            Ok(removed_row(alloc, form, document.as_bytes(), paths, job.watch)?)
        }
        Operation::Range(range) => {
            let is_kept = is_in_range(alloc, document, range)?;
            Ok(kept_row(alloc, form, row, is_kept)?)
        }
        Operation::Grep(search) => {
            let is_kept = is_searched(alloc, document, search)?;
            Ok(kept_row(alloc, form, row, is_kept)?)
        }
        Operation::Encode => Ok(framed_row(alloc, Form::Documents, document.as_bytes())?),
        Operation::Decode(layout) => Ok(document_line(alloc, document, layout)?),
        Operation::Key(paths) => Ok(key_line(alloc, document, paths)?),
        Operation::Sort(paths) => Ok(keyed_row(alloc, form, document, paths, row)?),
        Operation::Extract(table) => {
            typed_line(table_line(alloc, document, table.layout, table.columns)?)
        }
        Operation::Build(template) => built_row(alloc, form, document, template),
        Operation::Show(look) => Ok(shown_lines(alloc, document.as_bytes(), look)?),
    }
}

// A line of values that are of their types; `NotOfType` if one is not.
fn typed_line(line: Option<Vec<u8>>) -> Result<Vec<u8>, Unanswered>
    ensures { IsTypedLine line result }
{
    match line {
        Some(line) => Ok(line),
        None => Err(Unanswered::Wrong(LineFault::plain(0, Reason::NotOfType))),
    }
}

// The row of the value as canonical JSON, or as its canonical document.
fn canonical_row(alloc: Global, form: Form, document: Document<'_>) -> Result<Vec<u8>, Error>
    ensures { IsResultOf
        (IsCanonicalRow form (document_tree document.entry)) result }
{
    match form {
        Form::Lines(_) => text_line(document.to_string(alloc)?),
        Form::Documents => made_row(alloc, form, document.to_canonical(alloc)?.as_bytes()),
    }
}

/// The row of a document that was made. `OutOfMemory` is the only error.
pub fn made_row(alloc: Global, form: Form, made: &[u8]) -> Result<Vec<u8>, Error>
    ensures ok { IfOk result (λ row. row.items ≡ made_row form made.now) }
    ensures memory { IfErr result (λ e. e ≡ Error.OutOfMemory) }
{
    match form {
        Form::Lines(_) => text_line(RawJsonb::new(made).to_string(alloc)?),
        Form::Documents => framed_row(alloc, form, made),
    }
}

// The text of a document with its line feed.
fn document_line(
    alloc: Global,
    document: Document<'_>,
    layout: TextLayout,
) -> Result<Vec<u8>, Error>
    ensures ok { IfOk result
        (λ line. line.items ≡ document_line layout (document_tree document.entry)) }
    ensures memory { IfErr result (λ e. e ≡ Error.OutOfMemory) }
{
    match layout {
        TextLayout::Compact => text_line(document.to_string(alloc)?),
        TextLayout::Pretty => text_line(document.to_pretty_string(alloc)?),
    }
}

// The canonical document of the changed value.
fn changed(alloc: Global, change: Change<'_>, document: Document<'_>) -> Result<OwnedJsonb, Error>
    ensures ok { IfOk result (λ owned. owned_bytes owned
        ≡ canon (changed change.entry (document_tree document.entry))) }
    ensures limits { MadeWithMemory
        (Fits (changed change.entry (document_tree document.entry))) result }
{
    match change {
        Change::Set(path, value) => edit_document(alloc, document, path, Edit::Create(value)),
        Change::Each(path, edit) => edit_each(alloc, document, path, edit),
        Change::Merge(patch) => merge_patch(alloc, document, patch),
        Change::Pick(names) => pick(alloc, document, names, Kept::Named),
        Change::StripNulls => strip_nulls(alloc, document),
    }
}

// A row as it stands among others.
fn framed_row(alloc: Global, form: Form, row: &[u8]) -> Result<Vec<u8>, Error>
    ensures ok { IfOk result (λ bytes. bytes.items ≡ framed form row.now) }
    ensures memory { IfErr result (λ e. e ≡ Error.OutOfMemory) }
{
    let mut bytes = Vec::with_capacity(alloc, row.len() + 8)?;
    match form {
        Form::Lines(_) => {
            bytes.extend_from_slice(row)?;
            bytes.push(b'\n')?;
        }
        Form::Documents => append_row(&mut bytes, row)?,
    }
    Ok(bytes)
}

// The key of a row by these paths in hexadecimal, with a line feed.
fn key_line(alloc: Global, document: Document<'_>, paths: &[SortPath]) -> Result<Vec<u8>, Error>
    ensures ok { IfOk result (λ line. line.items
        ≡ encode_lower (row_key paths.now (document_tree document.entry)) ++ 10 ∷ []) }
    ensures memory { IfErr result (λ e. e ≡ Error.OutOfMemory) }
{
    let key = row_key(alloc, document, paths)?;
    text_line(hex::encode(alloc, key.as_slice())?)
}

// The key of a row by these paths and the row as it stands, each after its length.
fn keyed_row(
    alloc: Global,
    form: Form,
    document: Document<'_>,
    paths: &[SortPath],
    row: &[u8],
) -> Result<Vec<u8>, Error>
    ensures ok { IfOk result (λ keyed. keyed.items ≡ key_and_line
        (row_key paths.now (document_tree document.entry)) (framed form row.now)) }
    ensures memory { IfErr result (λ e. e ≡ Error.OutOfMemory) }
{
    let key = row_key(alloc, document, paths)?;
    let framed = framed_row(alloc, form, row)?;
    let mut keyed = Vec::new(alloc);
    append_row(&mut keyed, &key)?;
    append_row(&mut keyed, &framed)?;
    Ok(keyed)
}

// A text with its line feed.
fn text_line(text: String) -> Result<Vec<u8>, Error>
    ensures ok { IfOk result (λ lines. lines.items ≡ string_bytes text ++ 10 ∷ []) }
    ensures memory { IfErr result (λ e. e ≡ Error.OutOfMemory) }
{
    let mut line = text.into_bytes();
    line.push(b'\n')?;
    Ok(line)
}

// The row as it stands, if it is kept.
fn kept_row(alloc: Global, form: Form, row: &[u8], is_kept: bool) -> Result<Vec<u8>, Error>
    ensures ok { IfOk result (λ kept. kept.items ≡ kept_row form is_kept row.now) }
    ensures memory { IfErr result (λ e. e ≡ Error.OutOfMemory) }
{
    if is_kept {
        framed_row(alloc, form, row)
    } else {
        Ok(Vec::new(alloc))
    }
}

// The line of the first value that a path gives, or the fault that it is given up.
fn first_given(alloc: Global, outcome: &Outcome<'_>, style: Style) -> Result<Vec<u8>, Unanswered>
    ensures { IsOutcome (IsFirstGiven style (outcome_of outcome.now)) result }
{
    match outcome.error {
        None => Ok(first_line(alloc, first_of(&outcome.values), style)?),
        Some(error) => Err(given_up(error)),
    }
}

// The lines of all values that a path gives, or the fault that it is given up.
fn all_given(alloc: Global, outcome: &Outcome<'_>, style: Style) -> Result<Vec<u8>, Unanswered>
    ensures { IsOutcome (IsGiven style (outcome_of outcome.now)) result }
{
    match outcome.error {
        None => Ok(all_lines(alloc, &outcome.values, style)?),
        Some(error) => Err(given_up(error)),
    }
}

// The line of the value, if there is one.
fn first_line(alloc: Global, node: Option<Node<'_>>, style: Style) -> Result<Vec<u8>, Error>
    ensures ok { IfOk result (λ lines. lines.items
        ≡ value_lines style (option_to_list (option_map node_tree node.entry))) }
    ensures memory { IfErr result (λ e. e ≡ Error.OutOfMemory) }
{
    match node {
        Some(node) => value_line(alloc, node, style),
        None => Ok(Vec::new(alloc)),
    }
}

// The lines of the values, in order.
fn all_lines(alloc: Global, nodes: &[Node<'_>], style: Style) -> Result<Vec<u8>, Error>
    ensures ok { IfOk result (λ lines. lines.items ≡ value_lines style (map node_tree nodes.now)) }
    ensures memory { IfErr result (λ e. e ≡ Error.OutOfMemory) }
{
    let mut lines = Vec::new(alloc);
    for node in nodes {
        let line = value_line(alloc, *node, style)?;
        lines.extend_from_slice(&line)?;
    }
    Ok(lines)
}

/// The line of a value. `OutOfMemory` is the only error.
pub fn value_line(alloc: Global, node: Node<'_>, style: Style) -> Result<Vec<u8>, Error>
    ensures ok { IfOk result (λ line. line.items ≡ value_line style (node_tree node.entry)) }
    ensures memory { IfErr result (λ e. e ≡ Error.OutOfMemory) }
{
    match raw_text(node, style) {
        Some(text) => text_line(String::from_str(alloc, text)?),
        None => text_line(node.to_string(alloc)?),
    }
}

// The text that is written in place of a JSON text, if there is one.
fn raw_text(node: Node<'_>, style: Style) -> Option<&str>
    ensures { option_map (λ text. text.now) result ≡ raw_text style (node_tree node.entry) }
{
    match style {
        Style::Json => None,
        Style::Raw => text_of(node),
    }
}

/// The text of a string; `None` of every other value.
pub fn text_of(node: Node<'_>) -> Option<&str>
    ensures { option_map (λ text. text.now) result ≡ text_of (node_tree node.entry) }
{
    match node {
        Node::Container(document) => text_of_opened(document.value()),
        scalar => text_of_opened(scalar),
    }
}

// The same of a value whose container is an array or object.
fn text_of_opened(node: Node<'_>) -> Option<&str>
    requires { HoldsNoScalar node }
    ensures { option_map (λ text. text.now) result ≡ text_of (node_tree node.entry) }
{
    match node {
        Node::String(text) => Some(text),
        _ => None,
    }
}
