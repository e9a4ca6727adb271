//! What an input is that has no rows in the form in which they are read.

ghost use Rattle.std.specs.Prelude.{◌≡◌};
ghost use Rattle.kohiblad_shell.specs.Words.{compressed_kind, foreign_kind, input_kind};
ghost use Rattle.kohiblad_shell.specs.Words.{is_document_start, is_text_start, kind_words};

use crate::input::Form;

/// What an input is that has no rows in the form in which they are read.
#[derive(Clone, Copy, Debug, PartialEq, Eq)]
pub enum InputKind {
    /// Lines after a byte order mark.
    Marked,
    /// A file that gzip compressed.
    Gzip,
    /// A file that zstd compressed.
    Zstd,
    /// A file that xz compressed.
    Xz,
    /// Documents, where lines are read.
    Documents,
    /// A text, where documents are read.
    Text,
}

impl InputKind {
    /// What is said of it.
    pub fn words(self) -> &'static str
        ensures { result.now ≡ kind_words self }
    {
        match self {
            InputKind::Marked => "the file begins with a byte order mark",
            InputKind::Gzip => "the file is compressed by gzip",
            InputKind::Zstd => "the file is compressed by zstd",
            InputKind::Xz => "the file is compressed by xz",
            InputKind::Documents => "the file is of documents, which `--documents` reads",
            InputKind::Text => "the file is a text; `encode` makes documents of JSON lines",
        }
    }
}

/// What an input that begins so is, if it has no rows in this form.
pub fn input_kind(form: Form, start: &[u8]) -> Option<InputKind>
    ensures { result ≡ input_kind form start.now }
{
    match compressed_kind(start) {
        Some(kind) => Some(kind),
        None => foreign_kind(form, start),
    }
}

// What compressed an input that begins so.
fn compressed_kind(start: &[u8]) -> Option<InputKind>
    ensures { result ≡ compressed_kind start.now }
{
    if start.starts_with(&[0x1f, 0x8b]) {
        Some(InputKind::Gzip)
    } else if start.starts_with(&[0x28, 0xb5, 0x2f, 0xfd]) {
        Some(InputKind::Zstd)
    } else if start.starts_with(&[0xfd, 0x37, 0x7a, 0x58, 0x5a, 0x00]) {
        Some(InputKind::Xz)
    } else {
        None
    }
}

// What an input is that begins so and is not compressed.
fn foreign_kind(form: Form, start: &[u8]) -> Option<InputKind>
    ensures { result ≡ foreign_kind form start.now }
{
    match form {
        Form::Lines(_) if start.starts_with(&[0xef, 0xbb, 0xbf]) => Some(InputKind::Marked),
        Form::Lines(_) if is_document_start(start) => Some(InputKind::Documents),
        Form::Documents if is_text_start(start) => Some(InputKind::Text),
        _ => None,
    }
}

// Whether these may be the length of a document, below 2 to the power of 32, and its first byte.
fn is_document_start(start: &[u8]) -> bool
    ensures { result ≡ is_document_start start.now }
{
    match start {
        [0, 0, 0, 0, _, _, _, _, first, ..] => matches!(*first, 0x20..=0x5f | 0x80..=0x9f),
        _ => false,
    }
}

// Whether the first of these bytes is that of a text, and not of the length of a document: that
// begins with a zero.
fn is_text_start(start: &[u8]) -> bool
    ensures { result ≡ is_text_start start.now }
{
    match start {
        [first, ..] => matches!(*first, b'\t' | b'\n' | b'\r' | b' '..=b'~' | 0xef),
        [] => false,
    }
}
