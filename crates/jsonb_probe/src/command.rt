//! The grammar of commands.

use crate::line::words_of;
use crate::lookup::Keys;
use crate::refusal::Refusal;
use crate::{
    builders, comparable, documents, items, lookup, order, payloads, single, texts, walks, words,
};
use std::alloc::Global;

/// A command, by how many words it takes.
#[derive(Clone, Copy)]
enum Command {
    One(OnWord),
    Two(OnTwoWords),
    Many(OnWords),
}

/// A command on one word.
#[derive(Clone, Copy)]
enum OnWord {
    IsDocument,
    ValueOf,
    Decoder,
    IsCanonical,
    ToCanonical,
    ItemType,
    Item,
    Array,
    Keys,
    Values,
    Pairs,
    ToString,
    ToPrettyString,
    Display,
    Number,
    Extension,
    Key,
    DocumentItemType,
    DocumentValueOf,
    DocumentIsCanonical,
    DocumentToCanonical,
    DocumentToString,
    DocumentToPrettyString,
    DocumentDisplay,
}

/// A command on two words.
#[derive(Clone, Copy)]
enum OnTwoWords {
    Within,
    DocumentWithin,
    DocumentCmp,
    Lookup,
    LookupNocase,
    Cmp,
    TryCmp,
    ItemCmp,
    Rank,
    CmpNumber,
    CmpExtension,
    Header,
    Jentry,
    Word,
    KeyWithin,
}

/// A command on any number of words.
#[derive(Clone, Copy)]
enum OnWords {
    ArrayOf,
    ObjectOf,
    Distinct,
}

// The commands by their names.
const COMMANDS: &[(&[u8], Command)] = &[
    (b"is_document", Command::One(OnWord::IsDocument)),
    (b"value_of", Command::One(OnWord::ValueOf)),
    (b"decoder", Command::One(OnWord::Decoder)),
    (b"is_canonical", Command::One(OnWord::IsCanonical)),
    (b"to_canonical", Command::One(OnWord::ToCanonical)),
    (b"item_type", Command::One(OnWord::ItemType)),
    (b"item", Command::One(OnWord::Item)),
    (b"array", Command::One(OnWord::Array)),
    (b"keys", Command::One(OnWord::Keys)),
    (b"values", Command::One(OnWord::Values)),
    (b"pairs", Command::One(OnWord::Pairs)),
    (b"to_string", Command::One(OnWord::ToString)),
    (b"to_pretty_string", Command::One(OnWord::ToPrettyString)),
    (b"display", Command::One(OnWord::Display)),
    (b"number", Command::One(OnWord::Number)),
    (b"extension", Command::One(OnWord::Extension)),
    (b"key", Command::One(OnWord::Key)),
    (
        b"document_item_type",
        Command::One(OnWord::DocumentItemType),
    ),
    (b"document_value_of", Command::One(OnWord::DocumentValueOf)),
    (
        b"document_is_canonical",
        Command::One(OnWord::DocumentIsCanonical),
    ),
    (
        b"document_to_canonical",
        Command::One(OnWord::DocumentToCanonical),
    ),
    (
        b"document_to_string",
        Command::One(OnWord::DocumentToString),
    ),
    (
        b"document_to_pretty_string",
        Command::One(OnWord::DocumentToPrettyString),
    ),
    (b"document_display", Command::One(OnWord::DocumentDisplay)),
    (b"within", Command::Two(OnTwoWords::Within)),
    (b"document_within", Command::Two(OnTwoWords::DocumentWithin)),
    (b"document_cmp", Command::Two(OnTwoWords::DocumentCmp)),
    (b"lookup", Command::Two(OnTwoWords::Lookup)),
    (b"lookup_nocase", Command::Two(OnTwoWords::LookupNocase)),
    (b"cmp", Command::Two(OnTwoWords::Cmp)),
    (b"try_cmp", Command::Two(OnTwoWords::TryCmp)),
    (b"item_cmp", Command::Two(OnTwoWords::ItemCmp)),
    (b"rank", Command::Two(OnTwoWords::Rank)),
    (b"cmp_number", Command::Two(OnTwoWords::CmpNumber)),
    (b"cmp_extension", Command::Two(OnTwoWords::CmpExtension)),
    (b"header", Command::Two(OnTwoWords::Header)),
    (b"jentry", Command::Two(OnTwoWords::Jentry)),
    (b"word", Command::Two(OnTwoWords::Word)),
    (b"key_within", Command::Two(OnTwoWords::KeyWithin)),
    (b"array_of", Command::Many(OnWords::ArrayOf)),
    (b"object_of", Command::Many(OnWords::ObjectOf)),
    (b"distinct", Command::Many(OnWords::Distinct)),
];

/// The reply to a line: the name of a command, and the words that are its arguments.
pub fn answer(alloc: Global, line: &[u8]) -> Result<String, Refusal> {
    let words = words_of(alloc, line)?;
    let Some((name, words)) = words.split_first() else {
        return Err(Refusal::BadCommand);
    };
    match (command_of(name)?, words) {
        (Command::One(command), [word]) => answer_one(alloc, command, word),
        (Command::Two(command), [left, right]) => answer_two(alloc, command, left, right),
        (Command::Many(command), words) => answer_many(alloc, command, words),
        _ => Err(Refusal::BadCommand),
    }
}

// The command of this name.
fn command_of(name: &[u8]) -> Result<Command, Refusal> {
    match COMMANDS.iter().find(|(known, _)| *known == name) {
        Some((_, command)) => Ok(*command),
        None => Err(Refusal::BadCommand),
    }
}

fn answer_one(alloc: Global, command: OnWord, word: &[u8]) -> Result<String, Refusal> {
    match command {
        OnWord::IsDocument => documents::is_document(alloc, word),
        OnWord::ValueOf => documents::value_of(alloc, word),
        OnWord::Decoder => documents::decoder(alloc, word),
        OnWord::IsCanonical => documents::is_canonical(alloc, word),
        OnWord::ToCanonical => documents::to_canonical(alloc, word),
        OnWord::ItemType => items::item_type(alloc, word),
        OnWord::Item => items::item(alloc, word),
        OnWord::Array => walks::array(alloc, word),
        OnWord::Keys => walks::keys(alloc, word),
        OnWord::Values => walks::values(alloc, word),
        OnWord::Pairs => walks::pairs(alloc, word),
        OnWord::ToString => texts::to_string(alloc, word),
        OnWord::ToPrettyString => texts::to_pretty_string(alloc, word),
        OnWord::Display => texts::display(alloc, word),
        OnWord::Number => payloads::number(alloc, word),
        OnWord::Extension => payloads::extension(alloc, word),
        OnWord::Key => comparable::key(alloc, word),
        OnWord::DocumentItemType => single::item_type(alloc, word),
        OnWord::DocumentValueOf => single::value_of(alloc, word),
        OnWord::DocumentIsCanonical => single::is_canonical(alloc, word),
        OnWord::DocumentToCanonical => single::to_canonical(alloc, word),
        OnWord::DocumentToString => single::to_string(alloc, word),
        OnWord::DocumentToPrettyString => single::to_pretty_string(alloc, word),
        OnWord::DocumentDisplay => single::display(alloc, word),
    }
}

fn answer_two(
    alloc: Global,
    command: OnTwoWords,
    left: &[u8],
    right: &[u8],
) -> Result<String, Refusal> {
    match command {
        OnTwoWords::Within => documents::within(alloc, left, right),
        OnTwoWords::DocumentWithin => single::within(alloc, left, right),
        OnTwoWords::DocumentCmp => single::cmp(alloc, left, right),
        OnTwoWords::Lookup => lookup::lookup(alloc, Keys::Exact, left, right),
        OnTwoWords::LookupNocase => lookup::lookup(alloc, Keys::AnyCase, left, right),
        OnTwoWords::Cmp => order::cmp(alloc, left, right),
        OnTwoWords::TryCmp => order::try_cmp(alloc, left, right),
        OnTwoWords::ItemCmp => order::item_cmp(alloc, left, right),
        OnTwoWords::Rank => order::rank(alloc, left, right),
        OnTwoWords::CmpNumber => order::cmp_number(alloc, left, right),
        OnTwoWords::CmpExtension => order::cmp_extension(alloc, left, right),
        OnTwoWords::Header => words::header(alloc, left, right),
        OnTwoWords::Jentry => words::jentry(alloc, left, right),
        OnTwoWords::Word => words::word(alloc, left, right),
        OnTwoWords::KeyWithin => comparable::key_within(alloc, left, right),
    }
}

fn answer_many(alloc: Global, command: OnWords, words: &[&[u8]]) -> Result<String, Refusal> {
    match command {
        OnWords::ArrayOf => builders::array_of(alloc, words),
        OnWords::ObjectOf => builders::object_of(alloc, words),
        OnWords::Distinct => builders::distinct(alloc, words),
    }
}
