//! A parsed value whose objects are lists of pairs.

ghost use Rattle.std.specs.Prelude.{◌≡◌, ◌↔◌, IfSome, IsTrue, option_map};
ghost use Rattle.jsonb_value.specs.Words.{nat_cmp, slice_cmp, Less, asts_view, ast_pairs_view};
ghost use Rattle.jsonb_value.specs.Words.{AllAscend, PairsAscend, Ascend};

use crate::number::Number;
use std::borrow::CowStr;
use std::cmp::Ordering;

/// A JSON value whose objects are lists of pairs in any order. The third field of a pair is the
/// position of its key in a text; a document does not store it.
#[derive(Debug, Drop)]
pub enum JsonAst<'a> {
    /// JSON's null.
    Null,
    /// A truth value.
    Bool(bool),
    /// A string of UTF-8, owned or borrowed.
    String(CowStr<'a>),
    /// An integer of 64 bits, or a decimal of 64 or 128 bits.
    Number(Number),
    /// The items of an array, in order.
    Array(Vec<JsonAst<'a>>),
    /// The pairs of an object: a key, its value, and the position of the key in a text.
    Object(Vec<(CowStr<'a>, JsonAst<'a>, usize)>),
}

impl<'a> JsonAst<'a> {
    ghost use Rattle.jsonb_value.specs.Words.{ast_tree, AscendEverywhere};

    /// Whether the keys of every object in the value ascend strictly by their bytes. An object with
    /// at most one pair always qualifies.
    #[cycle(ascending)]
    pub fn has_ascending_keys(&self) -> bool
        ensures { IsTrue result ↔ AscendEverywhere (ast_tree self.now) }
    {
        match self {
            JsonAst::Array(items) => all_ascend(items),
            JsonAst::Object(pairs) => pairs_ascend(pairs),
            JsonAst::Null | JsonAst::Bool(_) | JsonAst::String(_) | JsonAst::Number(_) => true,
        }
    }
}

#[cycle(ascending)]
fn all_ascend(items: &Vec<JsonAst<'_>>) -> bool
    ensures { IsTrue result ↔ AllAscend (asts_view items.now.items) }
{
    for item in items {
        if !item.has_ascending_keys() {
            return false;
        }
    }
    true
}

// Whether the keys ascend, in these pairs and in every object inside their values.
#[cycle(ascending)]
fn pairs_ascend(pairs: &Vec<(CowStr<'_>, JsonAst<'_>, usize)>) -> bool
    ensures { IsTrue result
        ↔ (Ascend (ast_pairs_view pairs.now.items) × PairsAscend (ast_pairs_view pairs.now.items)) }
{
    let mut before: Option<&str> = None;
    for (key, value, _) in pairs {
        if !is_above(before, key.as_str()) || !value.has_ascending_keys() {
            return false;
        }
        before = Some(key.as_str());
    }
    true
}

// Whether `key` is greater than `before`; true if there is no `before`.
fn is_above(before: Option<&str>, key: &str) -> bool
    ensures { IsTrue result
        ↔ IfSome (option_map (λ b. b.now) before.entry) (λ b. slice_cmp nat_cmp b key.now ≡ Less) }
{
    match before {
        Some(before) => before.cmp(key) == Ordering::Less,
        None => true,
    }
}
