//! Values whose objects are lists of pairs, as a source of the writer.

ghost use Rattle.std.specs.Prelude.{◌<◌};
ghost use Rattle.jsonb_codec.specs.Words.{ast_tree, AscendEverywhere, IsTree, scalar_code, size};
ghost use Rattle.jsonb_codec.specs.Words.{LevelIs, level_size, LevelHeld, shape_of, ast_meaning};
ghost use Rattle.jsonb_codec.specs.Words.{ast_laws};

use crate::writer::code::Scalar;
use crate::writer::source::{Level, Source};
use jsonb_value::JsonAst;
use std::borrow::CowStr;

/// The members of an object that were not visited yet.
#[derive(Clone, Copy)]
pub struct Pairs<'s, 'a> {
    pub left: &'s [(CowStr<'a>, JsonAst<'a>, usize)],
}

type Member<'s, 'a> = (Scalar<'s>, (&'s JsonAst<'a>, Pairs<'s, 'a>));

/// The top level of a value, as the writer visits it.
pub type AstLevel<'s, 'a> = Level<Scalar<'s>, &'s [JsonAst<'a>], Pairs<'s, 'a>>;

/// The top level of a value.
#[inline(always)]
pub fn ast_level<'s, 'a>(value: &'s JsonAst<'a>) -> AstLevel<'s, 'a>
    ensures is { LevelIs scalar_code ast_meaning result (shape_of (ast_tree value.now)) }
    ensures size { level_size ast_meaning result < size (ast_tree value.now) }
    ensures held { LevelHeld ast_meaning result → AscendEverywhere (ast_tree value.now)
        → IsTree (ast_tree value.now) }
{
    Level::Leaf(match value {
        JsonAst::Null => Scalar::Null,
        JsonAst::Bool(false) => Scalar::Bool(false),
        JsonAst::Bool(true) => Scalar::Bool(true),
        JsonAst::String(text) => Scalar::text(text.as_str()),
        JsonAst::Number(number) => Scalar::number(number),
        JsonAst::Array(items) => return Level::Array(items),
        JsonAst::Object(pairs) => return Level::Object(Pairs { left: pairs }),
    })
}

impl<'s, 'a> Source for &'s JsonAst<'a> {
    type Leaf = Scalar<'s>;

    type Child = &'s JsonAst<'a>;

    type Items = &'s [JsonAst<'a>];

    type Object = Pairs<'s, 'a>;

    type Members = Pairs<'s, 'a>;

    ghost meaning = { ast_meaning };

    ghost laws = { ast_laws };

    #[inline(always)]
    fn level(child: &'s JsonAst<'a>) -> AstLevel<'s, 'a> {
        ast_level(child)
    }

    #[inline(always)]
    fn count(items: &'s [JsonAst<'a>]) -> usize {
        items.len()
    }

    #[tactic(auto, using(crate::proofs::ValueShapes::size_positive))]
    #[inline(always)]
    fn split_item(items: &'s [JsonAst<'a>]) -> Option<(&'s JsonAst<'a>, &'s [JsonAst<'a>])> {
        match items {
            [first, rest @ ..] => Some((first, rest)),
            [] => None,
        }
    }

    #[inline(always)]
    fn object_count(object: Pairs<'s, 'a>) -> usize {
        object.left.len()
    }

    #[inline(always)]
    fn members(object: Pairs<'s, 'a>) -> Pairs<'s, 'a> {
        object
    }

    #[inline(always)]
    fn members_left(members: &Pairs<'s, 'a>) -> usize {
        members.left.len()
    }

    #[inline(always)]
    fn fork(members: &Pairs<'s, 'a>) -> Pairs<'s, 'a> {
        *members
    }

    #[tactic(auto, using(crate::proofs::ValueShapes::size_positive))]
    #[inline(always)]
    fn split_member(members: Pairs<'s, 'a>) -> Option<Member<'s, 'a>> {
        match members.left {
            [(key, value, _), left @ ..] => {
                Some((Scalar::text(key.as_str()), (value, Pairs { left })))
            }
            [] => None,
        }
    }
}
