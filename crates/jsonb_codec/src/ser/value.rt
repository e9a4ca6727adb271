//! Values as a source of the writer.

ghost use Rattle.std.specs.Prelude.{◌<◌};
ghost use Rattle.jsonb_codec.specs.Words.{tree_of, IsTree, scalar_code, size, LevelIs, level_size};
ghost use Rattle.jsonb_codec.specs.Words.{LevelHeld, shape_of, value_meaning, value_laws};

use crate::writer::code::Scalar;
use crate::writer::source::{Level, Source};
use jsonb_value::{ExtensionValue, Object, Value};
use std::collections::btree_map;

type Members<'s, 'a> = btree_map::Iter<'s, String, Value<'a>>;

type Member<'s, 'a> = (Scalar<'s>, (&'s Value<'a>, Members<'s, 'a>));

/// The top level of a value, as the writer visits it.
pub type ValueLevel<'s, 'a> = Level<Scalar<'s>, &'s [Value<'a>], &'s Object<'a>>;

/// The top level of a value.
#[inline(always)]
pub fn value_level<'s, 'a>(value: &'s Value<'a>) -> ValueLevel<'s, 'a>
    ensures is { LevelIs scalar_code value_meaning result (shape_of (tree_of value.now)) }
    ensures size { level_size value_meaning result < size (tree_of value.now) }
    ensures held { LevelHeld value_meaning result → IsTree (tree_of value.now) }
{
    Level::Leaf(match value {
        Value::Null => Scalar::Null,
        Value::Bool(false) => Scalar::Bool(false),
        Value::Bool(true) => Scalar::Bool(true),
        Value::String(text) => Scalar::text(text.as_str()),
        Value::Number(number) => Scalar::number(number),
        Value::Binary(bytes) => Scalar::extension(ExtensionValue::Binary(bytes)),
        Value::Date(date) => Scalar::extension(ExtensionValue::Date(*date)),
        Value::Timestamp(timestamp) => Scalar::extension(ExtensionValue::Timestamp(*timestamp)),
        Value::TimestampTz(zoned) => Scalar::extension(ExtensionValue::TimestampTz(*zoned)),
        Value::Interval(interval) => Scalar::extension(ExtensionValue::Interval(*interval)),
        Value::Opaque(opaque) => Scalar::extension(ExtensionValue::Opaque(*opaque)),
        Value::Array(items) => return Level::Array(items),
        Value::Object(object) => return Level::Object(object),
    })
}

impl<'s, 'a> Source for &'s Value<'a> {
    type Leaf = Scalar<'s>;

    type Child = &'s Value<'a>;

    type Items = &'s [Value<'a>];

    type Object = &'s Object<'a>;

    type Members = Members<'s, 'a>;

    ghost meaning = { value_meaning };

    ghost laws = { value_laws };

    #[inline(always)]
    fn level(child: &'s Value<'a>) -> ValueLevel<'s, 'a> {
        value_level(child)
    }

    #[inline(always)]
    fn count(items: &'s [Value<'a>]) -> usize {
        items.len()
    }

    #[tactic(auto, using(crate::proofs::ValueShapes::size_positive))]
    #[inline(always)]
    fn split_item(items: &'s [Value<'a>]) -> Option<(&'s Value<'a>, &'s [Value<'a>])> {
        match items {
            [first, rest @ ..] => Some((first, rest)),
            [] => None,
        }
    }

    #[inline(always)]
    fn object_count(object: &'s Object<'a>) -> usize {
        object.len()
    }

    #[inline(always)]
    fn members(object: &'s Object<'a>) -> Members<'s, 'a> {
        object.iter()
    }

    #[inline(always)]
    fn members_left(members: &Members<'s, 'a>) -> usize {
        members.len()
    }

    #[inline(always)]
    fn fork(members: &Members<'s, 'a>) -> Members<'s, 'a> {
        let Ok(members) = members.clone() else {
            unreachable!();
        };
        members
    }

    // Comparing the length detects the end more cheaply than searching for the next leaf.
    #[tactic(auto, using(crate::proofs::ValueShapes::size_positive))]
    #[inline(always)]
    fn split_member(mut members: Members<'s, 'a>) -> Option<Member<'s, 'a>> {
        if members.len() == 0 {
            return None;
        }
        let (key, value) = members.next()?;
        Some((Scalar::text(key.as_str()), (value, members)))
    }
}
