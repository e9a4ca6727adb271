// Members picked by their keys, on examples of PostgreSQL's documentation of `jsonb`, and sets of
// items.
use crate::functions::{document_of, is_made_of};
use jsonb::{Error, OwnedJsonb};
use jsonb_functions::{
    Kept, array_distinct, array_except, array_intersection, array_overlap, object_keys, pick,
};
use std::alloc::Global;
use std::test::Fail;

// A text, names, which of its members are kept, and what is left.
const PICKED: &[(&str, &[&str], Kept, &str)] = &[
    ("{\"a\":\"b\",\"c\":\"d\"}", &["c", "a"], Kept::Others, "{}"),
    (
        "{\"a\":\"b\",\"c\":\"d\"}",
        &["a"],
        Kept::Others,
        "{\"c\":\"d\"}",
    ),
    (
        "{\"a\":\"b\",\"c\":\"d\"}",
        &["x", "c", "x"],
        Kept::Named,
        "{\"c\":\"d\"}",
    ),
    ("[1,2]", &["a"], Kept::Named, "[1,2]"),
];

// The value of a text with some of its members.
fn picked(alloc: Global, text: &str, names: &[&str], which: Kept) -> Result<OwnedJsonb, Error> {
    let owned = OwnedJsonb::parse(alloc, text)?;
    pick(alloc, document_of(&owned)?, names, which)
}

#[test]
fn members_picked(rt: HostRuntime) -> Result<(), Fail> {
    for &(text, names, which, left) in PICKED {
        let made = picked(rt.alloc(), text, names, which)?;
        assert!(rt; is_made_of(rt.alloc(), made, left)?, "{left} of {text}");
    }
    Ok(())
}

// The keys of a text's object; null if it is not one.
fn keys_of(alloc: Global, text: &str) -> Result<OwnedJsonb, Error> {
    let owned = OwnedJsonb::parse(alloc, text)?;
    match object_keys(alloc, document_of(&owned)?)? {
        Some(keys) => Ok(keys),
        None => OwnedJsonb::parse(alloc, "null"),
    }
}

// A text, and its keys.
const KEYS: &[(&str, &str)] = &[
    (
        "{\"f1\":\"abc\",\"f2\":{\"f3\":\"a\",\"f4\":\"b\"}}",
        "[\"f1\",\"f2\"]",
    ),
    ("{}", "[]"),
    ("[1]", "null"),
];

#[test]
fn keys_of_objects(rt: HostRuntime) -> Result<(), Fail> {
    for &(text, keys) in KEYS {
        let made = keys_of(rt.alloc(), text)?;
        assert!(rt; is_made_of(rt.alloc(), made, keys)?, "{text}");
    }
    Ok(())
}

// Two texts, whether they share an item, what both have, and what the first has without the second.
const SETS: &[(&str, &str, bool, &str, &str)] = &[
    ("[1,1,2,3]", "[1,3,3]", true, "[1,3]", "[1,2]"),
    ("[1,1,2]", "[2.0,1]", true, "[1,2]", "[1]"),
    ("[1,2]", "[]", false, "[]", "[1,2]"),
    ("[[1],{\"a\":1}]", "{\"a\":1}", true, "[{\"a\":1}]", "[[1]]"),
    ("1", "\"1\"", false, "[]", "[1]"),
];

// Whether the values of two texts share an item.
fn is_shared(alloc: Global, left: &str, right: &str) -> Result<bool, Error> {
    let left = OwnedJsonb::parse(alloc, left)?;
    let right = OwnedJsonb::parse(alloc, right)?;
    array_overlap(alloc, document_of(&left)?, document_of(&right)?)
}

// The items that the values of two texts have both.
fn common(alloc: Global, left: &str, right: &str) -> Result<OwnedJsonb, Error> {
    let left = OwnedJsonb::parse(alloc, left)?;
    let right = OwnedJsonb::parse(alloc, right)?;
    array_intersection(alloc, document_of(&left)?, document_of(&right)?)
}

// The items of one text's value without those of another's.
fn rest(alloc: Global, left: &str, right: &str) -> Result<OwnedJsonb, Error> {
    let left = OwnedJsonb::parse(alloc, left)?;
    let right = OwnedJsonb::parse(alloc, right)?;
    array_except(alloc, document_of(&left)?, document_of(&right)?)
}

#[test]
fn items_shared(rt: HostRuntime) -> Result<(), Fail> {
    for &(left, right, shared, _, _) in SETS {
        assert!(rt;
            is_shared(rt.alloc(), left, right)? == shared,
            "{left} and {right}"
        );
    }
    Ok(())
}

#[test]
fn items_that_both_have(rt: HostRuntime) -> Result<(), Fail> {
    for &(left, right, _, both, _) in SETS {
        let made = common(rt.alloc(), left, right)?;
        assert!(rt; is_made_of(rt.alloc(), made, both)?, "{left} and {right}");
    }
    Ok(())
}

#[test]
fn items_taken_away(rt: HostRuntime) -> Result<(), Fail> {
    for &(left, right, _, _, without) in SETS {
        let made = rest(rt.alloc(), left, right)?;
        assert!(rt;
            is_made_of(rt.alloc(), made, without)?,
            "{left} and {right}"
        );
    }
    Ok(())
}

// A text, and its distinct items.
const DISTINCT: &[(&str, &str)] = &[
    ("[2,1,2.0,1,[],{},[]]", "[2,1,[],{}]"),
    ("{\"a\":1}", "[{\"a\":1}]"),
];

// The distinct items of a text's value.
fn distinct(alloc: Global, text: &str) -> Result<OwnedJsonb, Error> {
    let owned = OwnedJsonb::parse(alloc, text)?;
    array_distinct(alloc, document_of(&owned)?)
}

#[test]
fn distinct_items(rt: HostRuntime) -> Result<(), Fail> {
    for &(text, items) in DISTINCT {
        let made = distinct(rt.alloc(), text)?;
        assert!(rt; is_made_of(rt.alloc(), made, items)?, "{text}");
    }
    Ok(())
}
