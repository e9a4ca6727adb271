// Paths that are given as names: JSON pointers, and lists as PostgreSQL writes them.
use crate::functions::document_of;
use jsonb::{Error, OwnedJsonb};
use jsonb_functions::{get_path, read_name_list, read_pointer, steps_of_names};
use std::alloc::Global;
use std::test::Fail;

// The text of the value to which names lead in a document; nothing, if they lead nowhere.
fn text_at(alloc: Global, owned: &OwnedJsonb, names: &[String]) -> Result<Option<String>, Error> {
    let document = document_of(owned)?;
    let steps = steps_of_names(alloc, document, names)?;
    match get_path(document, &steps) {
        Some(node) => Ok(Some(node.to_string(alloc)?)),
        None => Ok(None),
    }
}

// Whether a pointer leads to the value of this text in a document.
fn points_to(alloc: Global, owned: &OwnedJsonb, pointer: &str, text: &str) -> Result<bool, Error> {
    let Some(names) = read_pointer(alloc, pointer)? else {
        return Ok(false);
    };
    match text_at(alloc, owned, &names)? {
        Some(found) => Ok(found.as_str() == text),
        None => Ok(false),
    }
}

// The document of section 5 of RFC 6901, and its pointers, with the values that they lead to.
const POINTED: &str = "{\"foo\":[\"bar\",\"baz\"],\"\":0,\"a/b\":1,\"c%d\":2,\"e^f\":3,\"g|h\":4,\
    \"i\\\\j\":5,\"k\\\"l\":6,\" \":7,\"m~n\":8}";

const POINTERS: &[(&str, &str)] = &[
    ("/foo", "[\"bar\",\"baz\"]"),
    ("/foo/0", "\"bar\""),
    ("/", "0"),
    ("/a~1b", "1"),
    ("/c%d", "2"),
    ("/e^f", "3"),
    ("/g|h", "4"),
    ("/i\\j", "5"),
    ("/k\"l", "6"),
    ("/ ", "7"),
    ("/m~0n", "8"),
    ("/foo/-1", "\"baz\""),
];

#[test]
fn values_at_pointers(rt: HostRuntime) -> Result<(), Fail> {
    let owned = OwnedJsonb::parse(rt.alloc(), POINTED)?;
    for &(pointer, text) in POINTERS {
        assert!(rt; points_to(rt.alloc(), &owned, pointer, text)?, "{pointer}");
    }
    Ok(())
}

// Pointers that lead nowhere in that document, and texts that are not pointers.
const POINTERS_TO_NOTHING: &[&str] = &["/foo/2", "/foo/00", "/foo/-", "/foo/-0", "/foo/a/0", "/0"];

const NO_POINTERS: &[&str] = &["foo", "~", "/~", "/a~2", "/a~/b", "/~~0"];

// Whether a text is a pointer, and leads nowhere in a document.
fn points_to_nothing(alloc: Global, owned: &OwnedJsonb, pointer: &str) -> Result<bool, Error> {
    let Some(names) = read_pointer(alloc, pointer)? else {
        return Ok(false);
    };
    Ok(text_at(alloc, owned, &names)?.is_none())
}

#[test]
fn pointers_that_lead_nowhere(rt: HostRuntime) -> Result<(), Fail> {
    let owned = OwnedJsonb::parse(rt.alloc(), POINTED)?;
    for pointer in POINTERS_TO_NOTHING {
        assert!(rt;
            points_to_nothing(rt.alloc(), &owned, pointer)?,
            "{pointer}"
        );
    }
    for text in NO_POINTERS {
        assert!(rt; read_pointer(rt.alloc(), text)?.is_none(), "{text}");
    }
    Ok(())
}

// Whether a list gives these names.
fn lists(alloc: Global, text: &str, expected: &[&str]) -> Result<bool, Error> {
    let Some(names) = read_name_list(alloc, text)? else {
        return Ok(false);
    };
    let mut are_same = names.len() == expected.len();
    for (name, wanted) in names.iter().zip(expected) {
        are_same = are_same && name.as_str() == *wanted;
    }
    Ok(are_same)
}

// Lists as PostgreSQL prints arrays of texts, and their names.
const LISTS: &[(&str, &[&str])] = &[
    ("{}", &[]),
    ("{a,b,1}", &["a", "b", "1"]),
    ("{\"\"}", &[""]),
    ("{\"null\",nulls}", &["null", "nulls"]),
    ("{\"a b\",\"c,d\",\"{e}\"}", &["a b", "c,d", "{e}"]),
    ("{\"a\\\"b\",\"c\\\\d\",\"\\é\"}", &["a\"b", "c\\d", "é"]),
    ("{é,$.a,/b~1c}", &["é", "$.a", "/b~1c"]),
];

const NO_LISTS: &[&str] = &[
    "",
    "{",
    "}",
    "a",
    "{a",
    "{a}}",
    "{,}",
    "{a,}",
    "{a,b",
    "{NULL}",
    "{a,null}",
    "{{a},{b}}",
    "{a b}",
    "{ a}",
    "{a }",
    "{\"a}",
    "{\"a\"b}",
    "{a\"b\"}",
    "{a\\b}",
    "{\"a\\\"}",
    "{} ",
    "[0:0]={a}",
];

#[test]
fn names_in_lists(rt: HostRuntime) -> Result<(), Fail> {
    for &(text, expected) in LISTS {
        assert!(rt; lists(rt.alloc(), text, expected)?, "{text}");
    }
    for text in NO_LISTS {
        assert!(rt; read_name_list(rt.alloc(), text)?.is_none(), "{text}");
    }
    Ok(())
}
