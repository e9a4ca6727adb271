// The functions over documents, on examples of PostgreSQL's documentation of `jsonb`.
use jsonb::{Document, Error, Node, Number, NumberItem, OwnedJsonb};
use jsonb_functions::{
    Bound, Comparison, Condition, Edit, Selector, Step, Term, Test, append_index_keys,
    append_top_keys, concat, contains, contains_within, document_of_path, edit_document, exists,
    exists_path, get_path, merge_patch, read_path, read_path_text, select, select_first,
    select_within, steps_of_path, strip_nulls, top_key,
};
use std::alloc::Global;
use std::test::Fail;

// The document of bytes that are one.
pub fn document_of<'a>(owned: &'a OwnedJsonb) -> Result<Document<'a>, Error> {
    Document::new(owned.as_bytes()).ok_or(Error::InvalidJsonb)
}

// So many items that their scalars are sorted, if as many are looked for.
const NINE_TWICE: &str = "[1,2,3,4,5,6,7,8,9,1.0,2,3,4,5,6,7,8,9]";

// Two texts, and whether the first one's value contains the second one's.
const CONTAINED: &[(&str, &str, bool)] = &[
    ("\"foo\"", "\"foo\"", true),
    ("[1,2,3]", "[3,1]", true),
    ("[1,2,3]", "[1,2,2]", true),
    (
        "{\"product\":\"PostgreSQL\",\"version\":9.4,\"jsonb\":true}",
        "{\"version\":9.4}",
        true,
    ),
    ("[1,2,[1,3]]", "[1,3]", false),
    ("[1,2,[1,3]]", "[[1,3]]", true),
    ("{\"foo\":{\"bar\":\"baz\"}}", "{\"bar\":\"baz\"}", false),
    ("{\"foo\":{\"bar\":\"baz\"}}", "{\"foo\":{}}", true),
    ("[\"foo\",\"bar\"]", "\"bar\"", true),
    ("\"bar\"", "[\"bar\"]", false),
    (NINE_TWICE, "[9,8,7,6,5,4,3,2,1,9,8,7,6,5,4,3,2,1]", true),
    (NINE_TWICE, "[9,8,7,6,5,4,3,2,1,9,8,7,6,5,4,3,2,10]", false),
];

// Whether the value of one text contains that of another.
fn is_contained(alloc: Global, left: &str, right: &str) -> Result<bool, Error> {
    let left = OwnedJsonb::parse(alloc, left)?;
    let right = OwnedJsonb::parse(alloc, right)?;
    contains(alloc, document_of(&left)?, document_of(&right)?)
}

#[test]
fn documents_that_contain_others(rt: HostRuntime) -> Result<(), Fail> {
    for &(left, right, is_in) in CONTAINED {
        assert!(rt;
            is_contained(rt.alloc(), left, right)? == is_in,
            "{left} and {right}"
        );
    }
    Ok(())
}

// Two texts, and how many steps it takes to find out whether the first one's value contains the
// second one's.
const STEPS_TO_CONTAIN: &[(&str, &str, usize)] = &[
    ("{\"a\":1}", "{\"a\":1}", 4),
    ("{\"a\":1,\"bc\":2,\"d\":3}", "{\"bc\":2}", 7),
    ("{\"a\":1,\"bc\":2,\"d\":3}", "{\"b\":2}", 6),
    ("{\"a\":1}", "[1]", 1),
    ("[1,2,3]", "3", 3),
    ("[1,2,3]", "[3,1]", 5),
    ("[1,2,3]", "[4,1]", 4),
    ("\"abc\"", "\"abd\"", 4),
    ("\"abc\"", "\"ab\"", 1),
    (NINE_TWICE, "[9,8,7,6,5,4,3,2,1,9,8,7,6,5,4,3,2,1]", 37),
    (NINE_TWICE, "[10,8,7,6,5,4,3,2,1,9,8,7,6,5,4,3,2,1]", 20),
];

// What a search with so many steps answers.
fn contained_within(
    alloc: Global,
    left: &str,
    right: &str,
    steps: usize,
) -> Result<Option<bool>, Error> {
    let left = OwnedJsonb::parse(alloc, left)?;
    let right = OwnedJsonb::parse(alloc, right)?;
    contains_within(alloc, document_of(&left)?, document_of(&right)?, steps)
}

#[test]
fn values_contained_in_so_many_steps(rt: HostRuntime) -> Result<(), Fail> {
    for &(left, right, steps) in STEPS_TO_CONTAIN {
        let is_contained = is_contained(rt.alloc(), left, right)?;
        assert!(rt;
            contained_within(rt.alloc(), left, right, steps)? == Some(is_contained),
            "{left} and {right}"
        );
        assert!(rt;
            contained_within(rt.alloc(), left, right, steps - 1)?.is_none(),
            "{left} and {right} in fewer"
        );
    }
    Ok(())
}

// A text and a key, and whether the key is there.
const KEYS: &[(&str, &str, bool)] = &[
    ("[\"foo\",\"bar\",\"baz\"]", "bar", true),
    ("{\"foo\":\"bar\"}", "foo", true),
    ("{\"foo\":\"bar\"}", "bar", false),
    ("{\"foo\":{\"bar\":\"baz\"}}", "bar", false),
    ("\"foo\"", "foo", true),
];

// Whether a key is in the value of a text.
fn is_there(alloc: Global, text: &str, key: &str) -> Result<bool, Error> {
    let owned = OwnedJsonb::parse(alloc, text)?;
    Ok(exists(document_of(&owned)?, key))
}

#[test]
fn keys_that_are_there(rt: HostRuntime) -> Result<(), Fail> {
    for &(text, key, is_key) in KEYS {
        assert!(rt;
            is_there(rt.alloc(), text, key)? == is_key,
            "{key} in {text}"
        );
    }
    Ok(())
}

// The object {"a":[1,[5]]}, and paths to the number 5 and to nothing.
const NESTED: &[u8] = b"\x40\0\0\x01\x10\0\0\x01\x50\0\0\x18a\x80\0\0\x02\x20\0\0\x02\x50\0\0\x0a\
    \x50\x01\x80\0\0\x01\x20\0\0\x02\x50\x05";

const TO_FIVE: &[Step<'static>] = &[Step::Key("a"), Step::FromEnd(0), Step::Index(0)];

const BEYOND: &[Step<'static>] = &[Step::Key("a"), Step::Index(2)];

#[test]
fn values_at_the_end_of_a_path(rt: HostRuntime) {
    let Some(document) = Document::new(NESTED) else {
        return assert!(rt; false);
    };
    assert!(rt; get_path(document, TO_FIVE) == Some(number_node(5)));
    assert!(rt; get_path(document, BEYOND) == None);
}

// Whether the path of a text leads to the number 5 in a document; nothing, if it gives no path.
fn leads_to_five(alloc: Global, document: Document, text: &str) -> Result<Option<bool>, Error> {
    let owned = OwnedJsonb::parse(alloc, text)?;
    let Some(path) = read_path(alloc, document_of(&owned)?)? else {
        return Ok(None);
    };
    let found = get_path(document, &path);
    Ok(Some(found == Some(number_node(5))))
}

// Texts that give paths, or none, and whether they lead to the number 5 in `NESTED`.
const PATHS: &[(&str, Option<bool>)] = &[
    ("[\"a\",1,0]", Some(true)),
    ("[\"a\",-1,-1]", Some(true)),
    ("[\"a\",-2]", Some(false)),
    ("[]", Some(false)),
    ("[\"a\",null]", None),
    ("[1.0]", None),
    ("\"a\"", None),
];

#[test]
fn paths_given_as_documents(rt: HostRuntime) -> Result<(), Fail> {
    let Some(document) = Document::new(NESTED) else {
        return Ok(assert!(rt; false));
    };
    for &(text, is_five) in PATHS {
        assert!(rt;
            leads_to_five(rt.alloc(), document, text)? == is_five,
            "{text}"
        );
    }
    Ok(())
}

// A part of PostgreSQL's example of a track.
const TRACK: &str = "{\"segments\":[{\"HR\":73,\"at\":[47,13]},{\"HR\":135,\"at\":[46,12]}]}";

// The node of a number.
fn number_node(number: u64) -> Node<'static> {
    Node::Number(NumberItem::from_number(Number::UInt64(number)))
}

// Whether nodes are these numbers.
fn are_numbers(nodes: &[Node], numbers: &[u64]) -> bool {
    if nodes.len() != numbers.len() {
        return false;
    }
    for (node, number) in nodes.iter().zip(numbers) {
        if *node != number_node(*number) {
            return false;
        }
    }
    true
}

// Whether a path leads to these numbers in `TRACK`, and to nothing else.
fn leads_to(alloc: Global, path: &[Selector], numbers: &[u64]) -> Result<bool, Error> {
    let owned = OwnedJsonb::parse(alloc, TRACK)?;
    let document = document_of(&owned)?;
    let nodes = select(alloc, document, path)?;
    let first = numbers.first().map(|number| number_node(*number));
    let is_first = select_first(document, path) == first;
    let exists = exists_path(document, path) != numbers.is_empty();
    Ok(are_numbers(&nodes, numbers) && is_first && exists)
}

#[test]
fn values_selected_by_paths_with_wildcards(rt: HostRuntime) -> Result<(), Fail> {
    let rates = [
        Selector::Step(Step::Key("segments")),
        Selector::AllItems,
        Selector::Step(Step::Key("HR")),
    ];
    assert!(rt; leads_to(rt.alloc(), &rates, &[73, 135])?);
    let last = [
        Selector::AllMembers,
        Selector::Step(Step::FromEnd(0)),
        Selector::AllMembers,
        Selector::AllItems,
    ];
    assert!(rt; leads_to(rt.alloc(), &last, &[46, 12])?);
    let range = Selector::Range {
        first: Bound::FromStart(1),
        last: Bound::FromEnd(0),
    };
    let second = [
        Selector::Step(Step::Key("segments")),
        range,
        Selector::Step(Step::Key("at")),
        Selector::Step(Step::Index(1)),
    ];
    assert!(rt; leads_to(rt.alloc(), &second, &[12])?);
    assert!(rt; leads_to(rt.alloc(), &[Selector::AllItems], &[])?);
    Ok(())
}

// Texts that give paths, with the numbers that these select in `TRACK`, or that give none.
const PATH_TEXTS: &[(&str, Option<&[u64]>)] = &[
    ("$.segments[*].HR", Some(&[73, 135])),
    ("$.*[#-1].*[*]", Some(&[46, 12])),
    ("$.\"segments\"[1].at[1]", Some(&[12])),
    ("$.\"*\"[0]", Some(&[])),
    ("$.segments[0].at[0 to #-1]", Some(&[47, 13])),
    ("$.segments[0].at[1 to 0]", Some(&[])),
    ("$.segments[#]", Some(&[])),
    ("$.segments[99999999999999999999]", Some(&[])),
    ("segments", None),
    ("$.", None),
    ("$..HR", None),
    ("$.\"segments", None),
    ("$.segments[1", None),
    ("$.segments[-1]", None),
    ("$.segments[0 to ]", None),
    ("$.segments[0  to 1]", None),
    ("$.segments[0] ", None),
    ("$.segments[last].HR", Some(&[135])),
    ("$.segments[last - 1].HR", Some(&[73])),
    ("$.segments[last-1].at[last]", Some(&[13])),
    ("$.segments[last -1].HR", Some(&[73])),
    ("$.segments[last- 1].HR", Some(&[73])),
    ("$.segments[last - 2].HR", Some(&[])),
    ("$.segments[last - 1 to last].HR", Some(&[73, 135])),
    ("$.segments[0 to last].at[0]", Some(&[47, 46])),
    ("$.segments[1, 0,last,1].HR", Some(&[135, 73, 135, 135])),
    ("$.segments[ 0,1].HR", Some(&[73, 135])),
    ("$.segments[ 0].HR", None),
    ("$.segments[last - 1, 7, #-1].at[1]", Some(&[13, 12])),
    ("$.segments[last - 1, 7, #-1].at[1, 0]", None),
    ("$.*[0, #].HR[0, 1]", None),
    ("$.segments[0,]", None),
    ("$.segments[,0]", None),
    ("$.segments[0 ,1]", None),
    ("$.segments[0, *]", None),
    ("$.segments[0, 0 to 1]", None),
    ("$.segments[last + 1]", None),
    ("$.segments[last -]", None),
    ("$.segments[lasts]", None),
    ("$.segments[*]?(@.at[last] == 12).HR", Some(&[135])),
    ("$.segments[*]?(@.at[0, 1] == 12).HR", None),
    ("$.segments[*]?(@.HR > 73).at[0]", Some(&[46])),
    ("$.segments[*]?(@.HR >= 73).at[0]", Some(&[47, 46])),
    ("$.segments[*]?(@.HR < 135).HR", Some(&[73])),
    ("$.segments[*]?(@.HR <= 7.3e1).HR", Some(&[73])),
    ("$.segments[*]?(@.HR == 135.00).HR", Some(&[135])),
    ("$.segments[*]?(@.HR != 135).HR", Some(&[73])),
    ("$.segments[*]?(@.HR <> 73).HR", Some(&[135])),
    ("$.segments[*].at[*]?(@ > 40)?(@ < 47)", Some(&[46])),
    ("$.segments[*]?(@.\"at\"[#-1] == 12).HR", Some(&[135])),
    ("$.segments[*]?(@.none == null).HR", Some(&[])),
    ("$.segments[*]?(@.at[2] != null).HR", Some(&[])),
    ("$?(@.segments[1].HR == 135).*[0].HR", Some(&[73])),
    ("$?(@.segments[0] != \"a b)\").*[0].HR", Some(&[73])),
    ("$?(@.segments == true).*[0].HR", Some(&[])),
    ("$.segments[*]?(@.HR > 73", None),
    ("$.segments[*]?(@.HR >  73)", None),
    ("$.segments[*]?(@.HR > 73 ).HR", Some(&[135])),
    ("$.segments[*] ? ( @.HR > 73 ).HR", Some(&[135])),
    ("$.segments.size()", None),
    ("$.segments[*]?(@.HR>73)", None),
    ("$.segments[*]?(@.HR = 73)", None),
    ("$.segments[*]?(@.HR === 73)", None),
    ("$.segments[*]?(@.HR > 073)", None),
    ("$.segments[*]?(@.HR > [73])", None),
    ("$.segments[*]?(@.HR > \"73)", None),
    ("$.segments[*]?(@.HR > 73) ", None),
    ("$.segments[*]?(@.at[*] > 40)", None),
    ("$.segments[*]?(@.* > 40)", None),
    ("$.segments[*]?($.HR > 73)", None),
    ("$.segments?", None),
    ("$.segments[*]?(@.HR > 70 && @.HR < 100).HR", Some(&[73])),
    (
        "$.segments[*]?(@.HR < 100||@.HR > 130).HR",
        Some(&[73, 135]),
    ),
    (
        "$.segments[*]?(@.HR == 73 || @.HR == 135 && @.HR < 100).HR",
        Some(&[73]),
    ),
    (
        "$.segments[*]?((@.HR == 73 || @.HR == 135) && @.HR > 100).HR",
        Some(&[135]),
    ),
    (
        "$.segments[*]?(@.HR > 100 && @.HR < 50 || @.HR == 73).HR",
        Some(&[73]),
    ),
    ("$.segments[*]?(!(@.HR == 73)).HR", Some(&[135])),
    ("$.segments[*]?(!(@.none == 1)).HR", Some(&[73, 135])),
    (
        "$.segments[*]?( ! ( @.HR == 73 || @.HR == 135 ) ).HR",
        Some(&[]),
    ),
    (
        "$.segments[*]?(!(@.HR == 73 && !(@.HR == 73))).HR",
        Some(&[73, 135]),
    ),
    ("$.segments[*]?((@.HR == 73)).HR", Some(&[73])),
    (
        "$.segments[*]?(!(!(@.HR == 73 || @.HR == 1) || @.at[0] == 1)).HR",
        Some(&[73]),
    ),
    ("$.segments[*]?(@.HR == 73 &&).HR", None),
    ("$.segments[*]?(&& @.HR == 73).HR", None),
    ("$.segments[*]?(@.HR == 73 & @.HR == 73).HR", None),
    ("$.segments[*]?(@.HR == 73 @.HR == 73).HR", None),
    ("$.segments[*]?(!@.HR == 73).HR", None),
    ("$.segments[*]?((@.HR == 73).HR", None),
    ("$.segments[*]?().HR", None),
    ("$.segments[*]?(exists(@.HR)).HR", Some(&[73, 135])),
    ("$.segments[*] ? ( exists ( @.none ) ).HR", Some(&[])),
    ("$.segments[*]?(!exists(@.none)).HR", Some(&[73, 135])),
    ("$.segments[*]?( ! exists ( @ ) ).HR", Some(&[])),
    (
        "$.segments[*]?(exists(@.\"at\"[last]) && @.HR > 73).HR",
        Some(&[135]),
    ),
    (
        "$.segments[*]?(@.HR == 73 || !(exists(@.at[0]) && !exists(@.at[9]))).HR",
        Some(&[73]),
    ),
    (
        "$.segments[*]?(exists(@.HR) && exists(@.none)).HR",
        Some(&[]),
    ),
    ("$?(exists(@.exists)).segments[0].HR", Some(&[])),
    ("$?(@.exists == 1 || exists(@)).segments[0].HR", Some(&[73])),
    ("$.segments[*]?(exists(@.HR).HR", None),
    ("$.segments[*]?(exists(@.HR == 73)).HR", None),
    ("$.segments[*]?(exists(@.HR) == true).HR", None),
    ("$.segments[*]?(exists(@.at[*])).HR", None),
    ("$.segments[*]?(exists(HR)).HR", None),
    ("$.segments[*]?(exists @.HR).HR", None),
    ("$.segments[*]?(exist(@.HR)).HR", None),
    ("$.segments[*]?(@.HR) == 73).HR", None),
];

// Whether the path of a text selects these numbers; nothing, if it gives no path.
fn text_selects(
    alloc: Global,
    document: Document,
    text: &str,
    numbers: &[u64],
) -> Result<Option<bool>, Error> {
    let Some(path) = read_path_text(alloc, text)? else {
        return Ok(None);
    };
    let nodes = select(alloc, document, &path)?;
    Ok(Some(are_numbers(&nodes, numbers)))
}

#[test]
fn paths_given_as_texts(rt: HostRuntime) -> Result<(), Fail> {
    let owned = OwnedJsonb::parse(rt.alloc(), TRACK)?;
    let document = document_of(&owned)?;
    for &(text, numbers) in PATH_TEXTS {
        let selects = text_selects(rt.alloc(), document, text, numbers.unwrap_or(&[]))?;
        assert!(rt; selects == numbers.map(|_| true), "{text}");
    }
    Ok(())
}

// Whether the one rate above a limit is this one.
fn leads_above(alloc: Global, limit: Document, rate: u64) -> Result<bool, Error> {
    let mut to_rate = Vec::new(alloc);
    to_rate.push(Step::Key("HR"))?;
    let mut terms = Vec::new(alloc);
    terms.push(Term::Test(Test {
        path: to_rate,
        comparison: Comparison::Greater,
        value: limit.value(),
    }))?;
    let condition = Condition { terms };
    let path = [
        Selector::Step(Step::Key("segments")),
        Selector::AllItems,
        Selector::Filter(condition),
        Selector::Step(Step::Key("HR")),
    ];
    leads_to(alloc, &path, &[rate])
}

#[test]
fn values_kept_by_a_filter(rt: HostRuntime) -> Result<(), Fail> {
    let limit = OwnedJsonb::parse(rt.alloc(), "130")?;
    let limit = document_of(&limit)?;
    assert!(rt; leads_above(rt.alloc(), limit, 135)?);
    Ok(())
}

// So many filters in turn, each of which keeps a value that equals another.
fn filters_in_turn<'a>(
    alloc: Global,
    value: Node<'a>,
    count: usize,
) -> Result<Vec<Selector<'a>>, Error> {
    let mut path = Vec::with_capacity(alloc, count)?;
    for _ in 0..count {
        let mut terms = Vec::with_capacity(alloc, 1)?;
        terms.push(Term::Test(Test {
            path: Vec::new(alloc),
            comparison: Comparison::Equal,
            value,
        }))?;
        path.push(Selector::Filter(Condition { terms }))?;
    }
    Ok(path)
}

#[test]
fn a_million_filters_take_no_stack(rt: HostRuntime) -> Result<(), Fail> {
    let two = OwnedJsonb::parse(rt.alloc(), "2")?;
    let document = document_of(&two)?;
    let path = filters_in_turn(rt.alloc(), document.value(), 1_000_000)?;
    let nodes = select(rt.alloc(), document, &path)?;
    assert!(rt; are_numbers(&nodes, &[2]));
    Ok(())
}

// How many values a path selects in so many steps of {"a":2}, as far as these suffice.
fn selected_within(alloc: Global, text: &str, steps: usize) -> Result<Option<usize>, Error> {
    let owned = OwnedJsonb::parse(alloc, "{\"a\":2}")?;
    let Some(path) = read_path_text(alloc, text)? else {
        return Ok(None);
    };
    let nodes = select_within(alloc, document_of(&owned)?, &path, steps)?;
    Ok(nodes.map(|nodes| nodes.len()))
}

#[test]
fn values_selected_in_so_many_steps(rt: HostRuntime) -> Result<(), Fail> {
    assert_eq!(rt; selected_within(rt.alloc(), "$.*?(@ > 1)", 2)?, None);
    assert_eq!(rt; selected_within(rt.alloc(), "$.*?(@ > 1)", 3)?, Some(1));
    assert_eq!(rt; selected_within(rt.alloc(), "$?(!exists(@.b))", 1)?, None);
    assert_eq!(rt;
        selected_within(rt.alloc(), "$?(!exists(@.b))", 2)?,
        Some(1)
    );
    Ok(())
}

// The value to which the path of a text leads, if it gives a path without wildcards.
fn value_at_text<'a>(
    alloc: Global,
    document: Document<'a>,
    text: &str,
) -> Result<Option<Node<'a>>, Error> {
    let Some(path) = read_path_text(alloc, text)? else {
        return Ok(None);
    };
    let Some(steps) = steps_of_path(alloc, &path)? else {
        return Ok(None);
    };
    Ok(get_path(document, &steps))
}

#[test]
fn steps_of_paths_without_wildcards(rt: HostRuntime) -> Result<(), Fail> {
    let owned = OwnedJsonb::parse(rt.alloc(), TRACK)?;
    let document = document_of(&owned)?;
    let last = value_at_text(rt.alloc(), document, "$.segments[#-1].HR")?;
    assert!(rt; last == Some(number_node(135)));
    assert!(rt; value_at_text(rt.alloc(), document, "$.segments[*].HR")? == None);
    Ok(())
}

// Whether a document is the canonical one of a text.
pub fn is_made_of(alloc: Global, made: OwnedJsonb, text: &str) -> Result<bool, Error> {
    let owned = OwnedJsonb::parse(alloc, text)?;
    Ok(made.as_bytes() == owned.as_bytes())
}

#[test]
fn documents_of_paths(rt: HostRuntime) -> Result<(), Fail> {
    let path = [Step::Key("a"), Step::Index(7), Step::FromEnd(0)];
    let made = document_of_path(rt.alloc(), &path)?;
    assert!(rt; is_made_of(rt.alloc(), made, "[\"a\",7,-1]")?);
    let far = [
        Step::End,
        Step::Index(usize::MAX),
        Step::FromEnd(usize::MAX),
    ];
    let made = document_of_path(rt.alloc(), &far)?;
    let text = "[18446744073709551615,18446744073709551615,-9223372036854775808]";
    assert!(rt; is_made_of(rt.alloc(), made, text)?);
    Ok(())
}

// A text that is edited at the end of a path, with another text's value.
fn edited(
    alloc: Global,
    text: &str,
    path: &[Step],
    value: &str,
    is_put: bool,
) -> Result<OwnedJsonb, Error> {
    let owned = OwnedJsonb::parse(alloc, text)?;
    let value = OwnedJsonb::parse(alloc, value)?;
    let document = document_of(&value)?;
    let edit = if is_put {
        Edit::Put(document)
    } else {
        Edit::Insert(document)
    };
    edit_document(alloc, document_of(&owned)?, path, edit)
}

#[test]
fn a_value_put_at_the_end_of_a_path(rt: HostRuntime) -> Result<(), Fail> {
    let text = "[{\"f1\":1,\"f2\":null},2,null,3]";
    let path = [Step::Index(0), Step::Key("f1")];
    let made = edited(rt.alloc(), text, &path, "[2,3,4]", true)?;
    let expected = "[{\"f1\":[2,3,4],\"f2\":null},2,null,3]";
    assert!(rt; is_made_of(rt.alloc(), made, expected)?);
    Ok(())
}

#[test]
fn a_value_inserted_before_an_item(rt: HostRuntime) -> Result<(), Fail> {
    let path = [Step::Key("a"), Step::Index(1)];
    let made = edited(rt.alloc(), "{\"a\":[0,1,2]}", &path, "\"new_value\"", false)?;
    assert!(rt; is_made_of(rt.alloc(), made, "{\"a\":[0,\"new_value\",1,2]}")?);
    Ok(())
}

// A text, the text of a path, and what `json_set` of SQLite makes of them with 9.
const CREATED: &[(&str, &str, &str)] = &[
    ("{}", "$.a.b", "{\"a\":{\"b\":9}}"),
    ("{}", "$.a[0].b", "{\"a\":[{\"b\":9}]}"),
    ("{}", "$.a[1]", "{}"),
    ("{\"a\":1}", "$.a.b", "{\"a\":1}"),
    ("[1]", "$[1].a.b[0].c", "[1,{\"a\":{\"b\":[{\"c\":9}]}}]"),
    ("[1]", "$[#].a", "[1,{\"a\":9}]"),
    ("[1]", "$[5]", "[1]"),
    ("1", "$", "9"),
];

// A text's value, with 9 created at the end of the path that another text gives.
fn created(alloc: Global, text: &str, path: &str) -> Result<OwnedJsonb, Error> {
    let owned = OwnedJsonb::parse(alloc, text)?;
    let nine = OwnedJsonb::parse(alloc, "9")?;
    let path = read_path_text(alloc, path)?.ok_or(Error::InvalidJson)?;
    let steps = steps_of_path(alloc, &path)?.ok_or(Error::InvalidJson)?;
    let edit = Edit::Create(document_of(&nine)?);
    edit_document(alloc, document_of(&owned)?, &steps, edit)
}

#[test]
fn values_created_in_containers(rt: HostRuntime) -> Result<(), Fail> {
    for &(text, path, expected) in CREATED {
        let made = created(rt.alloc(), text, path)?;
        assert!(rt; is_made_of(rt.alloc(), made, expected)?, "{text} at {path}");
    }
    Ok(())
}

// A text's value without what is at the end of a path.
fn without(alloc: Global, text: &str, path: &[Step]) -> Result<OwnedJsonb, Error> {
    let owned = OwnedJsonb::parse(alloc, text)?;
    edit_document(alloc, document_of(&owned)?, path, Edit::Remove)
}

#[test]
fn a_member_removed(rt: HostRuntime) -> Result<(), Fail> {
    let path = [Step::Index(1), Step::Key("b")];
    let made = without(rt.alloc(), "[\"a\",{\"b\":1}]", &path)?;
    assert!(rt; is_made_of(rt.alloc(), made, "[\"a\",{}]")?);
    Ok(())
}

// Two texts, and one of their values joined.
const JOINED: &[(&str, &str, &str)] = &[
    (
        "[\"a\",\"b\"]",
        "[\"a\",\"d\"]",
        "[\"a\",\"b\",\"a\",\"d\"]",
    ),
    (
        "{\"a\":\"b\"}",
        "{\"c\":\"d\"}",
        "{\"a\":\"b\",\"c\":\"d\"}",
    ),
    ("{\"a\":1,\"b\":2}", "{\"a\":3}", "{\"a\":3,\"b\":2}"),
    ("[1,2]", "3", "[1,2,3]"),
    ("{\"a\":\"b\"}", "42", "[{\"a\":\"b\"},42]"),
];

// The values of two texts joined.
fn joined(alloc: Global, left: &str, right: &str) -> Result<OwnedJsonb, Error> {
    let left = OwnedJsonb::parse(alloc, left)?;
    let right = OwnedJsonb::parse(alloc, right)?;
    concat(alloc, document_of(&left)?, document_of(&right)?)
}

#[test]
fn documents_joined(rt: HostRuntime) -> Result<(), Fail> {
    for &(left, right, text) in JOINED {
        let made = joined(rt.alloc(), left, right)?;
        assert!(rt; is_made_of(rt.alloc(), made, text)?, "{left} and {right}");
    }
    Ok(())
}

// The examples of RFC 7396: a target, a patch and the result.
const PATCHED: &[(&str, &str, &str)] = &[
    ("{\"a\":\"b\"}", "{\"a\":\"c\"}", "{\"a\":\"c\"}"),
    (
        "{\"a\":\"b\"}",
        "{\"b\":\"c\"}",
        "{\"a\":\"b\",\"b\":\"c\"}",
    ),
    ("{\"a\":\"b\"}", "{\"a\":null}", "{}"),
    ("{\"a\":\"b\",\"b\":\"c\"}", "{\"a\":null}", "{\"b\":\"c\"}"),
    ("{\"a\":[\"b\"]}", "{\"a\":\"c\"}", "{\"a\":\"c\"}"),
    ("{\"a\":\"c\"}", "{\"a\":[\"b\"]}", "{\"a\":[\"b\"]}"),
    (
        "{\"a\":{\"b\":\"c\"}}",
        "{\"a\":{\"b\":\"d\",\"c\":null}}",
        "{\"a\":{\"b\":\"d\"}}",
    ),
    ("{\"a\":[{\"b\":\"c\"}]}", "{\"a\":[1]}", "{\"a\":[1]}"),
    ("[\"a\",\"b\"]", "[\"c\",\"d\"]", "[\"c\",\"d\"]"),
    ("{\"a\":\"b\"}", "[\"c\"]", "[\"c\"]"),
    ("{\"a\":\"foo\"}", "null", "null"),
    ("{\"a\":\"foo\"}", "\"bar\"", "\"bar\""),
    ("{\"e\":null}", "{\"a\":1}", "{\"e\":null,\"a\":1}"),
    ("[1,2]", "{\"a\":\"b\",\"c\":null}", "{\"a\":\"b\"}"),
    (
        "{}",
        "{\"a\":{\"bb\":{\"ccc\":null}}}",
        "{\"a\":{\"bb\":{}}}",
    ),
];

// The value of one text patched by that of another.
fn patched(alloc: Global, target: &str, patch: &str) -> Result<OwnedJsonb, Error> {
    let target = OwnedJsonb::parse(alloc, target)?;
    let patch = OwnedJsonb::parse(alloc, patch)?;
    merge_patch(alloc, document_of(&target)?, document_of(&patch)?)
}

#[test]
fn documents_patched(rt: HostRuntime) -> Result<(), Fail> {
    for &(target, patch, text) in PATCHED {
        let made = patched(rt.alloc(), target, patch)?;
        assert!(rt; is_made_of(rt.alloc(), made, text)?, "{target} and {patch}");
    }
    Ok(())
}

// Texts, and their values without the members that are null.
const STRIPPED: &[(&str, &str)] = &[
    ("[{\"f1\":1,\"f2\":null},2,null,3]", "[{\"f1\":1},2,null,3]"),
    ("{\"a\":{\"b\":null},\"c\":null}", "{\"a\":{}}"),
    ("[[{\"a\":[{\"b\":null}]}]]", "[[{\"a\":[{}]}]]"),
    ("null", "null"),
    ("1.50", "1.50"),
];

// The value of a text without the members that are null.
fn stripped(alloc: Global, text: &str) -> Result<OwnedJsonb, Error> {
    let owned = OwnedJsonb::parse(alloc, text)?;
    strip_nulls(alloc, document_of(&owned)?)
}

#[test]
fn members_that_are_null_left_out(rt: HostRuntime) -> Result<(), Fail> {
    for &(text, expected) in STRIPPED {
        let made = stripped(rt.alloc(), text)?;
        assert!(rt; is_made_of(rt.alloc(), made, expected)?, "{text}");
    }
    Ok(())
}

// The index keys of {"a":[1,"x"]}: the hashes of the bytes 61 01 00 82 02 and 61 01 00 a0 78 01,
// which were computed by another program.
const INDEX_KEYS: &[u64] = &[0x0C38_4C06_A693_BD15, 0x5C9D_514D_A160_A35C];

#[test]
fn index_keys(rt: HostRuntime) -> Result<(), Fail> {
    let owned = OwnedJsonb::parse(rt.alloc(), "{\"a\":[1,\"x\"]}")?;
    let mut keys = Vec::new(rt.alloc());
    append_index_keys(document_of(&owned)?, &mut keys)?;
    assert!(rt; keys.as_slice() == INDEX_KEYS);
    Ok(())
}

// The hashes of the keys of {"a":1,"b":2}: of the bytes 00 00 61 and 00 00 62, likewise.
const TOP_KEYS: &[u64] = &[0xD94C_B118_6C0E_8AE4, 0xD94C_B418_6C0E_8FFD];

#[test]
fn top_keys(rt: HostRuntime) -> Result<(), Fail> {
    let owned = OwnedJsonb::parse(rt.alloc(), "{\"a\":1,\"b\":2}")?;
    let mut keys = Vec::new(rt.alloc());
    append_top_keys(document_of(&owned)?, &mut keys)?;
    assert!(rt; keys.as_slice() == TOP_KEYS);
    assert!(rt; [top_key("a"), top_key("b")].as_slice() == TOP_KEYS);
    Ok(())
}
