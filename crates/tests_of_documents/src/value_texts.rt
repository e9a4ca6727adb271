// Texts of numbers, strings and extension values with a writer that fails, and with width and fill.
use crate::documents::Narrow;
use jsonb::layer::{write_number, write_string};
use jsonb::{Decimal64, ExtensionValue, Interval, Number, Opaque, extension_text};
use std::alloc::Global;
use std::fmt;
use std::test::Fail;

fn with_room(alloc: Global, room: usize) -> fmt::Formatter<Narrow> {
    let text = String::new(alloc);
    fmt::Formatter::new(Narrow { text, room })
}

// Whether a writer with this much room accepted the whole text, or otherwise some prefix of it.
fn is_taken(f: fmt::Formatter<Narrow>, answer: fmt::Result, room: usize, text: &str) -> bool {
    let beginning = f.into_inner().text;
    answer.is_ok() == (room >= text.len())
        && answer.is_ok() == (beginning.as_str() == text)
        && text.starts_with(beginning.as_str())
}

const NUMBER: Number = Number::Decimal64(Decimal64 {
    scale: 9,
    value: -1234,
});

#[test]
fn a_number_before_a_writer_that_refuses(rt: HostRuntime) {
    for room in 0..=12 {
        let mut f = with_room(rt.alloc(), room);
        let answer = write_number(&NUMBER, &mut f);
        assert!(rt; is_taken(f, answer, room, "-0.000001234"), "{room}");
    }
}

#[test]
fn a_string_before_a_writer_that_refuses(rt: HostRuntime) {
    for room in 0..=16 {
        let mut f = with_room(rt.alloc(), room);
        let answer = write_string("a\nb\u{1}c\"", &mut f);
        assert!(rt;
            is_taken(f, answer, room, "\"a\\nb\\u0001c\\\"\""),
            "{room}"
        );
    }
}

const INTERVAL: ExtensionValue = ExtensionValue::Interval(Interval {
    months: -1,
    days: 2,
    micros: 3,
});

#[test]
fn an_extension_value_before_a_writer_that_refuses(rt: HostRuntime) {
    for room in 0..=6 {
        let mut f = with_room(rt.alloc(), room);
        let answer = extension_text(&INTERVAL, &mut f);
        assert!(rt; is_taken(f, answer, room, "-1 2 3"), "{room}");
    }
}

#[test]
fn width_and_fill_are_passed_over(rt: HostRuntime) -> Result<(), Fail> {
    assert!(rt; format!(in rt.alloc(); "{INTERVAL:*>40}")?.as_str() == "-1 2 3");
    Ok(())
}

#[test]
fn opaque_values_hold_known_tags(rt: HostRuntime) {
    assert!(rt; Opaque::new(0x40, b"").is_none() && Opaque::new(0x41, b"").is_none());
    assert!(rt; Opaque::new(0x50, b"\xab\x01").is_some() && Opaque::new(0xf0, b"").is_some());
}
