// Texts of documents: parsed again, under width and fill, and with a writer that refuses.
use crate::documents::{DOCUMENTS, Narrow, bytes_of};
use jsonb::{JsonbItemType, OwnedJsonb, RawJsonb};
use std::alloc::Global;
use std::fmt;
use std::test::Fail;

// Whether a text of a document is parsed as an equal document.
fn comes_back(alloc: Global, document: RawJsonb, text: &str) -> Result<bool, Fail> {
    Ok(OwnedJsonb::parse(alloc, text)?.as_raw() == document)
}

#[test]
fn texts_are_parsed_again(rt: HostRuntime) -> Result<(), Fail> {
    for &document in DOCUMENTS {
        let bytes = bytes_of(rt.alloc(), document)?;
        let raw = RawJsonb::new(&bytes);
        // Extension values are printed as strings, and a string stays one.
        if raw.jsonb_item_type()? == JsonbItemType::Extension {
            continue;
        }
        let compact = raw.to_string(rt.alloc())?;
        assert!(rt; comes_back(rt.alloc(), raw, &compact)?, "{document}");
        let pretty = raw.to_pretty_string(rt.alloc())?;
        assert!(rt; comes_back(rt.alloc(), raw, &pretty)?, "{document}");
    }
    Ok(())
}

#[test]
fn display_passes_over_width_and_fill(rt: HostRuntime) -> Result<(), Fail> {
    for &document in DOCUMENTS {
        let owned = OwnedJsonb::new(bytes_of(rt.alloc(), document)?);
        let text = owned.as_raw().to_string(rt.alloc())?;
        assert!(rt; format!(in rt.alloc(); "{owned}")? == text, "{document}");
        assert!(rt;
            format!(in rt.alloc(); "{owned:*>999}")? == text,
            "{document}"
        );
    }
    Ok(())
}

#[test]
fn other_bytes_pass_over_width_and_fill(rt: HostRuntime) -> Result<(), Fail> {
    let owned = OwnedJsonb::from_bytes(rt.alloc(), b"a\xffb")?;
    assert!(rt; format!(in rt.alloc(); "{owned:*>50}")?.as_str() == "a\u{fffd}b");
    Ok(())
}

// Whether a writer with this much room accepted the whole text, or otherwise some prefix of it.
fn is_taken(alloc: Global, owned: &OwnedJsonb, room: usize, text: &str) -> bool {
    let mut f = fmt::Formatter::new(Narrow {
        text: String::new(alloc),
        room,
    });
    let answer = fmt::Display::fmt(owned, &mut f);
    let beginning = f.into_inner().text;
    answer.is_ok() == (room >= text.len())
        && answer.is_ok() == (beginning.as_str() == text)
        && text.starts_with(beginning.as_str())
}

#[test]
fn a_writer_that_refuses(rt: HostRuntime) -> Result<(), Fail> {
    for &document in DOCUMENTS {
        let owned = OwnedJsonb::new(bytes_of(rt.alloc(), document)?);
        let text = owned.as_raw().to_string(rt.alloc())?;
        for room in 0..=text.len() {
            assert!(rt;
                is_taken(rt.alloc(), &owned, room, &text),
                "{room} bytes of {text}"
            );
        }
    }
    Ok(())
}
