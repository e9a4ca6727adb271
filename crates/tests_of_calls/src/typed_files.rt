// A file of two rows and two columns, written by hand as the format says.
use jsonb::Number;
use jsonb_typed::ScalarType;
use jsonb_typed_file::{FileError, SectionPlace, StoredValue, TypedFile, column_places};
use std::alloc::{AllocError, Global};
use std::test::Fail;

// The first bytes, version 1, and two columns; and the same of version 2.
const HEADER: &[u8] = b"KOHITYPE\0\0\0\x01\0\0\0\x02";

const OTHER_HEADER: &[u8] = b"KOHITYPE\0\0\0\x02\0\0\0\x02";

// The rests `{}` and `null`, the numbers -5 and none, and the texts none and `Oslo`.
const SECTIONS: &[&[u8]] = &[
    b"\0\0\0\0\0\0\0\0\0\0\0\0\0\0\0\x04\0\0\0\0\0\0\0\x0c",
    b"\x40\0\0\0\x20\0\0\0\0\0\0\0",
    b"\x01\0at",
    b"\x01",
    b"\xff\xff\xff\xff\xff\xff\xff\xfb\0\0\0\0\0\0\0\0",
    b"",
    b"\x04\0city",
    b"\x02",
    b"\0\0\0\0\0\0\0\0\0\0\0\0\0\0\0\0\0\0\0\0\0\0\0\x04",
    b"Oslo",
];

// A section of the file that is replaced, and the error that it makes.
const FAULTS: &[(usize, &[u8], FileError)] = &[
    (0, b"", FileError::WrongLength),
    (
        0,
        b"\0\0\0\0\0\0\0\0\0\0\0\0\0\0\0\x04\0\0\0\0\0\0\0\x0d",
        FileError::OutOfForm,
    ),
    (1, b"\x40\0\0\0\x20\0\0\0\0\0\0\x01", FileError::OutOfForm),
    (2, b"\x0a\0at", FileError::OutOfForm),
    (2, b"\x01\x01at", FileError::OutOfForm),
    (2, b"\x01\0city", FileError::OutOfForm),
    (2, b"\x01\0\xff", FileError::OutOfForm),
    (3, b"\x01\0", FileError::WrongLength),
    (4, b"\0", FileError::WrongLength),
    (5, b"x", FileError::WrongLength),
    (
        8,
        b"\0\0\0\0\0\0\0\x04\0\0\0\0\0\0\0\0\0\0\0\0\0\0\0\x04",
        FileError::OutOfForm,
    ),
    (9, b"Osl\xff", FileError::OutOfForm),
    (2, b"\x05\0at", FileError::WrongLength),
    (2, b"\x07\0at", FileError::WrongLength),
    (2, b"\x09\0at", FileError::WrongLength),
];

// The file with this header, and with one section replaced.
fn file_with(
    alloc: Global,
    header: &[u8],
    index: usize,
    section: &[u8],
) -> Result<Vec<u8>, AllocError> {
    let mut bytes = Vec::new(alloc);
    bytes.extend_from_slice(header)?;
    for (place, it) in SECTIONS.iter().enumerate() {
        let section = if place == index { section } else { *it };
        bytes.extend_from_slice(&(section.len() as u64).to_be_bytes())?;
        bytes.extend_from_slice(section)?;
    }
    Ok(bytes)
}

#[test]
fn shows_rows_and_columns(rt: HostRuntime) -> Result<(), Fail> {
    let alloc = rt.alloc();
    let bytes = file_with(alloc, HEADER, SECTIONS.len(), b"")?;
    let file = TypedFile::new(alloc, &bytes)?;
    assert_eq!(rt; file.len(), 2);
    assert_eq!(rt; TypedFile::within(alloc, &bytes, 1)?.len(), 2);
    let rest = file.rest(0).ok_or("no rest")?;
    assert_eq!(rt; rest.as_bytes(), b"\x40\0\0\0".as_slice());
    assert_eq!(rt; file.rest(2).is_none(), true);
    let at = file.column("at").ok_or("no column")?;
    assert_eq!(rt; at.column_type(), ScalarType::Int64);
    assert_eq!(rt; at.value(0), Some(StoredValue::Number(Number::Int64(-5))));
    assert_eq!(rt; at.value(1), None);
    let city = file.column("city").ok_or("no column")?;
    assert_eq!(rt; city.value(0), None);
    assert_eq!(rt; city.value(1), Some(StoredValue::Text("Oslo")));
    assert_eq!(rt; file.column("id").is_none(), true);
    Ok(())
}

#[test]
fn names_each_refusal(rt: HostRuntime) -> Result<(), Fail> {
    let alloc = rt.alloc();
    for (index, section, error) in FAULTS {
        let bytes = file_with(alloc, HEADER, *index, section)?;
        assert_eq!(rt; TypedFile::new(alloc, &bytes).err(), Some(*error));
    }
    let mut bytes = file_with(alloc, HEADER, SECTIONS.len(), b"")?;
    for size in 0..bytes.len() {
        let cut = if size < 8 {
            FileError::BadMagic
        } else {
            FileError::Cut
        };
        assert_eq!(rt; TypedFile::new(alloc, &bytes[..size]).err(), Some(cut));
    }
    assert_eq!(rt;
        TypedFile::within(alloc, &bytes, 0).err(),
        Some(FileError::TooDeep)
    );
    assert_eq!(rt;
        TypedFile::of_row(alloc, &bytes, 0, 0).err(),
        Some(FileError::TooDeep)
    );
    bytes.push(0)?;
    assert_eq!(rt;
        TypedFile::new(alloc, &bytes).err(),
        Some(FileError::TrailingData)
    );
    let other = file_with(alloc, OTHER_HEADER, SECTIONS.len(), b"")?;
    assert_eq!(rt;
        TypedFile::new(alloc, &other).err(),
        Some(FileError::UnknownVersion)
    );
    Ok(())
}

// The text of a row of the file.
fn row_text(alloc: Global, file: &TypedFile<'_>, index: usize) -> Result<String, Fail> {
    let row = file.row(alloc, index).ok_or("no row")??;
    Ok(row.as_document().ok_or("no document")?.to_string(alloc)?)
}

#[test]
fn puts_rows_together(rt: HostRuntime) -> Result<(), Fail> {
    let alloc = rt.alloc();
    let bytes = file_with(alloc, HEADER, 7, b"\x03")?;
    let file = TypedFile::new(alloc, &bytes)?;
    assert_eq!(rt;
        row_text(alloc, &file, 0)?.as_str(),
        r#"{"at":-5,"city":""}"#
    );
    assert_eq!(rt; row_text(alloc, &file, 1)?.as_str(), "null");
    assert_eq!(rt; file.row(alloc, 2).is_none(), true);
    Ok(())
}

#[test]
fn reads_one_row_alone(rt: HostRuntime) -> Result<(), Fail> {
    let alloc = rt.alloc();
    let bytes = file_with(alloc, HEADER, SECTIONS.len(), b"")?;
    let first = TypedFile::of_row(alloc, &bytes, 0, 1)?.ok_or("no row")?;
    assert_eq!(rt; first.len(), 1);
    assert_eq!(rt; first.column_count(), 2);
    let at = first.column("at").ok_or("no column")?;
    assert_eq!(rt; at.value(0), Some(StoredValue::Number(Number::Int64(-5))));
    let second = TypedFile::of_row(alloc, &bytes, 1, 0)?.ok_or("no row")?;
    let city = second.column("city").ok_or("no column")?;
    assert_eq!(rt; city.value(0), Some(StoredValue::Text("Oslo")));
    assert_eq!(rt; TypedFile::of_row(alloc, &bytes, 2, 1)?.is_none(), true);
    Ok(())
}

// Whether these bytes lie at a place.
fn has_at(bytes: &[u8], place: SectionPlace, wanted: &[u8]) -> bool {
    let Some(end) = place.offset.checked_add(place.length) else {
        return false;
    };
    match bytes.get(place.offset..end) {
        Some(found) => found == wanted,
        None => false,
    }
}

#[test]
fn says_where_columns_lie(rt: HostRuntime) -> Result<(), Fail> {
    let alloc = rt.alloc();
    let bytes = file_with(alloc, HEADER, SECTIONS.len(), b"")?;
    let places = column_places(alloc, &bytes)?;
    assert_eq!(rt; places.len(), 2);
    assert!(rt; has_at(&bytes, places[1].name, b"city"));
    assert!(rt; has_at(&bytes, places[1].texts, b"Oslo"));
    assert!(rt; has_at(&bytes, places[0].numbers, SECTIONS[4]));
    Ok(())
}
