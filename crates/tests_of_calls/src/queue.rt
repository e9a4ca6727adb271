// The iteration over pairs compared with its older form, which reads all key entries first and
// keeps them in a queue.
use jsonb::{
    Error, ExtensionItem, JEntry, JsonbItem, NumberItem, ObjectIterator, RawJsonb, read_header,
    read_jentry,
};
use jsonb_codec::constants::{
    CONTAINER_TAG, EXTENSION_TAG, FALSE_TAG, NULL_TAG, NUMBER_TAG, OBJECT_CONTAINER_TAG,
    STRING_TAG, TRUE_TAG,
};
use std::alloc::Global;
use std::borrow::CowStr;
use std::collections::VecDeque;
use std::str;
use std::test::Fail;

// The number of calls of each iterator: beyond the end of both pairs.
const ASKED: usize = 5;

// The object {"aa":1,"ab":[2]}.
const TWO_PAIRS: &[u8] = b"\x40\0\0\x02\x10\0\0\x02\x10\0\0\x02\x20\0\0\x02\x50\0\0\x0a\
    aaab\x50\x01\x80\0\0\x01\x20\0\0\x02\x50\x02";

// The older iterator, with its position.
#[derive(Drop)]
struct QueuedPairs<'a> {
    bytes: &'a [u8],
    keys: VecDeque<JEntry>,
    place: usize,
    key_start: usize,
    start: usize,
}

fn part(bytes: &[u8], start: usize, length: u32) -> Result<&[u8], Error> {
    let end = start.saturating_add(length as usize);
    bytes.get(start..end).ok_or(Error::InvalidJsonb)
}

fn text_of(bytes: &[u8]) -> Result<&str, Error> {
    str::from_utf8(bytes).map_err(|_| Error::InvalidUtf8)
}

// The item of an entry's type and payload.
fn item_of<'a>(type_code: u32, payload: &'a [u8]) -> Result<JsonbItem<'a>, Error> {
    Ok(match type_code {
        NULL_TAG => JsonbItem::Null,
        STRING_TAG => JsonbItem::String(CowStr::Borrowed(text_of(payload)?)),
        NUMBER_TAG => JsonbItem::Number(NumberItem::from_bytes(payload)?),
        FALSE_TAG => JsonbItem::Boolean(false),
        TRUE_TAG => JsonbItem::Boolean(true),
        CONTAINER_TAG => JsonbItem::Raw(RawJsonb::new(payload)),
        EXTENSION_TAG => JsonbItem::Extension(ExtensionItem::from_bytes(payload)?),
        _ => return Err(Error::InvalidJsonb),
    })
}

fn queued_pairs<'a>(alloc: Global, bytes: &'a [u8]) -> Result<Option<QueuedPairs<'a>>, Error> {
    let (tag, count) = read_header(bytes, 0)?;
    if tag != OBJECT_CONTAINER_TAG {
        return Ok(None);
    }
    if bytes.len() / 4 <= count {
        return Err(Error::InvalidEOF);
    }
    let mut keys = VecDeque::new(alloc);
    let mut place: usize = 4;
    let key_start = count.saturating_mul(8).saturating_add(4);
    let mut start = key_start;
    for _ in 0..count {
        let key = read_jentry(bytes, place)?;
        place = place.saturating_add(4);
        start = start.saturating_add(key.length as usize);
        keys.push_back(key)?;
    }
    Ok(Some(QueuedPairs {
        bytes,
        keys,
        place,
        key_start,
        start,
    }))
}

impl<'a> QueuedPairs<'a> {
    fn pair(&mut self, key: JEntry) -> Result<(&'a str, JsonbItem<'a>), Error> {
        if key.type_code != STRING_TAG {
            return Err(Error::InvalidJsonb);
        }
        let name = text_of(part(self.bytes, self.key_start, key.length)?)?;
        let entry = read_jentry(self.bytes, self.place)?;
        let payload = part(self.bytes, self.start, entry.length)?;
        self.place = self.place.saturating_add(4);
        self.key_start = self.key_start.saturating_add(key.length as usize);
        self.start = self.start.saturating_add(entry.length as usize);
        Ok((name, item_of(entry.type_code, payload)?))
    }

    // The next pair. After an error there is none.
    fn next(&mut self) -> Option<Result<(&'a str, JsonbItem<'a>), Error>> {
        let key = self.keys.pop_front()?;
        let pair = self.pair(key);
        if pair.is_err() {
            self.keys.clear();
        }
        Some(pair)
    }
}

// Whether both iterators yield the same over the bytes.
fn are_walked_alike(alloc: Global, bytes: &[u8]) -> bool {
    match (
        queued_pairs(alloc, bytes),
        ObjectIterator::new(RawJsonb::new(bytes)),
    ) {
        (Ok(Some(mut queued)), Ok(Some(mut pairs))) => {
            for _ in 0..ASKED {
                if queued.next() != pairs.next() {
                    return false;
                }
            }
            true
        }
        (Ok(None), Ok(None)) => true,
        (Err(first), Err(second)) => first == second,
        _ => false,
    }
}

#[test]
fn pairs_as_by_a_queue(rt: HostRuntime) -> Result<(), Fail> {
    let mut bytes = Vec::from_slice(rt.alloc(), TWO_PAIRS)?;
    for place in 0..bytes.len() {
        let before = bytes[place];
        for value in 0..=255 {
            bytes[place] = value;
            assert!(rt; are_walked_alike(rt.alloc(), &bytes), "{value} at {place}");
        }
        bytes[place] = before;
    }
    Ok(())
}
