//! Copying what is stored to the document.

ghost use Rattle.std.specs.Prelude.{◌≡◌, ◌≤◌, ◌⊎◌, ◌++◌, ℕ, length, List, Err, IfErr, IfOk};
ghost use Rattle.std.specs.Prelude.{OnOk};
ghost use Rattle.jsonb_value.specs.declared.error.Error.TheVariants.{OutOfMemory, InvalidJsonb};
ghost use Rattle.jsonb_value.specs.Tree.{Tree};
ghost use Rattle.jsonb_codec.specs.Canon.{canon, Fits, payload_of};
ghost use Rattle.jsonb_codec.specs.Tape.{EntryIs, Joined, cut};

use super::entry::Entry;
use super::place::{Head, Place};
use super::storage::Storage;
use crate::constants::{CONTAINER_TAG, SCALAR_CONTAINER_TAG};
use crate::word::word_bytes;
use jsonb_value::Error;
use std::alloc::Global;

/// The document of a value with these places: the payload of a container, or that of a scalar after
/// its header and entry word. `InvalidJsonb` if the payload of a scalar exceeds its limit.
pub fn write_document(
    alloc: Global,
    storage: &Storage,
    places: &[Place],
    entry: Entry,
) -> Result<Vec<u8>, Error>
    requires { (t : Tree) × (EntryIs entry t × Joined storage.now 0 places.now
        (length storage.now.payload.items) (payload_of t)) }
    ensures ok { IfOk result (λ document. (t : Tree) → EntryIs entry t
        → Joined storage.now 0 places.now (length storage.now.payload.items) (payload_of t)
        → Fits t × (document.items ≡ canon t)) }
    ensures past { result ≡ Err InvalidJsonb → (t : Tree) → EntryIs entry t → Fits t → ⊥ }
    ensures only { IfErr result (λ e. (e ≡ InvalidJsonb) ⊎ (e ≡ OutOfMemory)) }
{
    let mut out = Vec::new(alloc);
    if entry.type_code == CONTAINER_TAG {
        out.try_reserve(entry.size)?;
    } else {
        let Some(word) = entry.word() else {
            return Err(Error::InvalidJsonb);
        };
        out.try_reserve(8 + entry.size)?;
        out.extend_from_slice(&word_bytes(SCALAR_CONTAINER_TAG))?;
        out.extend_from_slice(&word_bytes(word))?;
    }
    let all = Left {
        start: 0,
        end: storage.payload.len(),
        places,
    };
    append_payloads(alloc, &mut out, storage, all)?;
    Ok(out)
}

// What is left to be copied: the payloads from `start` up to `end`, with these places.
#[derive(Clone, Copy)]
struct Left<'t> {
    start: usize,
    end: usize,
    places: &'t [Place],
}

// Appends the payloads up to a head, and the head. The answer is what is left to be copied.
#[inline(always)]
fn append_head<'t>(
    out: &mut Vec<u8>,
    storage: &Storage,
    head: Head,
    rest: Left<'t>,
) -> Result<Left<'t>, Error>
    requires payload { (rest.start ≤ head.at) × (head.at ≤ length storage.now.payload.items) }
    requires head { (head.start ≤ head.end) × (head.end ≤ length storage.now.heads.items) }
    ensures ok { OnOk result (out.new.items ≡ (out.old.items
        ++ cut rest.entry.start head.at storage.now.payload.items)
        ++ cut head.start head.end storage.now.heads.items) }
    ensures left { IfOk result (λ left. (left.start ≡ head.until) × ((left.end ≡ rest.entry.end)
        × (left.places.now ≡ rest.entry.places.now))) }
    ensures memory { IfErr result (λ e. e ≡ OutOfMemory) }
{
    out.extend_from_slice(&storage.payload[rest.start..head.at])?;
    out.extend_from_slice(&storage.heads[head.start..head.end])?;
    Ok(Left {
        start: head.until,
        ..rest
    })
}

// Appends the payloads, and the heads and parts at their places. What is left is kept in a list, so
// that nested parts take no stack.
fn append_payloads(
    alloc: Global,
    out: &mut Vec<u8>,
    storage: &Storage,
    all: Left<'_>,
) -> Result<(), Error>
    requires { (p : List ℕ) × Joined storage.now all.start all.places.now all.end p }
    ensures ok { OnOk result ((p : List ℕ)
        → Joined storage.now all.entry.start all.entry.places.now all.entry.end p
        → out.new.items ≡ out.old.items ++ p) }
    ensures memory { IfErr result (λ e. e ≡ OutOfMemory) }
{
    let mut left = Vec::new(alloc);
    let mut next = Some(all);
    'parts: while let Some(now) = next {
        let Some((place, places)) = now.places.split_first() else {
            out.extend_from_slice(&storage.payload[now.start..now.end])?;
            next = left.pop();
            continue;
        };
        let rest = Left { places, ..now };
        match *place {
            Place::Head(head) => next = Some(append_head(out, storage, head, rest)?),
            // The payload of a scalar holds no places.
            Place::Part(part) if part.first == part.last => {
                out.extend_from_slice(&storage.payload[part.start..part.end])?;
                next = Some(rest);
            }
            Place::Part(part) => {
                left.push(rest)?;
                next = Some(Left {
                    start: part.start,
                    end: part.end,
                    places: &storage.moved[part.first..part.last],
                });
            }
            Place::Open(_) => unreachable!(),
        }
    }
    Ok(())
}
