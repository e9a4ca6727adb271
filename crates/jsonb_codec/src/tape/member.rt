//! The members of objects that are being read.

ghost use Rattle.std.specs.Prelude.{◌≡◌, ◌<◌, ◌+◌, ◌++◌, ℕ, [], List, length, IfErr, IfOk, OnOk};
ghost use Rattle.std.specs.BTreeMap.{insert_entry};
ghost use Rattle.std.specs.Cmp.Lexicographic.{slice_cmp};
ghost use Rattle.std.specs.Ordering.{nat_cmp};
ghost use Rattle.byteorder.specs.Endian.{big_number};
ghost use Rattle.jsonb_value.specs.declared.error.Error.TheVariants.{OutOfMemory};
ghost use Rattle.jsonb_value.specs.Json.Syntax.{Entries, insert_all};
ghost use Rattle.jsonb_value.specs.Tree.{Tree};
ghost use Rattle.jsonb_codec.specs.declared.tape.place.Place.{Place};
ghost use Rattle.jsonb_codec.specs.declared.tape.storage.Storage.{Storage};
ghost use Rattle.jsonb_codec.specs.Keys.{AreNumbered, IsKey, IsPicked, Picks, key_bytes};
ghost use Rattle.jsonb_codec.specs.Tape.{ArePicked, MembersAre};

use super::key::{Key, bytes_of, compare_keys};
use super::place::Part;
use super::storage::Storage;
use jsonb_value::Error;
use std::alloc::Global;
use std::cmp::Ordering;
use std::collections::BTreeMap;

// Up to this many members are put in order one by one.
const FEW_MEMBERS: usize = 48;

/// A member of an object: its key, the number of the key's first eight bytes, the entry word of its
/// value, `None` if the value does not fit, and where its payload is.
#[derive(Clone, Copy)]
pub struct Member<'a> {
    pub key: Key<'a>,
    pub prefix: u64,
    pub word: Option<u32>,
    pub part: Part,
}

/// Makes `order` the numbers of the members in the order of their keys; of equal keys the last. Its
/// memory is kept.
pub fn order_of(
    alloc: Global,
    order: &mut Vec<usize>,
    members: &[Member<'_>],
    storage: &Storage,
) -> Result<(), Error>
    requires { (base : ℕ) × ((ps : List Place) × ((read : Entries)
        × MembersAre storage.now base ps members.now read)) }
    ensures ok { OnOk result ((base : ℕ) (ps : List Place) (read : Entries)
        → MembersAre storage.now base ps members.now read
        → Picks read order.new.items (insert_all [] read)) }
    ensures memory { IfErr result (λ e. e ≡ OutOfMemory) }
{
    order.clear();
    if members.len() <= FEW_MEMBERS {
        return few_in_order(order, members, storage);
    }
    many_in_order(alloc, order, members, storage)
}

// The same of few members, one after another.
fn few_in_order(
    order: &mut Vec<usize>,
    members: &[Member<'_>],
    storage: &Storage,
) -> Result<(), Error>
    requires none { order.old.items ≡ [] }
    requires members { (base : ℕ) × ((ps : List Place) × ((read : Entries)
        × MembersAre storage.now base ps members.now read)) }
    ensures ok { OnOk result ((base : ℕ) (ps : List Place) (read : Entries)
        → MembersAre storage.now base ps members.now read
        → Picks read order.new.items (insert_all [] read)) }
    ensures memory { IfErr result (λ e. e ≡ OutOfMemory) }
{
    order.reserve(members.len())?;
    for number in 0..members.len() {
        insert(order, members, storage, number)?;
    }
    Ok(())
}

// The same of many members, by a map.
#[inline(never)]
fn many_in_order(
    alloc: Global,
    order: &mut Vec<usize>,
    members: &[Member<'_>],
    storage: &Storage,
) -> Result<(), Error>
    requires none { order.old.items ≡ [] }
    requires members { (base : ℕ) × ((ps : List Place) × ((read : Entries)
        × MembersAre storage.now base ps members.now read)) }
    ensures ok { OnOk result ((base : ℕ) (ps : List Place) (read : Entries)
        → MembersAre storage.now base ps members.now read
        → Picks read order.new.items (insert_all [] read)) }
    ensures memory { IfErr result (λ e. e ≡ OutOfMemory) }
{
    for (_, number) in by_key(alloc, members, storage)? {
        order.push(number)?;
    }
    Ok(())
}

// Puts the number of a member in its place among those in the order of their keys, or in that of
// an equal key.
fn insert(
    order: &mut Vec<usize>,
    members: &[Member<'_>],
    storage: &Storage,
    number: usize,
) -> Result<(), Error>
    requires number { number < length members.now }
    requires members { (base : ℕ) × ((ps : List Place) × ((read : Entries) × ((es : Entries)
        × (MembersAre storage.now base ps members.now read × Picks read order.old.items es)))) }
    ensures ok { OnOk result ((base : ℕ) (ps : List Place) (read es : Entries) (key : List ℕ)
        (t : Tree) → MembersAre storage.now base ps members.now read
        → Picks read order.old.items es → IsPicked read number (key, t)
        → Picks read order.new.items (insert_entry (slice_cmp nat_cmp) es key t)) }
    ensures memory { IfErr result (λ e. e ≡ OutOfMemory) }
{
    let member = members[number];
    for place in 0..order.len() {
        let other = members[order[place]];
        match compare_members(member, other, &storage.spelled) {
            Ordering::Less => {
                order.insert(place, number)?;
                return Ok(());
            }
            Ordering::Equal => {
                order[place] = number;
                return Ok(());
            }
            Ordering::Greater => {}
        }
    }
    order.push(number)?;
    Ok(())
}

// The order of two members by their keys.
#[inline(always)]
fn compare_members(left: Member<'_>, right: Member<'_>, spelled: &[u8]) -> Ordering
    requires left { IsKey spelled.now left.key }
    requires right { IsKey spelled.now right.key }
    ensures { left.entry.prefix ≡ big_number 8 (key_bytes spelled.now left.entry.key)
        → right.entry.prefix ≡ big_number 8 (key_bytes spelled.now right.entry.key)
        → result ≡ slice_cmp nat_cmp (key_bytes spelled.now left.entry.key)
        (key_bytes spelled.now right.entry.key) }
{
    // Most comparisons end here: the order of the numbers is known, and no key is read.
    if left.prefix > right.prefix {
        return compare_members_here(left, right, spelled);
    }
    compare_members_here(left, right, spelled)
}

// The same. Inlined where the numbers are known to differ, it does not look for the bytes of keys.
#[inline(always)]
fn compare_members_here(left: Member<'_>, right: Member<'_>, spelled: &[u8]) -> Ordering
    requires left { IsKey spelled.now left.key }
    requires right { IsKey spelled.now right.key }
    ensures { left.entry.prefix ≡ big_number 8 (key_bytes spelled.now left.entry.key)
        → right.entry.prefix ≡ big_number 8 (key_bytes spelled.now right.entry.key)
        → result ≡ slice_cmp nat_cmp (key_bytes spelled.now left.entry.key)
        (key_bytes spelled.now right.entry.key) }
{
    compare_keys(
        left.prefix,
        bytes_of(left.key, spelled),
        right.prefix,
        bytes_of(right.key, spelled),
    )
}

// The numbers of the members by their keys; of equal keys the last.
fn by_key(
    alloc: Global,
    members: &[Member<'_>],
    storage: &Storage,
) -> Result<BTreeMap<Vec<u8>, usize>, Error>
    requires { (base : ℕ) × ((ps : List Place) × ((read : Entries)
        × MembersAre storage.now base ps members.now read)) }
    ensures ok { IfOk result (λ found. (base : ℕ) (ps : List Place) (read : Entries)
        → MembersAre storage.now base ps members.now read
        → AreNumbered read found.entries (insert_all [] read)) }
    ensures memory { IfErr result (λ e. e ≡ OutOfMemory) }
{
    let mut found = BTreeMap::new(alloc);
    for number in 0..members.len() {
        let mut key = Vec::new(alloc);
        key.extend_from_slice(bytes_of(members[number].key, &storage.spelled))?;
        let _ = found.insert(key, number)?;
    }
    Ok(found)
}

/// Appends the members with these numbers, counted from the one at `first`.
pub fn append_in_order(
    members: &mut Vec<Member<'_>>,
    first: usize,
    order: &[usize],
) -> Result<(), Error>
    requires { (read : Entries) × ((es : Entries) × (Picks read order.now es
        × (first + length read ≡ length members.old.items))) }
    ensures ok { OnOk result ((picked : List Member)
        × ((members.new.items ≡ members.old.items ++ picked)
        × ArePicked members.old.items first order.now picked)) }
    ensures memory { IfErr result (λ e. e ≡ OutOfMemory) }
{
    members.reserve(order.len())?;
    for index in order {
        let member = members[first + *index];
        members.push_reserved(member);
    }
    Ok(())
}
