//! Writing arrays and objects of stored values: everything is measured first, then written with a
//! single growth of the buffer.

ghost use Rattle.std.specs.Prelude.{◌≡◌, ◌↔◌, ◌⊎◌, List, Err, IsTrue, IfOk, IfErr, OnOk, All};
ghost use Rattle.jsonb.specs.Children.{map_keys};
ghost use Rattle.jsonb.specs.Words.{slice_cmp, AllByRecursion, IsStrictlySortedBy, values_of};
ghost use Rattle.jsonb.specs.Words.{nat_cmp, owned_bytes, ItemView, FitArray, IsArrayOf, FitObject};
ghost use Rattle.jsonb.specs.Words.{IsObjectOf, AreKeys, AreShown, AreShownAt, ItemPairs};

use crate::owned::OwnedJsonb;
use jsonb_codec::writer::{Level, Stored, append_document};
use jsonb_value::Error;
use std::alloc::Global;
use std::collections::BTreeMap;

/// The array of these values' entries. `InvalidJsonb`, before any allocation, if a value has no
/// entry, or a payload or the count exceeds its limit; `OutOfMemory` if an allocation fails.
pub fn array_document<T: Stored>(alloc: Global, values: &[T]) -> Result<OwnedJsonb, Error>
    ensures ok { IfOk result (λ owned. (xs : List ItemView)
        → AreShown T.stored T.code values.now xs → IsArrayOf xs (owned_bytes owned)) }
    ensures held { OnOk result (AllByRecursion T.held values.now) }
    ensures past { result ≡ Err Error.InvalidJsonb → (xs : List ItemView)
        → AreShown T.stored T.code values.now xs → FitArray xs → ⊥ }
    ensures memory { result ≡ Err Error.OutOfMemory → (xs : List ItemView)
        → AreShown T.stored T.code values.now xs → FitArray xs }
    ensures only { IfErr result (λ e. (e ≡ Error.InvalidJsonb) ⊎ (e ≡ Error.OutOfMemory)) }
{
    if !are_stored(values) {
        return Err(Error::InvalidJsonb);
    }
    let mut bytes = Vec::new(alloc);
    append_document::<&BTreeMap<&str, T>>(&mut bytes, Level::Array(values))?;
    Ok(OwnedJsonb::new(bytes))
}

/// The object of these keys and the values' entries. `InvalidJsonb`, before any allocation, if a
/// value has no entry, or a key, a payload or the count exceeds its limit; `OutOfMemory` if an
/// allocation fails.
pub fn object_document<T: Stored>(
    alloc: Global,
    pairs: &BTreeMap<&str, T>,
) -> Result<OwnedJsonb, Error>
    ensures ok { IfOk result (λ owned. (ps : ItemPairs)
        → AreShownAt T.stored T.code pairs.now.entries ps → IsObjectOf ps (owned_bytes owned)) }
    ensures keys { OnOk result (AreKeys (map_keys pairs.now.entries)) }
    ensures held { OnOk result (AllByRecursion T.held (values_of pairs.now.entries)) }
    ensures past { result ≡ Err Error.InvalidJsonb → (ps : ItemPairs)
        → AreShownAt T.stored T.code pairs.now.entries ps → FitObject ps → ⊥ }
    ensures memory { result ≡ Err Error.OutOfMemory → (ps : ItemPairs)
        → AreShownAt T.stored T.code pairs.now.entries ps → FitObject ps }
    ensures only { IfErr result (λ e. (e ≡ Error.InvalidJsonb) ⊎ (e ≡ Error.OutOfMemory)) }
{
    if !are_stored_at(pairs) {
        return Err(Error::InvalidJsonb);
    }
    let mut bytes = Vec::new(alloc);
    append_document::<&BTreeMap<&str, T>>(&mut bytes, Level::Object(pairs))?;
    Ok(OwnedJsonb::new(bytes))
}

// Whether every value has an entry.
fn are_stored<T: Stored>(values: &[T]) -> bool
    ensures { IsTrue result ↔ AllByRecursion T.stored values.now }
{
    values.iter().all(|value| value.is_stored())
}

fn are_stored_at<T: Stored>(pairs: &BTreeMap<&str, T>) -> bool
    ensures all { IsTrue result ↔ All T.stored (values_of pairs.now.entries) }
    ensures ascend { IsStrictlySortedBy (slice_cmp nat_cmp) (map_keys pairs.now.entries) }
{
    pairs.values().all(|value| value.is_stored())
}
