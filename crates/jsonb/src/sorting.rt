//! Sorting views.

ghost use Rattle.std.specs.Prelude.{◌≡◌, ◌++◌, ◌≤◌, length, drop, map, IfErr, OnOk, OnErr};
ghost use Rattle.std.specs.Prelude.{IsPermutation, IsSorted};
ghost use Rattle.jsonb.specs.SortKey.{sort_bytes};
ghost use Rattle.jsonb.specs.Words.{IsStable, on, meaning_cmp, meaning_of, raw_meaning, raw_bytes};

use crate::raw::RawJsonb;
use crate::sort_key::SortKey;
use jsonb_value::Error;
use std::alloc::Global;

/// Sorts the views in ascending order, as `Vec::sort` does, but checks each of them once and not in
/// each comparison. Equal views keep their order. `OutOfMemory` is the only error; the views are
/// then unchanged.
pub fn sort_views(alloc: Global, views: &mut [RawJsonb<'_>]) -> Result<(), Error>
    ensures permutation { IsPermutation (map raw_bytes views.old) (map raw_bytes views.new) }
    ensures order { OnOk result (IsSorted (on raw_meaning meaning_cmp) views.new) }
    ensures stable { IsStable (on meaning_of meaning_cmp)
        (map raw_bytes views.old) (map raw_bytes views.new) }
    ensures err { OnErr result (views.new ≡ views.old) }
    ensures memory { IfErr result (λ e. e ≡ Error.OutOfMemory) }
{
    let mut keys = Vec::with_capacity(alloc, views.len())?;
    for view in views.iter() {
        keys.push(SortKey::new(view.as_bytes()))?;
    }
    keys.sort()?;
    put_views(&keys, views);
    Ok(())
}

// Replaces the views by those of the keys.
fn put_views<'a>(keys: &[SortKey<'a>], views: &mut [RawJsonb<'a>])
    requires { length keys.now ≤ length views.old }
    ensures { map raw_bytes views.new
        ≡ map sort_bytes keys.now ++ drop (length keys.now) (map raw_bytes views.old) }
{
    for number in 0..keys.len() {
        views[number] = RawJsonb::new(keys[number].as_bytes());
    }
}
