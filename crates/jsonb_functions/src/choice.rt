//! Which members of an object are kept, by their keys.

ghost use Rattle.std.specs.Prelude.{◌≡◌, IfErr, IfOk, IsPermutation};
ghost use Rattle.jsonb_functions.specs.Picked.{AreSorted, is_named, keeps};

use jsonb::Error;
use std::alloc::Global;

/// Which members of an object are kept: those whose keys are named, or the others.
#[derive(Clone, Copy, Debug, PartialEq, Eq)]
pub enum Kept {
    Named,
    Others,
}

/// Which members of an object are kept, by names in the order of their bytes.
#[derive(Clone, Copy)]
pub struct Choice<'a> {
    pub names: &'a [&'a str],
    pub which: Kept,
    ghost sorted: { AreSorted names.now },
}

/// The names in the order of their bytes.
pub fn sorted<'a>(alloc: Global, names: &[&'a str]) -> Result<Vec<&'a str>, Error>
    ensures sorted { IfOk result (λ list. AreSorted list.items) }
    ensures same { IfOk result (λ list. IsPermutation names.now list.items) }
    ensures memory { IfErr result (λ e. e ≡ Error.OutOfMemory) }
{
    let mut list = Vec::with_capacity(alloc, names.len())?;
    list.extend_from_slice(names)?;
    list.sort_unstable();
    Ok(list)
}

/// Whether a member with this key is kept.
#[inline(always)]
pub fn is_kept(choice: Choice<'_>, key: &str) -> bool
    ensures { result ≡ keeps choice.entry.which (is_named choice.entry.names.now key.now) }
{
    let is_named = is_named(choice.names, key);
    match choice.which {
        Kept::Named => is_named,
        Kept::Others => !is_named,
    }
}

/// Whether a key is one of these names, which are in the order of their bytes.
#[tactic(auto, using(crate::proofs::PickLaws::search_finds))]
#[inline(always)]
pub fn is_named(names: &[&str], key: &str) -> bool
    requires { AreSorted names.now }
    ensures { result ≡ is_named names.now key.now }
{
    names.binary_search(&key).is_ok()
}
