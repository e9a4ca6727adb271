//! The sample of the README.

ghost use Rattle.std.specs.Prelude.{◌≡◌, ◌⊎◌, ◌≤◌, length, vec_len, IfOk, IfErr};

use jsonb::{Error, OwnedJsonb};
use std::alloc::Global;

/// The prices of rows that are given as JSON texts, in the order of the rows.
pub fn prices(alloc: Global, texts: &[&str]) -> Result<Vec<String>, Error>
    ensures few { IfOk result (λ prices. vec_len prices ≤ length texts.now) }
    ensures errors { IfErr result (λ e. (e ≡ Error.InvalidJson)
        ⊎ ((e ≡ Error.InvalidJsonb) ⊎ (e ≡ Error.OutOfMemory))) }
{
    let mut rows = Vec::new(alloc);
    for &text in texts {
        rows.push(OwnedJsonb::parse(alloc, text)?)?;
    }
    rows.sort()?;
    let mut prices = Vec::new(alloc);
    for row in rows.iter() {
        if let Some(document) = row.as_document() {
            if let Some(price) = document.get("price") {
                prices.push(price.to_string(alloc)?)?;
            }
        }
    }
    Ok(prices)
}
