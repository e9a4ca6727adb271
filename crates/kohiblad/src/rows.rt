//! Consecutive rows of bytes.

ghost use Rattle.std.specs.Prelude.{◌≡◌, ◌∷◌, [], ℕ, List, length, IfOk, IfErr, IsTrue, is_ok};
ghost use Rattle.std.specs.Prelude.{MatchOption};
ghost use Rattle.kohiblad.specs.Words.{are_offsets, rows_from, rows, row_pairs};

use jsonb::Error;
use std::marker::Model;

/// The remaining rows: the first begins at `start`, and each other at the end of the previous one.
#[derive(Drop)]
pub struct Rows<'a> {
    bytes: &'a [u8],
    start: usize,
    ends: &'a [usize],
}

impl<'a> Model for Rows<'a> {
    ghost Value = { List (List ℕ) };

    ghost view = { λ s. rows_from s.bytes.now s.start s.ends.now };

    ghost invariant = { λ s. IsTrue (are_offsets (length s.bytes.now) s.start s.ends.now) };
}

impl<'a> Rows<'a> {
    /// The rows between these offsets, one fewer than there are offsets. `InvalidEOF` if an offset
    /// is below the previous one or beyond the bytes.
    pub fn new(bytes: &'a [u8], offsets: &'a [usize]) -> Result<Self, Error>
        ensures rows { IfOk result (λ all. all ≡ rows bytes.now offsets.now) }
        ensures exact { is_ok result ≡ are_offsets (length bytes.now) 0 offsets.now }
        ensures past { IfErr result (λ e. e ≡ Error.InvalidEOF) }
    {
        if !are_offsets(bytes.len(), offsets) {
            return Err(Error::InvalidEOF);
        }
        let (start, ends) = match offsets.split_first() {
            Some((&start, ends)) => (start, ends),
            None => (0, offsets),
        };
        Ok(Rows { bytes, start, ends })
    }

    /// How many rows are left.
    #[tactic(auto, using(crate::proofs::Orders::row_count))]
    pub fn len(&self) -> usize
        ensures { result ≡ length self.now }
    {
        self.ends.len()
    }

    /// The same rows once more, for a second walk.
    pub fn again(&self) -> Self
        ensures { result ≡ self.now }
    {
        Rows {
            bytes: self.bytes,
            start: self.start,
            ends: self.ends,
        }
    }

    /// The next row. `None` if there is none left.
    pub fn next(&mut self) -> Option<&'a [u8]>
        ensures { MatchOption result ((self.old ≡ []) × (self.new ≡ []))
            (λ row. self.old ≡ row.now ∷ self.new) }
    {
        let Some((&end, ends)) = self.ends.split_first() else {
            return None;
        };
        let row = &self.bytes[self.start..end];
        *self = Rows {
            bytes: self.bytes,
            start: end,
            ends,
        };
        Some(row)
    }

    /// The next key and the document after it. `None` if fewer than two rows are left.
    pub fn next_pair(&mut self) -> Option<(&'a [u8], &'a [u8])>
        ensures { MatchOption result ((row_pairs self.old ≡ []) × (self.new ≡ []))
            (λ p. row_pairs self.old ≡ (p.0.now, p.1.now) ∷ row_pairs self.new) }
    {
        let key = self.next()?;
        let document = self.next()?;
        Some((key, document))
    }
}

// Whether no offset is below the previous one or above `size`.
fn are_offsets(size: usize, offsets: &[usize]) -> bool
    ensures { result ≡ are_offsets size 0 offsets.now }
{
    let mut start = 0;
    let mut left = offsets;
    while let Some((&end, later)) = left.split_first() {
        if end < start || size < end {
            return false;
        }
        start = end;
        left = later;
    }
    true
}
