//! The longest common beginning of texts.

ghost use Rattle.std.specs.Prelude.{◌≡◌, ◌+◌, [], get_or, length};
ghost use Rattle.typed_vector.specs.Cells.{rows};
ghost use Rattle.typed_vector.specs.ZoneMap.{set_values};
ghost use Rattle.typed_chunk.specs.Texts.{AreSpans, common, shared};

use crate::spans::text_at;

// The longest beginning of all rows that have a text, which has at most so many bytes.
#[tactic(auto, using(crate::proofs::BeginningLaws::common_steps))]
pub(crate) fn common<'a>(most: usize, texts: &'a [u8], offsets: &[usize], has: &[bool]) -> &'a [u8]
    requires spans { AreSpans (length texts.now) offsets.now }
    requires many { length offsets.now ≡ length has.now + 1 }
    ensures { result.now ≡ common most (set_values (rows texts.now offsets.now) has.now) }
{
    let first = first_text(texts, offsets, has);
    let mut start = &first[..most.min(first.len())];
    for (index, flag) in has.iter().enumerate() {
        if !*flag {
            continue;
        }
        start = shared(start, text_at(texts, offsets, index));
    }
    start
}

// The first text, or none of no rows that have one.
#[tactic(auto, using(crate::proofs::BeginningLaws::first_steps))]
fn first_text<'a>(texts: &'a [u8], offsets: &[usize], has: &[bool]) -> &'a [u8]
    requires spans { AreSpans (length texts.now) offsets.now }
    requires many { length offsets.now ≡ length has.now + 1 }
    ensures { result.now ≡ get_or (set_values (rows texts.now offsets.now) has.now) 0 [] }
{
    for (index, flag) in has.iter().enumerate() {
        if *flag {
            return text_at(texts, offsets, index);
        }
    }
    &[]
}

// What the first text shares with the other one.
#[tactic(auto, using(crate::proofs::BeginningLaws::shared_steps))]
fn shared<'a>(text: &'a [u8], other: &[u8]) -> &'a [u8]
    ensures { result.now ≡ shared text.now other.now }
{
    let most = text.len().min(other.len());
    for index in 0..most {
        if text[index] != other[index] {
            return &text[..index];
        }
    }
    &text[..most]
}
