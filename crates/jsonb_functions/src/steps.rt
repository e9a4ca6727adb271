//! Steps of a search, which ends without an answer where they do not suffice.

ghost use Rattle.std.specs.Prelude.{◌≡◌, ◌<◌, ◌+◌, MatchResult};

/// Why a search ends without an answer.
#[derive(Clone, Copy, Debug, PartialEq, Eq)]
pub enum Unanswered {
    TooManySteps,
    OutOfMemory,
}

/// Takes so many steps. `TooManySteps` if fewer are left.
#[inline(always)]
pub fn take(steps: &mut u128, count: usize) -> Result<(), Unanswered>
    ensures { MatchResult result (λ taken. steps.old ≡ steps.new + count)
        (λ e. (e ≡ Unanswered.TooManySteps) × (steps.old < count)) }
{
    match steps.checked_sub(count as u128) {
        Some(left) => {
            *steps = left;
            Ok(())
        }
        None => Err(Unanswered::TooManySteps),
    }
}
