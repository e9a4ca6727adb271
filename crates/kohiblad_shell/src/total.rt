//! Exact sums.

ghost use Rattle.std.specs.Prelude.{◌≡◌};
ghost use Rattle.kohiblad_shell.specs.Totals.{with_amount};

use jsonb_path::number::add;
use jsonb_value::Number;

/// The sum of some numbers.
#[derive(Clone, Copy, Debug, PartialEq, Eq)]
pub enum Total {
    /// The exact sum.
    Exact(Number),
    /// The sum of the first of them has more than 128 bits without its point.
    OutOfRange,
}

/// The sum of no numbers.
pub const NO_TOTAL: Total = Total::Exact(Number::UInt64(0));

impl Total {
    /// The sum with one more number, if there is one.
    pub fn with(self, amount: Option<Number>) -> Total
        ensures { result ≡ with_amount self amount }
    {
        match (self, amount) {
            (Total::Exact(sum), Some(number)) => match add(&sum, &number) {
                Ok(sum) => Total::Exact(sum),
                Err(_) => Total::OutOfRange,
            },
            _ => self,
        }
    }
}
