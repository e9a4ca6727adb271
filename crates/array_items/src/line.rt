//! Lines that begin a value of several lines.

ghost use Rattle.std.specs.Prelude.{◌≡◌, IfOk};
ghost use Rattle.array_items.specs.Words.{Before, begins_container, place_after};

use crate::held::ReadFault;
use crate::value::{Place, Step};

/// Whether a line ends within an array or an object that it begins.
pub fn begins_container(line: &[u8]) -> Result<bool, ReadFault>
    ensures { IfOk result (λ is. is ≡ begins_container line.now) }
{
    let place = place_after(line)?;
    Ok(matches!(place, Place::Container(_)))
}

// Where the byte after a line stands, if its first value does not end before.
fn place_after(line: &[u8]) -> Result<Place, ReadFault>
    ensures { IfOk result (λ place. place ≡ place_after Before line.now) }
{
    let mut place = Place::Before;
    for byte in line {
        match place.step(*byte)? {
            Step::Skip => place = Place::Before,
            Step::Take(next) => place = next,
            Step::Leave => return Ok(Place::After),
        }
    }
    Ok(place)
}
