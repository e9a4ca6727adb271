//! Values of which those that are not set are the least of the others.

ghost use Rattle.std.specs.Prelude.{◌≡◌, ℤ, pos, fold, get_or, length};
ghost use Rattle.std.specs.Int.{int_min};
ghost use Rattle.typed_chunk.specs.Frame.{least_value};
ghost use Rattle.typed_chunk.specs.NumberChunk.{filled, with_unset};
ghost use Rattle.typed_vector.specs.ZoneMap.{set_values};

// Puts the least of the values that are set in place of those that are not.
pub(crate) fn fill_unset(values: &mut [i64], has: &[bool])
    requires { length values.old ≡ length has.now }
    ensures { values.new ≡ filled values.old has.now }
{
    let least = least_set(values, has);
    write_unset(least, values, has);
}

// The least of the values that are set, or 0 of none.
pub(crate) fn least_set(values: &[i64], has: &[bool]) -> i64
    requires { length values.now ≡ length has.now }
    ensures { result ≡ least_value (set_values values.now has.now) }
{
    least_from(first_set(values, has), values, has)
}

// The first value that is set, or 0 of none.
fn first_set(values: &[i64], has: &[bool]) -> i64
    requires { length values.now ≡ length has.now }
    ensures { result ≡ get_or (set_values values.now has.now) 0 (pos 0) }
{
    for (index, flag) in has.iter().enumerate() {
        if *flag {
            return values[index];
        }
    }
    0
}

// The least of one value and those that are set.
fn least_from(first: i64, values: &[i64], has: &[bool]) -> i64
    requires { length values.now ≡ length has.now }
    ensures { result ≡ fold int_min first (set_values values.now has.now) }
{
    let mut least = first;
    for (index, flag) in has.iter().enumerate() {
        if !*flag {
            continue;
        }
        least = least.min(values[index]);
    }
    least
}

// Puts a value in place of those that are not set.
fn write_unset(least: i64, values: &mut [i64], has: &[bool])
    requires { length values.old ≡ length has.now }
    ensures { values.new ≡ with_unset least values.old has.now }
{
    for (index, value) in values.iter_mut().enumerate() {
        if has[index] {
            continue;
        }
        *value = least;
    }
}
