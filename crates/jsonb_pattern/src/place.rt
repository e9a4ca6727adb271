//! Which character may come after which in a pattern.

ghost use Rattle.std.specs.Prelude.{◌≡◌};
ghost use Rattle.jsonb_pattern.specs.Places.{atom_after, begin_after, begun_by, branch_after};
ghost use Rattle.jsonb_pattern.specs.Places.{escaped_to, first_place, inside_after, is_of_one_kind};
ghost use Rattle.jsonb_pattern.specs.Places.{is_range, may_end, member_after, place_after};
ghost use Rattle.jsonb_pattern.specs.Places.{with_digit};

use crate::flags::Flags;
use crate::letters::{is_class_member, is_escapable, is_literal, is_readable};

/// Where a character of a pattern is.
#[derive(Clone, Copy, Debug, PartialEq, Eq)]
pub enum Place {
    /// Where each character stands for itself.
    Quoted,
    /// Where a branch begins.
    Branch,
    /// After what can be repeated.
    Atom,
    /// After a repetition, `^` or `$`, which cannot be repeated.
    Fixed,
    /// After a backslash.
    Escape,
    /// After `{`.
    Bound,
    /// After the least number of a bound.
    Least(u32),
    /// After the comma of a bound.
    Comma(u32),
    /// After both numbers of a bound.
    Most(u32, u32),
    /// After `[`.
    Class,
    /// After `[^`.
    Negated,
    /// After a character in brackets, which may begin a range.
    Member(char),
    /// After a range or an escape in brackets.
    Members,
    /// After the first character of a range and `-`.
    Range(char),
    /// After a backslash in brackets.
    ClassEscape,
}

/// A place, and how many groups are open there.
#[derive(Clone, Copy)]
pub struct Scan {
    pub place: Place,
    pub depth: u32,
}

// How many groups may be open in one another.
const GROUPS: u32 = 100;

// The most that a bound may say.
const REPETITIONS: u32 = 255;

/// Where a pattern begins.
pub fn first_place(flags: Flags) -> Scan
    ensures { result ≡ first_place flags }
{
    let place = if flags.quoted {
        Place::Quoted
    } else {
        Place::Branch
    };
    Scan { place, depth: 0 }
}

/// Whether a pattern may end there.
pub fn may_end(scan: Scan) -> bool
    ensures { result ≡ may_end scan }
{
    match scan.place {
        Place::Quoted => true,
        Place::Atom | Place::Fixed => scan.depth == 0,
        _ => false,
    }
}

/// Where a character leads, if it may come there.
pub fn place_after(flags: Flags, scan: Scan, character: char) -> Option<Scan>
    ensures { result ≡ place_after flags scan character }
{
    if !is_readable(flags.ignore_case, character) {
        return None;
    }
    match scan.place {
        Place::Branch => begin_after(scan.depth, character),
        Place::Atom => atom_after(scan.depth, character),
        Place::Fixed => branch_after(scan.depth, character),
        place => {
            let place = inside_after(flags, place, character)?;
            Some(Scan {
                place,
                depth: scan.depth,
            })
        }
    }
}

// After what can be repeated.
fn atom_after(depth: u32, character: char) -> Option<Scan>
    ensures { result ≡ atom_after depth character }
{
    match character {
        '*' | '+' | '?' => Some(Scan {
            place: Place::Fixed,
            depth,
        }),
        '{' => Some(Scan {
            place: Place::Bound,
            depth,
        }),
        _ => branch_after(depth, character),
    }
}

// After what cannot be repeated, within a branch.
fn branch_after(depth: u32, character: char) -> Option<Scan>
    ensures { result ≡ branch_after depth character }
{
    match character {
        '|' => Some(Scan {
            place: Place::Branch,
            depth,
        }),
        ')' => {
            if depth > 0 {
                Some(Scan {
                    place: Place::Atom,
                    depth: depth - 1,
                })
            } else {
                None
            }
        }
        _ => begin_after(depth, character),
    }
}

// Where an atom begins.
fn begin_after(depth: u32, character: char) -> Option<Scan>
    ensures { result ≡ begin_after depth character }
{
    match character {
        '(' => {
            if depth < GROUPS {
                Some(Scan {
                    place: Place::Branch,
                    depth: depth + 1,
                })
            } else {
                None
            }
        }
        _ => {
            let place = begun_by(character)?;
            Some(Scan { place, depth })
        }
    }
}

// What an atom begins with, other than a group.
fn begun_by(character: char) -> Option<Place>
    ensures { result ≡ begun_by character }
{
    match character {
        '[' => Some(Place::Class),
        '\\' => Some(Place::Escape),
        '^' | '$' => Some(Place::Fixed),
        '.' => Some(Place::Atom),
        _ => {
            if is_literal(character) {
                Some(Place::Atom)
            } else {
                None
            }
        }
    }
}

// Within quotes, escapes, bounds and brackets.
fn inside_after(flags: Flags, place: Place, character: char) -> Option<Place>
    ensures { result ≡ inside_after flags place character }
{
    match place {
        Place::Quoted => Some(Place::Quoted),
        Place::Escape => escaped_to(Place::Atom, character),
        Place::ClassEscape => escaped_to(Place::Members, character),
        Place::Bound => Some(Place::Least(with_digit(0, character)?)),
        Place::Least(least) => match character {
            ',' => Some(Place::Comma(least)),
            '}' => Some(Place::Fixed),
            _ => Some(Place::Least(with_digit(least, character)?)),
        },
        Place::Comma(least) => match character {
            '}' => Some(Place::Fixed),
            _ => Some(Place::Most(least, with_digit(0, character)?)),
        },
        Place::Most(least, most) => {
            if character == '}' && least <= most {
                return Some(Place::Fixed);
            }
            Some(Place::Most(least, with_digit(most, character)?))
        }
        Place::Class => match character {
            '^' => Some(Place::Negated),
            _ => member_after(character),
        },
        Place::Negated => member_after(character),
        Place::Member(first) => match character {
            ']' => Some(Place::Atom),
            '-' => Some(Place::Range(first)),
            _ => member_after(character),
        },
        Place::Members => match character {
            ']' => Some(Place::Atom),
            _ => member_after(character),
        },
        Place::Range(first) => {
            if is_range(flags.ignore_case, first, character) {
                Some(Place::Members)
            } else {
                None
            }
        }
        Place::Branch | Place::Atom | Place::Fixed => None,
    }
}

// Where a character after a backslash leads.
fn escaped_to(place: Place, character: char) -> Option<Place>
    ensures { result ≡ escaped_to place character }
{
    if is_escapable(character) {
        Some(place)
    } else {
        None
    }
}

// Where a member of brackets leads.
fn member_after(character: char) -> Option<Place>
    ensures { result ≡ member_after character }
{
    if character == '\\' {
        Some(Place::ClassEscape)
    } else if is_class_member(character) {
        Some(Place::Member(character))
    } else {
        None
    }
}

// A number with one more digit, if a bound may say it.
fn with_digit(number: u32, character: char) -> Option<u32>
    ensures { result ≡ with_digit number character }
{
    if !character.is_ascii_digit() || number > REPETITIONS {
        return None;
    }
    let longer = number * 10 + (character as u32 - 48);
    if longer <= REPETITIONS {
        Some(longer)
    } else {
        None
    }
}

// Whether two characters make a range: in order, and of one kind if case is ignored.
fn is_range(ignore_case: bool, first: char, last: char) -> bool
    ensures { result ≡ is_range ignore_case first last }
{
    is_class_member(last) && first <= last && (!ignore_case || is_of_one_kind(first, last))
}

// Whether two characters are both small letters, both capital letters or both digits.
fn is_of_one_kind(first: char, last: char) -> bool
    ensures { result ≡ is_of_one_kind first last }
{
    (first.is_ascii_lowercase() && last.is_ascii_lowercase())
        || (first.is_ascii_uppercase() && last.is_ascii_uppercase())
        || (first.is_ascii_digit() && last.is_ascii_digit())
}
