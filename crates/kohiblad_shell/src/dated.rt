//! Fields of dates and timestamps, which texts of RFC 3339 may say and show.

ghost use Rattle.std.specs.Prelude.{◌≡◌, List, MatchOption, ℕ, IfErr, IfOk, option_map};
ghost use Rattle.kohiblad_shell.specs.Words.{HoldsNoScalar, IsDatedField, IsShownField, SaysDate};
ghost use Rattle.kohiblad_shell.specs.Words.{SaysTimestamp, SaysZoned, ShowsDate, ShowsTimestamp};
ghost use Rattle.kohiblad_shell.specs.Words.{ShowsZoned, node_tree};

use crate::extract::{Written, field_by};
use crate::iso::{iso_day, iso_wall, iso_zoned};
use crate::iso_text::{day_text, wall_text, zoned_text};
use jsonb::{Date, Error, Node, Timestamp, TimestampTz};
use jsonb_typed::{Dates, Timestamps, ZonedTimestamps};
use std::alloc::Global;

/// A type of which texts say values.
pub trait Dated: Written {
    ghost says: { Self → Self.Value → List ℕ → Type 0 };

    ghost shows: { Self → Self.Value → List ℕ → Type 0 };

    /// The value that a text says. `None` if it says none.
    fn said(&self, text: &str) -> Option<Self::Value>
        ensures { MatchOption result
            ((v : Self.Value) → says self.now v text.now → ⊥)
            (λ v. says self.now v text.now) };

    /// The text that says a value, or its number if none does.
    fn shown(&self, alloc: Global, value: Self::Value) -> Result<Vec<u8>, Error>
        ensures ok { IfOk result (λ field. shows self.now value field.items) }
        ensures memory { IfErr result (λ e. e ≡ Error.OutOfMemory) };
}

impl Dated for Dates {
    ghost says = { λ s v text. SaysDate v text };

    ghost shows = { λ s v field. ShowsDate v field };

    fn said(&self, text: &str) -> Option<Date> {
        match iso_day(text.as_bytes()) {
            Some(value) => Some(Date { value }),
            None => None,
        }
    }

    fn shown(&self, alloc: Global, date: Date) -> Result<Vec<u8>, Error> {
        match day_text(alloc, date.value)? {
            Some(text) => Ok(text),
            None => self.field(alloc, date),
        }
    }
}

impl Dated for Timestamps {
    ghost says = { λ s v text. SaysTimestamp v text };

    ghost shows = { λ s v field. ShowsTimestamp v field };

    fn said(&self, text: &str) -> Option<Timestamp> {
        match iso_wall(text.as_bytes()) {
            Some(value) => Some(Timestamp { value }),
            None => None,
        }
    }

    fn shown(&self, alloc: Global, timestamp: Timestamp) -> Result<Vec<u8>, Error> {
        match wall_text(alloc, timestamp.value as i128)? {
            Some(text) => Ok(text),
            None => self.field(alloc, timestamp),
        }
    }
}

impl Dated for ZonedTimestamps {
    ghost says = { λ s v text. SaysZoned v text };

    ghost shows = { λ s v field. ShowsZoned v field };

    fn said(&self, text: &str) -> Option<TimestampTz> {
        iso_zoned(text.as_bytes())
    }

    fn shown(&self, alloc: Global, timestamp: TimestampTz) -> Result<Vec<u8>, Error> {
        match zoned_text(alloc, timestamp)? {
            Some(text) => Ok(text),
            None => self.field(alloc, timestamp),
        }
    }
}

/// The field of a value of a type, or of the value that a text says, if these say and show dates.
/// `None` if it is none.
#[tactic(auto, using(crate::proofs::DatedLaws::dated_otherwise))]
pub fn dated_field<T: Dated>(
    alloc: Global,
    value: Node<'_>,
    value_type: &T,
    has_iso_dates: bool,
) -> Result<Option<Vec<u8>>, Error>
    requires { HoldsNoScalar value }
    ensures ok { IfOk result (λ field. IsDatedField has_iso_dates
        (T.Written.stands value_type.now) (T.says value_type.now) (T.shows value_type.now)
        (T.Written.text value_type.now) (node_tree value.entry)
        (option_map (λ field. field.items) field)) }
    ensures memory { IfErr result (λ e. e ≡ Error.OutOfMemory) }
{
    if !has_iso_dates {
        return field_by(alloc, value, value_type);
    }
    match value {
        Node::String(text) => said_field(alloc, text, value_type),
        _ => shown_field(alloc, value, value_type),
    }
}

// The field of the value that a text says. `None` if it says none.
fn said_field<T: Dated>(alloc: Global, text: &str, value_type: &T) -> Result<Option<Vec<u8>>, Error>
    ensures ok { IfOk result (λ field. IsShownField (λ v. T.says value_type.now v text.now)
        (T.shows value_type.now) (option_map (λ field. field.items) field)) }
    ensures memory { IfErr result (λ e. e ≡ Error.OutOfMemory) }
{
    match value_type.said(text) {
        Some(said) => Ok(Some(value_type.shown(alloc, said)?)),
        None => Ok(None),
    }
}

// The field of a value of the type. `None` if it is none.
fn shown_field<T: Dated>(
    alloc: Global,
    value: Node<'_>,
    value_type: &T,
) -> Result<Option<Vec<u8>>, Error>
    requires { HoldsNoScalar value }
    ensures ok { IfOk result (λ field. IsShownField
        (λ v. T.Written.stands value_type.now v (node_tree value.entry))
        (T.shows value_type.now) (option_map (λ field. field.items) field)) }
    ensures memory { IfErr result (λ e. e ≡ Error.OutOfMemory) }
{
    match value_type.value_of(value) {
        Some(value) => Ok(Some(value_type.shown(alloc, value)?)),
        None => Ok(None),
    }
}
