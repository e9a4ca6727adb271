//! Paths by which rows are sorted.

ghost use Rattle.kohiblad_shell.specs.Words.{SaysDirection};

use jsonb_path::Path;

/// Which of two values comes first.
#[derive(Clone, Copy, Debug, PartialEq, Eq)]
pub enum Direction {
    /// The lower one.
    Rising,
    /// The higher one.
    Falling,
}

/// A path to the values by which rows are sorted, and in which direction.
#[derive(Drop)]
pub struct SortPath {
    pub path: Path,
    pub direction: Direction,
}

/// The text of a path, and the direction that a word after it and a space says, as in SQL: `desc`
/// for falling, and `asc`, or no such word, for rising.
pub fn split_direction(text: &str) -> (&str, Direction)
    ensures { SaysDirection text.now result.0.now result.1 }
{
    if let Some(path) = text.strip_suffix(" desc") {
        return (path, Direction::Falling);
    }
    match text.strip_suffix(" asc") {
        Some(path) => (path, Direction::Rising),
        None => (text, Direction::Rising),
    }
}
