//! The flags of a regular expression.

ghost use Rattle.std.specs.Prelude.{◌≡◌, chars};
ghost use Rattle.jsonb_pattern.specs.Flags.{flags_of, no_flags, with_flag};

use crate::letters::first_and_rest;

/// The flags of a regular expression, as XQuery has them.
#[derive(Clone, Copy, Debug, PartialEq, Eq)]
pub struct Flags {
    /// `i`: ASCII letters match in either case.
    pub ignore_case: bool,
    /// `s`: `.` and negated brackets match a line feed too.
    pub dot_all: bool,
    /// `m`: `^` and `$` match at the ends of lines too.
    pub multi_line: bool,
    /// `q`: each character stands for itself.
    pub quoted: bool,
}

impl Flags {
    /// No flag.
    pub fn none() -> Flags
        ensures { result ≡ no_flags }
    {
        Flags {
            ignore_case: false,
            dot_all: false,
            multi_line: false,
            quoted: false,
        }
    }

    /// The flags of a text of `i`, `s`, `m` and `q`. `None` if another character is in it.
    pub fn of_text(text: &str) -> Option<Flags>
        ensures { result ≡ flags_of no_flags (chars text.now) }
    {
        let mut flags = Flags::none();
        let mut left = text;
        'letters: while let Some((letter, rest)) = first_and_rest(left) {
            flags = flags.with(letter)?;
            left = rest;
        }
        Some(flags)
    }

    // These flags and that of a letter.
    fn with(self, letter: char) -> Option<Flags>
        ensures { result ≡ with_flag self letter }
    {
        let mut flags = self;
        match letter {
            'i' => flags.ignore_case = true,
            's' => flags.dot_all = true,
            'm' => flags.multi_line = true,
            'q' => flags.quoted = true,
            _ => return None,
        }
        Some(flags)
    }
}
