//! A pattern, compiled.

ghost use Rattle.std.specs.Prelude.{◌≡◌, IfErr, IfOk, string_bytes};
ghost use Rattle.regex.specs.Sources.{IsRefusal};
ghost use Rattle.regex.specs.Strings.{IsReadFromSource, regex_config, regex_pattern, regex_source};
ghost use Rattle.jsonb_pattern.specs.Meaning.{SearchesFor};
ghost use Rattle.jsonb_pattern.specs.Translated.{config_of};

use crate::flags::Flags;
use crate::place::Place;
use crate::translate::{PatternFault, fault_at, translate};
use regex::{Error, Regex, RegexBuilder};
use regex_syntax::ErrorKind;
use std::alloc::{AllocError, AllocFailed, Global};

/// Why a text is not read as a pattern.
#[derive(Clone, Copy, Debug, PartialEq, Eq)]
pub enum PatternError {
    /// An allocation failed.
    OutOfMemory,
    /// The text is no pattern that is read here.
    Refused(PatternFault),
    /// What the pattern compiles to would pass a mebibyte.
    TooLarge,
}

impl<T: Drop> From<AllocFailed<T>> for PatternError {
    ghost use Rattle.std.specs.Prelude.{◌≡◌};
    ghost use Rattle.jsonb_pattern.specs.declared.pattern.PatternError.TheVariants.{OutOfMemory};

    ghost from_gives = { λ _ e. e ≡ OutOfMemory };

    fn from(_failed: AllocFailed<T>) -> PatternError {
        PatternError::OutOfMemory
    }
}

impl From<AllocError> for PatternError {
    ghost use Rattle.std.specs.Prelude.{◌≡◌};
    ghost use Rattle.jsonb_pattern.specs.declared.pattern.PatternError.TheVariants.{OutOfMemory};

    ghost from_gives = { λ _ e. e ≡ OutOfMemory };

    fn from(_error: AllocError) -> PatternError {
        PatternError::OutOfMemory
    }
}

/// A regular expression with its flags, compiled.
#[derive(Debug, Drop)]
pub struct Pattern {
    source: String,
    flags: Flags,
    regex: Box<Regex>,
    ghost finds: { SearchesFor (string_bytes source) flags (regex_pattern regex.value) },
}

// How many bytes a compiled pattern may have.
const LARGEST: usize = 1 << 20;

impl Pattern {
    ghost use Rattle.std.specs.Prelude.{◌≡◌, IfOk};
    ghost use Rattle.jsonb_pattern.specs.Meaning.{is_found, pattern_of};
    ghost use Rattle.jsonb_pattern.specs.Translated.{Translates};
    ghost use Rattle.jsonb_pattern.specs.Views.{written_of};

    /// The pattern of a text with these flags. `Refused` if the text is none that is read here,
    /// `TooLarge` if what it compiles to would pass a mebibyte, `OutOfMemory` if an allocation
    /// fails.
    #[tactic(auto, using(crate::proofs::PatternLaws::patterns))]
    pub fn new(alloc: Global, source: &str, flags: Flags) -> Result<Pattern, PatternError>
        ensures { Translates (λ pattern. written_of pattern) result
            (pattern_of (record { source = source.now; flags = flags })) }
    {
        let text = translate(alloc, flags, source)?;
        let mut owned = String::new(alloc);
        owned.push_str(source)?;
        match compile(alloc, flags, text.as_str()) {
            Ok(regex) => Ok(Pattern {
                source: owned,
                flags,
                regex: Box::new(alloc, regex)?,
            }),
            Err(Error::Syntax(error)) => match error.kind {
                ErrorKind::OutOfMemory => Err(PatternError::OutOfMemory),
                _ => Err(PatternError::Refused(fault_at(source, "", Place::Atom))),
            },
            Err(Error::OutOfMemory) => Err(PatternError::OutOfMemory),
            Err(Error::CompiledTooBig | Error::Internal) => Err(PatternError::TooLarge),
        }
    }

    /// The text of the pattern.
    pub fn source(&self) -> &str
        ensures { result.now ≡ (written_of self.now).source }
    {
        self.source.as_str()
    }

    /// The flags of the pattern.
    pub fn flags(&self) -> Flags
        ensures { result ≡ (written_of self.now).flags }
    {
        self.flags
    }

    /// Whether the pattern is found somewhere in a text.
    pub fn is_found(&self, alloc: Global, text: &str) -> Result<bool, AllocError>
        ensures { IfOk result (λ found. found ≡ is_found (written_of self.now) text.now) }
    {
        let mut matcher = self.regex.matcher(alloc)?;
        Ok(matcher.is_match(text))
    }
}

// The expression of a text in the syntax of the crate `regex`.
fn compile(alloc: Global, flags: Flags, text: &str) -> Result<Regex, Error>
    ensures source { IfOk result (λ r. regex_source r ≡ text.now) }
    ensures config { IfOk result (λ r. regex_config r ≡ config_of flags) }
    ensures read { IfOk result IsReadFromSource }
    ensures refused { IfErr result (IsRefusal (config_of flags) text.now) }
{
    RegexBuilder::new(text)
        .multi_line(flags.multi_line && !flags.quoted)
        .dot_matches_new_line(flags.dot_all)
        .size_limit(LARGEST)
        .build(alloc)
}
