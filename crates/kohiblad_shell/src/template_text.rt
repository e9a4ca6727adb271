//! Reading templates.

use crate::template::Template;
use jsonb_path::token::{Found, PathFault, ReadError, Reason};
use jsonb_path::{Expected, Path};
use jsonb_value::Error;
use jsonb_value::layer::parse_string;
use std::alloc::{AllocError, AllocFailed, Global};

// How many arrays and objects of a template may be one within another.
const MAX_LEVELS: usize = 64;

/// The template of a text: JSON with a path where a value may stand. A path ends before the comma
/// or bracket that is not its own. `Refused` with the first place at which the text is none, and
/// what may stand there: a path, a key between quotes, or a mark; `TooDeep` if more than 64 arrays
/// and objects are one within another.
pub fn template_of_text(alloc: Global, text: &str) -> Result<Template, ReadError> {
    let mut reader = TemplateReader { alloc, left: text };
    match reader.whole() {
        Ok(template) => Ok(template),
        Err(Unreadable::OutOfMemory) => Err(ReadError::OutOfMemory),
        Err(Unreadable::Refused(left, reason)) => Err(ReadError::Refused(PathFault {
            at: text.len().saturating_sub(left),
            reason,
        })),
    }
}

// Why a template is not read: memory, or a refusal so many bytes before the end of the text.
#[derive(Clone, Copy)]
enum Unreadable {
    OutOfMemory,
    Refused(usize, Reason),
}

impl From<AllocError> for Unreadable {
    fn from(_error: AllocError) -> Unreadable {
        Unreadable::OutOfMemory
    }
}

impl<T: Drop> From<AllocFailed<T>> for Unreadable {
    fn from(_failed: AllocFailed<T>) -> Unreadable {
        Unreadable::OutOfMemory
    }
}

// Where a character of a path or key stands: in a text between quotes, after a backslash in it, or
// neither.
#[derive(Clone, Copy, PartialEq, Eq)]
enum Quoting {
    Bare,
    Quoted,
    Escaped,
}

impl Quoting {
    // The same of the character after this one.
    fn after(self, character: char) -> Quoting {
        match (self, character) {
            (Quoting::Bare, '"') => Quoting::Quoted,
            (Quoting::Quoted, '"') => Quoting::Bare,
            (Quoting::Quoted, '\\') => Quoting::Escaped,
            (Quoting::Escaped, _) => Quoting::Quoted,
            (other, _) => other,
        }
    }
}

// What is left of the text.
#[derive(Drop)]
struct TemplateReader<'t> {
    alloc: Global,
    left: &'t str,
}

impl TemplateReader<'_> {
    // The template that is the whole text.
    fn whole(&mut self) -> Result<Template, Unreadable> {
        let template = self.template(MAX_LEVELS)?;
        self.pass_blank();
        match self.first() {
            None => Ok(template),
            Some(_) => Err(self.refused(Expected::End)),
        }
    }

    // The next template, with at most so many arrays and objects one within another.
    #[cycle(template_text)]
    fn template(&mut self, levels: usize) -> Result<Template, Unreadable> {
        self.pass_blank();
        match self.first() {
            Some('[') => self.array(levels),
            Some('{') => self.object(levels),
            Some(',' | ']' | '}') | None => Err(self.refused(Expected::Value)),
            Some(_) => self.path(),
        }
    }

    // An array of templates.
    #[cycle(template_text)]
    fn array(&mut self, levels: usize) -> Result<Template, Unreadable> {
        let Some(inner) = levels.checked_sub(1) else {
            return Err(self.refused_for(Reason::TooDeep));
        };
        self.expect('[')?;
        let mut items = Vec::new(self.alloc);
        if self.passes(']') {
            return Ok(Template::Array(items));
        }
        items.push(self.template(inner)?)?;
        for _ in 0..self.left.len() {
            if !self.passes(',') {
                break;
            }
            items.push(self.template(inner)?)?;
        }
        self.expect(']')?;
        Ok(Template::Array(items))
    }

    // An object of templates.
    #[cycle(template_text)]
    fn object(&mut self, levels: usize) -> Result<Template, Unreadable> {
        let Some(inner) = levels.checked_sub(1) else {
            return Err(self.refused_for(Reason::TooDeep));
        };
        self.expect('{')?;
        let mut members = Vec::new(self.alloc);
        if self.passes('}') {
            return Ok(Template::Object(members));
        }
        members.push(self.member(inner)?)?;
        for _ in 0..self.left.len() {
            if !self.passes(',') {
                break;
            }
            members.push(self.member(inner)?)?;
        }
        self.expect('}')?;
        Ok(Template::Object(members))
    }

    // A key, and the template of its value.
    #[cycle(template_text)]
    fn member(&mut self, levels: usize) -> Result<(String, Template), Unreadable> {
        let key = self.key()?;
        self.expect(':')?;
        let template = self.template(levels)?;
        Ok((key, template))
    }

    // A key between quotes.
    fn key(&mut self) -> Result<String, Unreadable> {
        self.pass_blank();
        let refusal = self.refused(Expected::Mark('"'));
        if self.first() != Some('"') {
            return Err(refusal);
        }
        let escape = self.refused_for(Reason::InvalidEscape);
        let text = self.quoted()?;
        match parse_string(self.alloc, text.as_str()) {
            Ok(key) => Ok(String::from_str(self.alloc, key.as_str())?),
            Err(Error::OutOfMemory) => Err(Unreadable::OutOfMemory),
            Err(_) => Err(escape),
        }
    }

    // What stands in quotes, with the quotes.
    fn quoted(&mut self) -> Result<String, Unreadable> {
        let unclosed = self.refused_for(Reason::UnclosedText);
        let mut text = String::new(self.alloc);
        let mut quoting = Quoting::Bare;
        for _ in 0..self.left.len() {
            let Some((first, rest)) = split_first(self.left) else {
                break;
            };
            text.push(first)?;
            self.left = rest;
            quoting = quoting.after(first);
            if quoting == Quoting::Bare {
                return Ok(text);
            }
        }
        Err(unclosed)
    }

    // A path, which is all up to a comma or bracket that is not its own.
    fn path(&mut self) -> Result<Template, Unreadable> {
        let whole = self.left.len();
        let text = self.path_text()?;
        match Path::of_text(self.alloc, text.as_str()) {
            Ok(path) => Ok(Template::Path(path)),
            Err(ReadError::OutOfMemory) => Err(Unreadable::OutOfMemory),
            Err(ReadError::Refused(fault)) => Err(Unreadable::Refused(
                whole.saturating_sub(fault.at),
                fault.reason,
            )),
        }
    }

    // The text of a path.
    fn path_text(&mut self) -> Result<String, Unreadable> {
        let mut text = String::new(self.alloc);
        let mut quoting = Quoting::Bare;
        let mut depth: usize = 0;
        for _ in 0..self.left.len() {
            let Some((first, rest)) = split_first(self.left) else {
                break;
            };
            if quoting == Quoting::Bare {
                if depth == 0 && matches!(first, ',' | ']' | '}') {
                    return Ok(text);
                }
                depth = depth_after(depth, first);
            }
            text.push(first)?;
            self.left = rest;
            quoting = quoting.after(first);
        }
        Ok(text)
    }

    // Passes over white space.
    fn pass_blank(&mut self) {
        for _ in 0..self.left.len() {
            match split_first(self.left) {
                Some((' ' | '\t' | '\n' | '\r', rest)) => self.left = rest,
                _ => return,
            }
        }
    }

    // The next character.
    fn first(&self) -> Option<char> {
        match split_first(self.left) {
            Some((first, _)) => Some(first),
            None => None,
        }
    }

    // Passes over white space and this mark. `false` if the mark does not come next.
    fn passes(&mut self, mark: char) -> bool {
        self.pass_blank();
        match split_first(self.left) {
            Some((first, rest)) if first == mark => {
                self.left = rest;
                true
            }
            _ => false,
        }
    }

    // The same of a mark that has to come next.
    fn expect(&mut self, mark: char) -> Result<(), Unreadable> {
        if self.passes(mark) {
            Ok(())
        } else {
            Err(self.refused(Expected::Mark(mark)))
        }
    }

    // The refusal of what comes next, where something else is expected.
    fn refused(&self, what: Expected) -> Unreadable {
        let found = match self.first() {
            None => Found::End,
            Some('"') => Found::Text,
            Some(mark) => Found::Mark(mark),
        };
        self.refused_for(Reason::Expected(what, found))
    }

    // A refusal of what comes next.
    fn refused_for(&self, reason: Reason) -> Unreadable {
        Unreadable::Refused(self.left.len(), reason)
    }
}

// How many brackets are open after this character.
fn depth_after(depth: usize, character: char) -> usize {
    match character {
        '(' | '[' | '{' => depth.saturating_add(1),
        ')' | ']' | '}' => depth.saturating_sub(1),
        _ => depth,
    }
}

// The first character, and the text after it.
fn split_first(text: &str) -> Option<(char, &str)> {
    let mut characters = text.chars();
    let first = characters.next()?;
    Some((first, characters.as_str()))
}
