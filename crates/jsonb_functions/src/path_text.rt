//! Paths that are given as texts.

ghost use Rattle.std.specs.Prelude.{◌≡◌, ◌↔◌, ◌∷◌, ◌++◌, ◌<◌, ◌-◌, ◌^◌, ℕ, List, [], IfErr, IfOk};
ghost use Rattle.std.specs.Prelude.{MatchOption, Some, codes, map, option_map, true, false};
ghost use Rattle.std.specs.List.{prefix_len};
ghost use Rattle.jsonb_functions.specs.Words.{AreTerms, StepBegins, BeginsWithLiteral};
ghost use Rattle.jsonb_functions.specs.Words.{BeginsWithStep, BeginsWithTerm, BeginsWithTest};
ghost use Rattle.jsonb_functions.specs.Words.{EndsName, IsComparison, IsFilter, IsFilterPath};
ghost use Rattle.jsonb_functions.specs.Words.{IsLiteralWord, PathText, Reads, ReadsStep, StepsText};
ghost use Rattle.jsonb_functions.specs.Words.{SelectorView, StopsAt, Tree, after_spaces, all_are};
ghost use Rattle.jsonb_functions.specs.Words.{back_in, bound_in, comparison_in, counted_in};
ghost use Rattle.jsonb_functions.specs.Words.{ends_in, ends_in_space, from_end_of, indexes};
ghost use Rattle.jsonb_functions.specs.Words.{indexes_in, is_in_name, is_in_word, is_not};
ghost use Rattle.jsonb_functions.specs.Words.{list_count};
ghost use Rattle.jsonb_functions.specs.Words.{items_in, mark_in, member_step, name_len, node_tree};
ghost use Rattle.jsonb_functions.specs.Words.{path_view, place_in, range_in, scalar_tree};
ghost use Rattle.jsonb_functions.specs.Words.{selector_view, single_step, single_steps};
ghost use Rattle.jsonb_functions.specs.Words.{state_after, step_view, tail_after, tail_after_not};
ghost use Rattle.jsonb_functions.specs.Words.{tail_after_two, tail_after_word, term_view};
ghost use Rattle.jsonb_functions.specs.Words.{terms_view, tree_of};
ghost use Rattle.jsonb_functions.specs.Words.{AreFilterSteps, IsExists, ends_path, exists_in};
ghost use Rattle.jsonb_functions.specs.Words.{finds, steps_view, tail_after_exists};

use crate::digits::read_number;
use crate::filter::{Comparison, Condition, Term, Test};
use crate::path::Step;
use crate::selection::{Bound, Selector, step_at};
use jsonb::layer::parse_scalar;
use jsonb::{Error, Exponents, Node, NumberItem, Value};
use std::alloc::{AllocError, Global};

/// The path that a text gives: `$`, and then its steps. `.name` is the value of a key, and so is
/// `."any name"`, if there are points, brackets or question marks in it; `[7]` is an item, also as
/// `[007]`, `[#-1]` the last one, and `[#]`, or `[#-0]`, none, past the last one; `[*]` is each
/// item, `[0 to #-2]` the items from one to another, and `.*` each member's value. `[last]` is the
/// last item too, and `[last - 1]`, or `[last-1]`, the one before it; `[0, 2, last]` are the items
/// at these indexes, in this order, and a path has at most one such list. The keys are the text's
/// bytes, without escapes: `.*a` is the key `*a`. A key with a parenthesis, or with a space at its
/// end, is written between quotes, so that `.size()` is no key. An index past 64 bits is the
/// greatest of 64 bits.
///
/// `?(@.price < 3)` keeps a value if what is at the end of the path that begins with `@` compares
/// so with a literal, by the order of documents. The path has no wildcards, ranges, lists and
/// filters, and a key with a space is written between quotes. There may be spaces around `?` and
/// the condition, as in `$ ? ( @.price < 3 )`. The comparison is `==`, `!=` or `<>`, `<`, `<=`, `>`
/// or `>=`, with one space before and after it. The literal is `null`, `true`, `false`, a JSON
/// number, read exactly, with or without an exponent, or a string without quotes and escapes in it.
///
/// `exists(@.size)` in place of a comparison keeps a value if its path leads to a value, which may
/// be null, and `!exists(@.size)` if it leads nowhere. There may be spaces before each `(`, `@` and
/// `)` and after the `!`, as in `! exists ( @.size )`.
///
/// `&&` and `||` join comparisons, where `&&` binds more: `?(@.price < 3 && @.size == "L")`. `(`
/// and `)` group them, and `!(` and `)` turn what is between them: `?(!(@.price < 3 || @.old ==
/// true))`. There may be spaces before each of these.
///
/// `None` for any other text; `OutOfMemory`, the only error, if an allocation fails.
pub fn read_path_text<'a>(alloc: Global, text: &'a str) -> Result<Option<Vec<Selector<'a>>>, Error>
    ensures ok { IfOk result (λ path. (steps : List SelectorView) → PathText text.now steps
        ↔ (option_map (λ selectors. map selector_view selectors.items) path ≡ Some steps)) }
    ensures memory { IfErr result (λ e. e ≡ Error.OutOfMemory) }
{
    let Some(path) = read_steps(alloc, text)? else {
        return Ok(None);
    };
    if list_count(&path) > 1 {
        return Ok(None);
    }
    Ok(Some(path))
}

// How many lists of indexes a path has.
fn list_count(path: &[Selector<'_>]) -> usize
    ensures { result ≡ list_count (map selector_view path.now) }
{
    let mut count = 0;
    for selector in path {
        if matches!(selector, Selector::Indexes(_)) {
            count += 1;
        }
    }
    count
}

// The steps after the `$` of a text, with any number of lists.
fn read_steps<'a>(alloc: Global, text: &'a str) -> Result<Option<Vec<Selector<'a>>>, AllocError>
    ensures { IfOk result (λ path. (steps : List SelectorView) → StepsText text.now steps
        ↔ (option_map (λ selectors. map selector_view selectors.items) path ≡ Some steps)) }
{
    let Some(start) = after_char(text, '$') else {
        return Ok(None);
    };
    let mut path = Vec::new(alloc);
    let mut left = start;
    while !left.is_empty() {
        let Some((selector, rest)) = read_step(alloc, left)? else {
            return Ok(None);
        };
        path.push(selector)?;
        left = rest;
    }
    Ok(Some(path))
}

/// The steps of a path without wildcards, ranges, lists and filters, as `get_path` and
/// `edit_document` take them. `None` if it has any; `OutOfMemory`, the only error, if an allocation
/// fails.
pub fn steps_of_path<'a>(
    alloc: Global,
    path: &[Selector<'a>],
) -> Result<Option<Vec<Step<'a>>>, Error>
    ensures ok { IfOk result (λ steps. option_map (λ steps. map step_view steps.items) steps
        ≡ single_steps (map selector_view path.now)) }
    ensures memory { IfErr result (λ e. e ≡ Error.OutOfMemory) }
{
    let mut steps = Vec::with_capacity(alloc, path.len())?;
    let mut left = path;
    while let [selector, rest @ ..] = left {
        let Some(step) = step_of(selector) else {
            return Ok(None);
        };
        steps.push(step)?;
        left = rest;
    }
    Ok(Some(steps))
}

// The step of a path without wildcards, ranges, lists and filters.
fn step_of<'a>(selector: &Selector<'a>) -> Option<Step<'a>>
    ensures { option_map step_view result ≡ single_step (selector_view selector.now) }
{
    match selector {
        Selector::Step(step) => Some(*step),
        _ => None,
    }
}

// The first step of a text, and what is after it.
fn read_step<'a>(
    alloc: Global,
    text: &'a str,
) -> Result<Option<(Selector<'a>, &'a str)>, AllocError>
    ensures { IfOk result (ReadsStep BeginsWithStep false text.now) }
{
    match after_char(after_spaces(text), '?') {
        Some(condition) => read_filter(alloc, condition),
        None => read_written(alloc, text, false),
    }
}

// What is after the spaces at the beginning.
#[tactic(auto, using(crate::proofs::PathTextLaws::no_space, crate::proofs::PathTextLaws::a_space))]
fn after_spaces(text: &str) -> &str
    ensures { result.now ≡ after_spaces text.now }
{
    let mut left = text;
    while let Some(rest) = after_char(left, ' ') {
        left = rest;
    }
    left
}

// A step that is not a filter, and what is after it. In a filter, a name as it is ends before a
// space too.
fn read_written<'a>(
    alloc: Global,
    text: &'a str,
    in_filter: bool,
) -> Result<Option<(Selector<'a>, &'a str)>, AllocError>
    ensures { IfOk result (ReadsStep (StepBegins in_filter) in_filter text.now) }
{
    if let Some(name) = after_char(text, '.') {
        return Ok(read_member(name, in_filter));
    }
    match after_char(text, '[') {
        Some(place) => read_bracketed(alloc, place, in_filter),
        None => Ok(None),
    }
}

// A step after a point, and what is after it.
fn read_member<'a>(text: &'a str, in_filter: bool) -> Option<(Selector<'a>, &'a str)>
    ensures { ReadsStep (StepBegins in_filter) in_filter (46 ∷ text.now) result }
{
    match after_char(text, '"') {
        Some(quoted) => read_quoted(quoted, in_filter),
        None => read_plain(text, in_filter),
    }
}

// A key up to a quote, and what is after that.
fn read_quoted<'a>(text: &'a str, in_filter: bool) -> Option<(Selector<'a>, &'a str)>
    ensures { ReadsStep (StepBegins in_filter) in_filter (46 ∷ (34 ∷ text.now)) result }
{
    match split_at(text, '"') {
        Some((name, rest)) => Some((Selector::Step(Step::Key(name)), rest)),
        None => None,
    }
}

// A key as it is, or the step to each member, and what is after it.
fn read_plain<'a>(text: &'a str, in_filter: bool) -> Option<(Selector<'a>, &'a str)>
    requires { (rest : List ℕ) → text.now ≡ 34 ∷ rest → ⊥ }
    ensures { ReadsStep (StepBegins in_filter) in_filter (46 ∷ text.now) result }
{
    let (name, rest) = split_name(text, in_filter);
    if name.is_empty() {
        None
    } else {
        Some((member_of(name), rest))
    }
}

// The step to a key, or to each member.
fn member_of<'a>(name: &'a str) -> Selector<'a>
    ensures { selector_view result ≡ member_step name.now }
{
    if name == "*" {
        Selector::AllMembers
    } else {
        Selector::Step(Step::Key(name))
    }
}

// A name as it is, and the rest.
fn split_name(text: &str, in_filter: bool) -> (&str, &str)
    ensures whole { text.now ≡ result.0.now ++ result.1.now }
    ensures name { all_are (is_in_name in_filter) result.0.now ≡ true }
    ensures last { ends_in_space result.0.now ≡ false }
    ensures rest { EndsName in_filter result.1.now }
{
    let end = name_len(text, in_filter);
    (&text[..end], &text[end..])
}

// The length of a name as it is, without the spaces after it.
fn name_len(text: &str, in_filter: bool) -> usize
    ensures { result ≡ name_len in_filter text.now }
{
    let mut len = 0;
    let mut passed = 0;
    for &byte in text.as_bytes() {
        if !is_in_name(in_filter, byte) {
            return len;
        }
        passed += 1;
        if byte != b' ' {
            len = passed;
        }
    }
    len
}

// Whether a byte can be in a name as it is: a point, a bracket, a question mark or a parenthesis
// cannot, and in a filter a space cannot.
fn is_in_name(in_filter: bool, byte: u8) -> bool
    ensures { result ≡ is_in_name in_filter byte }
{
    !matches!(byte, b'.' | b'[' | b'?' | b'(' | b')') && !(in_filter && byte == b' ')
}

// What is after a character, if it is the first one.
#[tactic(auto, using(std::proofs::lemmas::Str::Pattern::strip_prefix_char))]
fn after_char(text: &str, first: char) -> Option<&str>
    requires { first < 128 }
    ensures { MatchOption result ((rest : List ℕ) → text.now ≡ first ∷ rest → ⊥)
        (λ rest. text.now ≡ first ∷ rest.now) }
{
    text.strip_prefix(first)
}

// What is before the first such character, and what is after it.
fn split_at(text: &str, end: char) -> Option<(&str, &str)>
    requires { end < 128 }
    ensures { MatchOption result (all_are (is_not end) text.now ≡ true)
        (λ parts. (text.now ≡ parts.0.now ++ (end ∷ parts.1.now))
        × (all_are (is_not end) parts.0.now ≡ true)) }
{
    text.split_once(end)
}

// A step up to a closing bracket, and what is after that.
fn read_bracketed<'a>(
    alloc: Global,
    text: &'a str,
    in_filter: bool,
) -> Result<Option<(Selector<'a>, &'a str)>, AllocError>
    ensures { IfOk result (ReadsStep (StepBegins in_filter) in_filter (91 ∷ text.now)) }
{
    match split_at(text, ']') {
        Some((place, rest)) => match read_place(alloc, place)? {
            Some(selector) => Ok(Some((selector, rest))),
            None => Ok(None),
        },
        None => Ok(None),
    }
}

// The step between brackets.
fn read_place<'a>(alloc: Global, place: &str) -> Result<Option<Selector<'a>>, AllocError>
    ensures { IfOk result (λ selector.
        option_map selector_view selector ≡ place_in place.now) }
{
    if place == "*" {
        return Ok(Some(Selector::AllItems));
    }
    match split_at(place, ',') {
        Some(_) => read_list(alloc, place),
        None => Ok(read_items(place)),
    }
}

// The step to the items at indexes between commas.
fn read_list<'a>(alloc: Global, place: &str) -> Result<Option<Selector<'a>>, AllocError>
    ensures { IfOk result (λ selector.
        option_map selector_view selector ≡ option_map indexes (indexes_in place.now)) }
{
    match read_indexes(alloc, place)? {
        Some(indexes) => Ok(Some(Selector::Indexes(indexes))),
        None => Ok(None),
    }
}

// The indexes between commas. There may be spaces before each.
fn read_indexes(alloc: Global, place: &str) -> Result<Option<Vec<Bound>>, AllocError>
    ensures { IfOk result (λ indexes.
        option_map (λ indexes. indexes.items) indexes ≡ indexes_in place.now) }
{
    let mut indexes = Vec::new(alloc);
    let mut left = place;
    while let Some((part, rest)) = split_at(left, ',') {
        let Some(index) = read_bound(after_spaces(part)) else {
            return Ok(None);
        };
        indexes.push(index)?;
        left = rest;
    }
    let Some(index) = read_bound(after_spaces(left)) else {
        return Ok(None);
    };
    indexes.push(index)?;
    Ok(Some(indexes))
}

// The step to an item, or to the items from one to another.
fn read_items<'a>(place: &str) -> Option<Selector<'a>>
    ensures { option_map selector_view result ≡ items_in place.now }
{
    match read_bound(place) {
        Some(bound) => Some(Selector::Step(step_at(bound))),
        None => read_range(place),
    }
}

// The step to the items from one to another.
fn read_range<'a>(place: &str) -> Option<Selector<'a>>
    ensures { option_map selector_view result ≡ range_in place.now }
{
    let (first, last) = split_to(place)?;
    let first = read_bound(first)?;
    let last = read_bound(last)?;
    Some(Selector::Range { first, last })
}

// What is before the first ` to `, and what is after it.
fn split_to(text: &str) -> Option<(&str, &str)>
    ensures { option_map (λ ends. (ends.0.now, ends.1.now)) result ≡ ends_in text.now }
{
    text.split_once(" to ")
}

// An item from the start or from the end.
fn read_bound(text: &str) -> Option<Bound>
    ensures { result ≡ bound_in text.now }
{
    match tail_after_last(text) {
        Some(rest) => {
            let number = read_back(rest)?;
            Some(Bound::FromEnd(number))
        }
        None => read_counted(text.as_bytes()),
    }
}

// What is after `last`.
fn tail_after_last(text: &str) -> Option<&str>
    ensures { option_map (λ rest. rest.now) result ≡ tail_after_word (codes "last") text.now }
{
    let rest = tail_after(text, 'l')?;
    let rest = tail_after(rest, 'a')?;
    let rest = tail_after(rest, 's')?;
    tail_after(rest, 't')
}

// The number after `last` and a `-`, with spaces around that or none; 0 after `last` alone.
fn read_back(text: &str) -> Option<usize>
    ensures { result ≡ back_in text.now }
{
    if text.is_empty() {
        return Some(0);
    }
    let digits = tail_after(after_spaces(text), '-')?;
    read_number(after_spaces(digits).as_bytes())
}

// An item by a number from the start, or after `#`.
fn read_counted(bytes: &[u8]) -> Option<Bound>
    ensures { result ≡ counted_in bytes.now }
{
    match bytes {
        [b'#'] => Some(Bound::End),
        [b'#', b'-', digits @ ..] => {
            let number = read_number(digits)?;
            Some(bound_from_end(number))
        }
        digits => {
            let number = read_number(digits)?;
            Some(Bound::FromStart(number))
        }
    }
}

// The item so far from the end, where 1 is the last item, and 0 is past it.
fn bound_from_end(number: usize) -> Bound
    ensures { result ≡ from_end_of number }
{
    if number == 0 {
        Bound::End
    } else {
        Bound::FromEnd(number - 1)
    }
}

// A filter after its question mark, and what is after it.
fn read_filter<'a>(
    alloc: Global,
    text: &'a str,
) -> Result<Option<(Selector<'a>, &'a str)>, AllocError>
    ensures { IfOk result (Reads selector_view (IsFilter text.now)) }
{
    let Some(inner) = after_char(after_spaces(text), '(') else {
        return Ok(None);
    };
    let Some((terms, rest)) = read_terms(alloc, inner)? else {
        return Ok(None);
    };
    Ok(Some((Selector::Filter(Condition { terms }), rest)))
}

// The terms of a filter, and what is after its closing parenthesis.
fn read_terms<'a>(
    alloc: Global,
    text: &'a str,
) -> Result<Option<(Vec<Term<'a>>, &'a str)>, AllocError>
    ensures { IfOk result (Reads terms_view (AreTerms true 0 text.now)) }
{
    let mut terms = Vec::new(alloc);
    let mut wants_value = true;
    let mut depth = 0;
    let mut left = text;
    loop {
        if let Some(rest) = after_last(left, wants_value, depth) {
            return Ok(Some((terms, rest)));
        }
        let Some((term, rest)) = read_term(alloc, left)? else {
            return Ok(None);
        };
        let Some((wants_next, depth_next)) = state_after(wants_value, depth, &term) else {
            return Ok(None);
        };
        terms.push(term)?;
        wants_value = wants_next;
        depth = depth_next;
        left = rest;
    }
}

// The text after the parenthesis that closes a filter, `None` if a term is missing before it or a
// group is open.
fn after_last(text: &str, wants_value: bool, depth: usize) -> Option<&str>
    ensures { MatchOption result ((rest : List ℕ) → AreTerms wants_value depth text.now [] rest → ⊥)
        (λ rest. AreTerms wants_value depth text.now [] rest.now) }
{
    if wants_value || depth > 0 {
        return None;
    }
    after_char(after_spaces(text), ')')
}

// After a term: whether a value has to follow, and how many groups are open. `None` if the term is
// not allowed at its position.
fn state_after(wants_value: bool, depth: usize, term: &Term<'_>) -> Option<(bool, usize)>
    requires { depth < 2 ^ 64 - 1 }
    ensures { result ≡ state_after wants_value depth (term_view term.now) }
{
    match (wants_value, term) {
        (true, Term::Test(_) | Term::Exists(_) | Term::NotExists(_)) => Some((false, depth)),
        (true, Term::Open | Term::OpenNot) => Some((true, depth + 1)),
        (false, Term::And | Term::Or) => Some((true, depth)),
        (false, Term::Close) => match depth {
            0 => None,
            deep => Some((false, deep - 1)),
        },
        _ => None,
    }
}

// A term of a condition, and what is after it.
fn read_term<'a>(alloc: Global, text: &'a str) -> Result<Option<(Term<'a>, &'a str)>, AllocError>
    ensures { IfOk result (Reads term_view (BeginsWithTerm text.now)) }
{
    let start = after_spaces(text);
    if let Some(test) = after_char(start, '@') {
        return read_test(alloc, test);
    }
    match after_exists(start) {
        Some((is_wanted, path)) => read_exists(alloc, path, is_wanted),
        None => Ok(read_mark(start)),
    }
}

// Whether a path is to lead to a value, by `exists(@`, or is not to, by `!exists(@`, and what is
// after that.
fn after_exists(text: &str) -> Option<(bool, &str)>
    ensures { option_map (λ r. (r.0, r.1.now)) result ≡ exists_in text.now }
{
    match tail_after(text, '!') {
        Some(rest) => {
            let path = tail_after_exists(after_spaces(rest))?;
            Some((false, path))
        }
        None => {
            let path = tail_after_exists(text)?;
            Some((true, path))
        }
    }
}

// What is after `exists`, an opening parenthesis and `@`, with spaces before these or none.
fn tail_after_exists(text: &str) -> Option<&str>
    ensures { option_map (λ rest. rest.now) result ≡ tail_after_exists text.now }
{
    let rest = tail_after_exists_word(text)?;
    let inner = tail_after(after_spaces(rest), '(')?;
    tail_after(after_spaces(inner), '@')
}

// What is after `exists`.
fn tail_after_exists_word(text: &str) -> Option<&str>
    ensures { option_map (λ rest. rest.now) result ≡ tail_after_word (codes "exists") text.now }
{
    let rest = tail_after(text, 'e')?;
    let rest = tail_after(rest, 'x')?;
    let rest = tail_after(rest, 'i')?;
    let rest = tail_after(rest, 's')?;
    let rest = tail_after(rest, 't')?;
    tail_after(rest, 's')
}

// The term of a path after its `@`, and what is after the parenthesis that closes it.
fn read_exists<'a>(
    alloc: Global,
    text: &'a str,
    is_wanted: bool,
) -> Result<Option<(Term<'a>, &'a str)>, AllocError>
    ensures { IfOk result (Reads term_view (IsExists is_wanted text.now)) }
{
    let Some((path, end)) = read_filter_path(alloc, text)? else {
        return Ok(None);
    };
    match after_char(after_spaces(end), ')') {
        Some(rest) => Ok(Some((exists_term(path, is_wanted), rest))),
        None => Ok(None),
    }
}

// The term by which a path is to lead to a value, or is not to.
fn exists_term<'a>(path: Vec<Step<'a>>, is_wanted: bool) -> Term<'a>
    ensures { term_view result ≡ finds is_wanted (steps_view path.entry) }
{
    if is_wanted {
        Term::Exists(path)
    } else {
        Term::NotExists(path)
    }
}

// A term that is no test, and what is after it.
fn read_mark<'a>(text: &'a str) -> Option<(Term<'a>, &'a str)>
    ensures { option_map (λ r. (term_view r.0, r.1.now)) result ≡ mark_in text.now }
{
    if let Some(rest) = tail_after(text, '(') {
        return Some((Term::Open, rest));
    }
    if let Some(rest) = tail_after(text, ')') {
        return Some((Term::Close, rest));
    }
    if let Some(rest) = tail_after_two(text, '&') {
        return Some((Term::And, rest));
    }
    if let Some(rest) = tail_after_two(text, '|') {
        return Some((Term::Or, rest));
    }
    match tail_after_not(text) {
        Some(rest) => Some((Term::OpenNot, rest)),
        None => None,
    }
}

// What is after a character, if it is the first one.
fn tail_after(text: &str, first: char) -> Option<&str>
    requires { first < 128 }
    ensures { option_map (λ rest. rest.now) result ≡ tail_after first text.now }
{
    after_char(text, first)
}

// What is after two such characters, if they are the first ones.
fn tail_after_two(text: &str, first: char) -> Option<&str>
    requires { first < 128 }
    ensures { option_map (λ rest. rest.now) result ≡ tail_after_two first text.now }
{
    match tail_after(text, first) {
        Some(rest) => tail_after(rest, first),
        None => None,
    }
}

// What is after `!`, spaces and an opening parenthesis.
fn tail_after_not(text: &str) -> Option<&str>
    ensures { option_map (λ rest. rest.now) result ≡ tail_after_not text.now }
{
    match tail_after(text, '!') {
        Some(rest) => tail_after(after_spaces(rest), '('),
        None => None,
    }
}

// A test after its `@`, and what is after it.
fn read_test<'a>(alloc: Global, text: &'a str) -> Result<Option<(Term<'a>, &'a str)>, AllocError>
    ensures { IfOk result (Reads term_view (BeginsWithTest text.now)) }
{
    let Some((path, end)) = read_filter_path(alloc, text)? else {
        return Ok(None);
    };
    let Some(rest) = after_char(end, ' ') else {
        return Ok(None);
    };
    let Some((comparison, rest)) = read_comparison(rest) else {
        return Ok(None);
    };
    let Some((value, rest)) = read_literal(alloc, rest)? else {
        return Ok(None);
    };
    let test = Test {
        path,
        comparison,
        value,
    };
    Ok(Some((Term::Test(test), rest)))
}

// A filter's path, which has single steps alone, and what is after it.
fn read_filter_path<'a>(
    alloc: Global,
    text: &'a str,
) -> Result<Option<(Vec<Step<'a>>, &'a str)>, AllocError>
    ensures { IfOk result (Reads steps_view (IsFilterPath text.now)) }
{
    let Some((path, end)) = read_filter_steps(alloc, text)? else {
        return Ok(None);
    };
    let Ok(single) = steps_of_path(alloc, &path) else {
        return Err(AllocError);
    };
    match single {
        Some(steps) => Ok(Some((steps, end))),
        None => Ok(None),
    }
}

// The steps before a space or a closing parenthesis, and the text from that on.
fn read_filter_steps<'a>(
    alloc: Global,
    text: &'a str,
) -> Result<Option<(Vec<Selector<'a>>, &'a str)>, AllocError>
    ensures { IfOk result (Reads path_view (AreFilterSteps text.now)) }
{
    let mut steps = Vec::new(alloc);
    let mut left = text;
    while !ends_path(left) {
        let Some((selector, rest)) = read_written(alloc, left, true)? else {
            return Ok(None);
        };
        steps.push(selector)?;
        left = rest;
    }
    Ok(Some((steps, left)))
}

// Whether a filter's path ends before a text.
fn ends_path(text: &str) -> bool
    ensures { result ≡ ends_path text.now }
{
    matches!(text.as_bytes(), [b' ' | b')', ..])
}

// A comparison before a space, and what is after that.
fn read_comparison(text: &str) -> Option<(Comparison, &str)>
    ensures { Reads (λ c. c) (IsComparison text.now) result }
{
    match split_at(text, ' ') {
        Some((word, rest)) => match comparison_in(word) {
            Some(comparison) => Some((comparison, rest)),
            None => None,
        },
        None => None,
    }
}

// The comparison that is written so.
fn comparison_in(word: &str) -> Option<Comparison>
    ensures { result ≡ comparison_in word.now }
{
    match word {
        "==" => Some(Comparison::Equal),
        "!=" | "<>" => Some(Comparison::NotEqual),
        "<" => Some(Comparison::Less),
        "<=" => Some(Comparison::LessOrEqual),
        ">" => Some(Comparison::Greater),
        ">=" => Some(Comparison::GreaterOrEqual),
        _ => None,
    }
}

// A literal, and what is after it.
fn read_literal<'a>(alloc: Global, text: &'a str) -> Result<Option<(Node<'a>, &'a str)>, AllocError>
    ensures { IfOk result (Reads node_tree (BeginsWithLiteral text.now)) }
{
    match after_char(text, '"') {
        Some(quoted) => Ok(read_string(quoted)),
        None => read_word(alloc, text),
    }
}

// A string before a quote, and what is after that.
fn read_string<'a>(text: &'a str) -> Option<(Node<'a>, &'a str)>
    ensures { Reads node_tree (BeginsWithLiteral (34 ∷ text.now)) result }
{
    match split_at(text, '"') {
        Some((value, rest)) => Some((Node::String(value), rest)),
        None => None,
    }
}

// A word, and what is after it.
fn read_word<'a>(alloc: Global, text: &'a str) -> Result<Option<(Node<'a>, &'a str)>, AllocError>
    requires { (rest : List ℕ) → text.now ≡ 34 ∷ rest → ⊥ }
    ensures { IfOk result (Reads node_tree (BeginsWithLiteral text.now)) }
{
    let (word, rest) = split_word(text);
    if word.is_empty() {
        return Ok(None);
    }
    match read_scalar(alloc, word)? {
        Some(value) => Ok(Some((value, rest))),
        None => Ok(None),
    }
}

// A word, and the rest.
fn split_word(text: &str) -> (&str, &str)
    ensures whole { text.now ≡ result.0.now ++ result.1.now }
    ensures word { all_are is_in_word result.0.now ≡ true }
    ensures rest { StopsAt is_in_word result.1.now }
{
    let end = word_len(text);
    (&text[..end], &text[end..])
}

// The length of a word.
fn word_len(text: &str) -> usize
    ensures { result ≡ prefix_len is_in_word text.now }
{
    let bytes = text.as_bytes();
    bytes.iter().take_while(|byte| is_in_word(**byte)).count()
}

// Whether a byte can be in a word: a control character, a space, a quote, `&`, `|` or a closing
// parenthesis cannot.
fn is_in_word(byte: u8) -> bool
    ensures { result ≡ is_in_word byte }
{
    byte > b' ' && !matches!(byte, b'"' | b'&' | b')' | b'|')
}

// The value of a word: null, a truth value or a number, as JSON spells it.
fn read_scalar<'a>(alloc: Global, word: &str) -> Result<Option<Node<'a>>, AllocError>
    ensures { IfOk result (λ value. MatchOption value ((t : Tree) → IsLiteralWord word.now t → ⊥)
        (λ node. IsLiteralWord word.now (node_tree node))) }
{
    match parse_scalar(alloc, word, Exponents::Allowed) {
        Ok(value) => Ok(scalar_node(value)),
        Err(Error::InvalidJson) => Ok(None),
        Err(Error::OutOfMemory) => Err(AllocError),
        Err(_) => unreachable!(),
    }
}

// Null, a truth value or a number, in place.
fn scalar_node<'a>(value: Value<'_>) -> Option<Node<'a>>
    ensures { option_map node_tree result ≡ scalar_tree (tree_of value.entry) }
{
    match value {
        Value::Null => Some(Node::Null),
        Value::Bool(truth) => Some(Node::Boolean(truth)),
        Value::Number(number) => Some(Node::Number(NumberItem::from_number(number))),
        _ => None,
    }
}
