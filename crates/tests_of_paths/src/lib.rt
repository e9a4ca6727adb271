//! Tests of the language of paths, beside what PostgreSQL answered: tokens, texts of paths and what
//! is said of a refused one, values that paths give, and regular expressions.
#![tactic(auto)]

#[cfg(test)]
mod hints;
#[cfg(test)]
mod patterns;
#[cfg(test)]
mod texts;
#[cfg(test)]
mod tokens;
#[cfg(test)]
mod values;
