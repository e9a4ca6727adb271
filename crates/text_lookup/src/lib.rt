//! The value of one member of a JSON text, found as the text is checked: no document is made of it.
#![tactic(auto)]

mod member;
mod sink;

pub use member::{MAX_LOOKUP_LEN, TextMember, member_of_text};
