//! Where containers begin on the tape.

/// What a frame is of: an array, an object, or the whole value.
#[derive(Clone, Copy)]
pub enum Kind {
    Whole,
    Array,
    Object,
}

/// A container that is being read: where its own place is, and where its payloads, entry words and
/// members begin; whether its keys ascend, and whether all its values fit.
#[derive(Clone, Copy)]
pub struct Frame {
    pub kind: Kind,
    pub place: usize,
    pub start: usize,
    pub words: usize,
    pub members: usize,
    pub ascends: bool,
    pub fits: bool,
}

/// A closed container, whose header, entry words and keys are the bytes `start..end` of the heads.
/// In the document they come after the payloads before `at`, and the payloads from `until` on come
/// after them.
#[derive(Clone, Copy)]
pub struct Head {
    pub at: usize,
    pub until: usize,
    pub start: usize,
    pub end: usize,
}

/// The payload of a member, of `size` bytes: the payloads from `start` up to `end`, with the places
/// from `first` up to `last`.
#[derive(Clone, Copy)]
pub struct Part {
    pub start: usize,
    pub end: usize,
    pub first: usize,
    pub last: usize,
    pub size: usize,
}

/// A place on the tape. That of a container that is being read keeps the frame around it.
#[derive(Clone, Copy)]
pub enum Place {
    Open(Frame),
    Head(Head),
    Part(Part),
}
