//! How long a line and an answer may be (our profile's choice).

/// The most bytes of a text that is a line or a comment.
pub const LINE_BYTES: usize = 128;

/// The most bytes of an answer, with its LF: there is room for as many wherever one is written.
pub const ANSWER_BYTES: usize = 64;
