/// The number names no major, or is one that `hvictl` may not have.
#[derive(Clone, Copy, Debug, PartialEq, Eq)]
pub struct Range;
