/// A part of the image of a virtual hart: of all that its interrupts are, as one line prints and
/// loads it.
#[derive(Clone, Copy, Debug, PartialEq, Eq)]
pub enum Part {
    /// `image 1 N D T S`: the version of images, 1; the greatest identity of the interrupt file,
    /// its `eidelivery` and `eithreshold`; and the select number.
    Image {
        version: u32,
        n: u32,
        delivery: bool,
        threshold: u32,
        select: u64,
    },
    /// `majors J E`: the majors that are injected, at their bits of `sip`, and `sie`.
    Majors {
        injected: u64,
        enabled: u64,
    },
    /// `prio P V`: `hviprio1` and `hvictl`.
    Prio {
        hviprio: u64,
        hvictl: u64,
    },
    /// `word w P E`: word `w` of the pending set and of the enabled set, which has the identities
    /// from 64 times `w` on.
    Word {
        w: u64,
        pending: u64,
        enable: u64,
    },
}
