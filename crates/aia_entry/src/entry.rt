/// What the two words of an entry say.
#[derive(Clone, Copy, Debug, PartialEq, Eq)]
pub enum Entry {
    /// Basic mode: stores go to the page of this number, below `2^44`.
    Basic(u64),
    /// MRIF mode: stores go to the memory-resident interrupt file at this address, a multiple of
    /// 512 below `2^56`; notices go to the page of this number, below `2^44`, with this identity,
    /// below 2048.
    Mrif(u64, u64, u32),
    /// It is not valid.
    NotValid,
    /// It is for custom use.
    Custom,
    /// It is valid and not custom, and has a reserved mode or a reserved bit.
    Misconfigured,
}
