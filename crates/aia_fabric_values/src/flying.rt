use aia_entry::Entry;

/// A store of a device that is in flight.
#[derive(Clone, Copy, Debug, PartialEq, Eq)]
pub struct Flying {
    /// The entry that was in force for it as it was sent.
    pub entry: Entry,
    /// Its offset in the page of its file, in bytes.
    pub offset: u32,
    /// What it stores.
    pub value: u32,
}

/// A store that goes nowhere; lists that take stores out need one.
impl Default for Flying {
    fn default() -> Flying {
        Flying {
            entry: Entry::NotValid,
            offset: 0,
            value: 0,
        }
    }
}
