/// What a move of a virtual hart does, and so what becomes of its G-stage record.
#[derive(Clone, Copy, Debug, PartialEq, Eq)]
pub enum Kind {
    /// From a guest file to a slot of memory: the guest's page is unmapped.
    Leave,
    /// From a slot of memory to a guest file: the guest's page is mapped.
    Arrive,
    /// From a guest file to another one: the guest's page is mapped anew.
    Shift,
}

/// A step of a plan: one access, by which a virtual hart's interrupts go over from an old place to
/// a new one. A place is a guest file, or a slot of memory that holds a memory-resident interrupt
/// file. Words are those of 64 identities that `eip` and `eie` show, counted from 0.
///
/// AIA 1.0, IMSIC, "Indirectly accessed interrupt-file registers"; IOMMU Support for MSIs to
/// Virtual Machines, "MSI page tables" and "Memory-resident interrupt files".
#[derive(Clone, Copy, Debug, PartialEq, Eq)]
pub enum Step {
    /// `quiet`: takes eidelivery of the old place, so that it signals no more.
    Quiet,
    /// `word1`: writes word 1 of the virtual hart's entry in its VM's MSI page table: where notices
    /// of a memory-resident interrupt file go.
    Word1,
    /// `word0`: writes word 0 of that entry: stores of devices lead to the new place, once the
    /// entry is in force.
    Word0,
    /// `fence`: makes the IOMMU forget what it read of the entry. The stores that it let through
    /// before have landed, and the entry as it is written is in force.
    Fence,
    /// `map`: writes the G-stage record of the page by which other virtual harts store: the new
    /// guest file. The step of an arrival.
    Map,
    /// `unmap`: writes that record as a leave does: it names no guest file.
    Unmap,
    /// `remap`: writes it as a shift does: the new guest file in place of the old one.
    Remap,
    /// `gfence`: puts the G-stage record, as it is written, in force on all harts.
    GFence,
    /// `takep W`: takes word W of the pending set from the old place, which keeps none of it, and
    /// carries it. What was carried of the pending set before is dropped.
    TakeP(u32),
    /// `putp W`: adds what is carried of the pending set to word W of the new place, but not
    /// identity 0, which is none. Nothing of it is carried then.
    PutP(u32),
    /// `takee W`: as `takep W`, of the enabled set.
    TakeE(u32),
    /// `pute W`: what is carried of the enabled set replaces word W of the new place, but for
    /// identity 0. Nothing of it is carried then.
    PutE(u32),
    /// `look W`: reads word W of both sets of a place, and changes neither.
    Look(u32),
    /// `taket`: takes eithreshold of the old place.
    TakeT,
    /// `putt`: puts eithreshold in the new place.
    PutT,
    /// `post`: sends the virtual hart's notice, where a look saw an identity pending and enabled.
    Post,
    /// `wake`: puts eidelivery in the new place.
    Wake,
}

/// A step that changes nothing; arrays of a fixed capacity need one where none stands yet.
impl Default for Step {
    fn default() -> Step {
        Step::Quiet
    }
}
