//! MSI page tables: entries, translation and fences.

use crate::same;
use aia_entry::{Entry, Iommu, Route, basic, decode, mrif};
use aia_ram::Ram;
use std::test::Fail;

#[test]
fn entries_say_what_their_words_say(rt: HostRuntime) -> Result<(), Fail> {
    for (w0, w1, entry) in [
        (
            0x2000_0003,
            0x0a00_0001,
            Entry::Mrif(0x8000_0000, 0x28000, 1),
        ),
        (0x0a00_0407, 9, Entry::Basic(0x28001)),
        (0x0a00_0405, 0, Entry::Misconfigured),
        (0x0a00_040e, 0, Entry::NotValid),
        (0x8000_0000_0000_0001, 0, Entry::Custom),
        (0x0a00_040f, 0, Entry::Misconfigured),
        (
            0x2000_0003,
            0x1000_0000_0a00_0001,
            Entry::Mrif(0x8000_0000, 0x28000, 1025),
        ),
    ] {
        same!(rt; decode(w0, w1), entry; (w0, w1));
    }
    same!(rt; basic(0x28001), 0x0a00_0407);
    same!(rt; mrif(0x8000_0000, 0x28000, 1), (0x2000_0003, 0x0a00_0001));
    same!(rt; mrif(0x8000_0000, 0x28000, 1025), (0x2000_0003, 0x1000_0000_0a00_0001));
    Ok(())
}

/// Two VMs, whose files are numbered by the bits 3 and 5 of a page, and by bit 3; the entries of
/// their files 2 and 1 are written, and then put in force one after the other; the last one is read
/// again.
#[test]
#[tactic(auto, using(crate::proofs::TableFacts::two_ones, crate::proofs::TableFacts::one_one))]
fn a_store_goes_by_the_entry_in_force(rt: HostRuntime) -> Result<(), Fail> {
    let mut ram = Ram::new(rt.alloc(), 0x6000)?;
    let mut iommu = Iommu::new(rt.alloc())?;
    iommu.vm(0x28, 0x2000);
    iommu.vm(0x8, 0x3000);
    let (w0, w1) = mrif(0x8000_0000, 0x28000, 1);
    ram.store(0x2020, w0);
    ram.store(0x2028, w1);
    ram.store(0x3010, basic(0x28001));
    same!(rt; iommu.translate(0, 0x2802_0000), Route::Fault(Entry::NotValid));
    iommu.fence(0, 2, &ram);
    let in_memory = Route::To(Entry::Mrif(0x8000_0000, 0x28000, 1));
    same!(rt; iommu.translate(0, 0x2802_0000), in_memory);
    same!(rt; iommu.translate(0, 0x2802_0004), in_memory);
    same!(rt; iommu.translate(0, 0x2802_8000), Route::Fault(Entry::NotValid));
    same!(rt; iommu.translate(0, 0x2801_0000), Route::Other);
    same!(rt; iommu.translate(1, 0x2800_8000), Route::Fault(Entry::NotValid));
    iommu.fence(1, 1, &ram);
    same!(rt; iommu.translate(1, 0x2800_8000), Route::To(Entry::Basic(0x28001)));
    ram.store(0x3010, 0);
    same!(rt; iommu.translate(1, 0x2800_8000), Route::To(Entry::Basic(0x28001)));
    iommu.fence(1, 1, &ram);
    same!(rt; iommu.translate(1, 0x2800_8000), Route::Fault(Entry::NotValid));
    same!(rt; iommu.translate(0, 0x2802_0000), in_memory);
    ram.store(0x3010, basic(0x28002));
    iommu.refetch(1, 1, &ram);
    same!(rt; iommu.translate(1, 0x2800_8000), Route::To(Entry::Basic(0x28002)));
    Ok(())
}
