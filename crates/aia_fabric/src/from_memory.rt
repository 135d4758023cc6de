ghost use Rattle.std.specs.Prelude.{◌≡◌, ◌<◌};
ghost use Rattle.aia_word.specs.Top.{top_value};
ghost use Rattle.aia_regs.specs.declared.limits.TheConstants.{VCPUS};
ghost use Rattle.aia_file.specs.InterruptFile.{register_value, top_of, accessed, claimed};
ghost use Rattle.aia_file.specs.SlotFile.{IsOfSets};
ghost use Rattle.aia_fabric_values.specs.SlotAccess.{file_of_slot, DoneInSlot};

use crate::Fabric;
use aia_mrif::SlotMut;
use aia_regs::{FileReg, Op};

/// What the accesses of a guest do that runs with no guest file: its slot of memory is reached as
/// an interrupt file of the machine's identities. All other words of memory stay, and all else.
impl Fabric {
    /// Does what one CSR instruction does with a register of the sets of slot `q`, below `SLOTS`,
    /// `eip` or `eie` with an even index below 64, and gives what the register reads before.
    ///
    /// AIA 1.0, IMSIC, "Indirectly accessed interrupt-file registers".
    pub fn slot_reg(&mut self, q: u32, reg: FileReg, op: Op) -> u64
        requires slot { q < VCPUS }
        requires sets { IsOfSets reg }
        ensures value { result ≡ register_value (file_of_slot self.old q 0) reg }
        ensures done { DoneInSlot self.old self.new q 0 (accessed reg op) }
    {
        let n = self.n;
        let mut slot = SlotMut {
            ram: &mut self.ram,
            q,
        };
        let before = slot.read_reg(reg, n);
        if op.is_writing() {
            slot.write_reg(reg, n, op.written(before));
        }
        before
    }

    /// Gives what a topei register shows of slot `q`, below `SLOTS`, at a threshold: the identity
    /// on top twice, in bits 26:16 and 10:0; 0 where there is none. Nothing changes.
    ///
    /// AIA 1.0, IMSIC, "Top external interrupt CSRs".
    pub fn slot_top(&mut self, q: u32, threshold: u64) -> u64
        requires { q < VCPUS }
        ensures value { result ≡ top_value (top_of (file_of_slot self.old q threshold)) }
        ensures same { self.new ≡ self.old }
    {
        let n = self.n;
        let slot = SlotMut {
            ram: &mut self.ram,
            q,
        };
        slot.top(n, threshold)
    }

    /// Claims the identity on top of slot `q`, below `SLOTS`, at a threshold, and gives it as a
    /// topei register shows it; 0 where none is on top, and then nothing changes.
    ///
    /// AIA 1.0, IMSIC, "Top external interrupt CSRs".
    pub fn slot_claim(&mut self, q: u32, threshold: u64) -> u64
        requires { q < VCPUS }
        ensures value { result ≡ top_value (top_of (file_of_slot self.old q threshold)) }
        ensures done { DoneInSlot self.old self.new q threshold claimed }
    {
        let n = self.n;
        let mut slot = SlotMut {
            ram: &mut self.ram,
            q,
        };
        slot.claim(n, threshold)
    }
}
