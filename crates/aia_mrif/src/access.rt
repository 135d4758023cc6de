ghost use Rattle.std.specs.Prelude.{◌≡◌, ℕ, ◌+◌, ◌*◌, ◌/◌, ◌%◌, ◌<◌, ◌≤◌, if◌then◌else◌, Some, IsTrue};
ghost use Rattle.aia_word.specs.Sets.{has_bit};
ghost use Rattle.aia_word.specs.Top.{top_value};
ghost use Rattle.aia_regs.specs.declared.limits.TheConstants.{IDENTITIES};
ghost use Rattle.aia_regs.specs.declared.access.Op.TheVariants as ops;
ghost use Rattle.aia_file.specs.InterruptFile.{is_greatest_identity, SameFile, register_value, top_of, accessed, claimed};
ghost use Rattle.aia_file.specs.Mrif.{mrif_in, pending_place};
ghost use Rattle.aia_file.specs.Words.{HasSlot, index_of, register_place, MasksIdentities, words_after_claim};
ghost use Rattle.aia_file.specs.SlotFile.{slot_file, IsOfSets, KeepsAllElse};

use crate::slot::{SlotMut, pair_at};
use crate::view::{View, summary};
use aia_file::search;
use aia_ram::Ram;
use aia_regs::FileReg;
use aia_word::Steps;
use std::marker::Brand;
use std::sync::ledger::{Blank, Ledger};

/// What the accesses of a guest do whose interrupts are in memory: its hypervisor reaches the slot
/// as an interrupt file of the identities 1 to `n`, which is 63, 127, 255, 511, 1023 or 2047.
impl SlotMut<'_> {
    /// Gives what a register of the sets reads, `eip` or `eie` with an even index below 64:
    /// identity 0 and those above `n` read 0.
    ///
    /// AIA 1.0, IMSIC, "Indirectly accessed interrupt-file registers".
    pub fn read_reg(&self, reg: FileReg, n: u32) -> u64
        requires greatest { IsTrue (is_greatest_identity n) }
        requires sets { IsOfSets reg }
        ensures { result
            ≡ register_value (slot_file n 0 (mrif_in self.now.ram.now self.now.q)) reg }
    {
        shown(self.ram, self.q, reg, n)
    }

    /// Writes a register of the sets, as of [`SlotMut::read_reg`], as csrrw does, and answers what
    /// it read before. Identity 0 and those above `n`, which it does not show, stay as they are in
    /// both sets, and so does all memory elsewhere.
    ///
    /// AIA 1.0, IMSIC, "Indirectly accessed interrupt-file registers".
    pub fn write_reg(&mut self, reg: FileReg, n: u32, v: u64) -> u64
        requires greatest { IsTrue (is_greatest_identity n) }
        requires sets { IsOfSets reg }
        ensures before { result
            ≡ register_value (slot_file n 0 (mrif_in self.old.ram.now self.old.q)) reg }
        ensures after { SameFile (slot_file n 0 (mrif_in self.new.ram.now self.new.q))
            (accessed reg (ops.Write v)
            (slot_file n 0 (mrif_in self.old.ram.now self.old.q))) }
        ensures rest { KeepsAllElse self.old.ram.now self.new.ram.now self.old.q n }
        ensures same_slot { self.new.q ≡ self.old.q }
        ensures same_reference { self.new.ram.ghost_name ≡ self.old.ram.ghost_name }
    {
        let before = self.read_reg(reg, n);
        let at = register_at(self.q, reg);
        let mask = identities(index_of(reg), n);
        let word = self.ram.load(at);
        self.ram.store(at, merged(word, v, mask));
        before
    }

    /// Gives what a topei register shows at a threshold: the identity on top twice, in bits 26:16
    /// and 10:0; 0 where there is none. How many looks it takes no clause here says; `top_counted`,
    /// which is private, bounds its steps by `(n + 1) / 64 + 2`.
    ///
    /// AIA 1.0, IMSIC, "Top external interrupt CSRs".
    pub fn top(&self, n: u32, threshold: u64) -> u64
        requires { IsTrue (is_greatest_identity n) }
        ensures { result
            ≡ top_value (top_of (slot_file n threshold (mrif_in self.now.ram.now self.now.q))) }
    {
        self.top_in::<Brand>(Blank::new(1), n, threshold)
    }

    /// Claims: clears the pending bit of the identity on top at a threshold, and answers what a
    /// topei register showed before; with none on top it answers 0 and changes nothing. Every other
    /// bit of the slot stays, and so does all memory elsewhere.
    ///
    /// AIA 1.0, IMSIC, "Top external interrupt CSRs".
    pub fn claim(&mut self, n: u32, threshold: u64) -> u64
        requires { IsTrue (is_greatest_identity n) }
        ensures top { result
            ≡ top_value (top_of (slot_file n threshold (mrif_in self.old.ram.now self.old.q))) }
        ensures after { SameFile (slot_file n threshold (mrif_in self.new.ram.now self.new.q))
            (claimed (slot_file n threshold (mrif_in self.old.ram.now self.old.q))) }
        ensures rest { KeepsAllElse self.old.ram.now self.new.ram.now self.old.q n }
        ensures same_slot { self.new.q ≡ self.old.q }
        ensures same_reference { self.new.ram.ghost_name ≡ self.old.ram.ghost_name }
    {
        let top = self.top(n, threshold);
        if top != 0 {
            self.clear((top % 0x1_0000) as u32);
        }
        top
    }

    /// Gives what a topei register shows, by looks that are counted in a new ledger.
    fn top_in<L: Ledger>(&self, ledger: Blank, n: u32, threshold: u64) -> u64
        requires name { ledger.name ≡ L.name }
        requires parts { ledger.parts ≡ L.parts }
        requires some { 0 < L.parts }
        requires greatest { IsTrue (is_greatest_identity n) }
        ensures { result
            ≡ top_value (top_of (slot_file n threshold (mrif_in self.now.ram.now self.now.q))) }
    {
        self.top_counted(&mut Steps::<L>::new(ledger), n, threshold)
    }

    /// Gives what a topei register shows, and counts a step for each look: one at each pair of
    /// words of memory, one at the summary of these and at most one more at one pair.
    #[tactic(auto, unfolding(aia_word::specs::Summary::Summarizes))]
    fn top_counted<L: Ledger>(&self, steps: &mut Steps<L>, n: u32, threshold: u64) -> u64
        requires { IsTrue (is_greatest_identity n) }
        ensures top { result
            ≡ top_value (top_of (slot_file n threshold (mrif_in self.now.ram.now self.now.q))) }
        ensures few { steps.new ≤ steps.old + (n + 1) / 64 + 2 }
    {
        let summary = summary(self.ram, self.q, n, steps);
        let mut view = View {
            ram: self.ram,
            q: self.q,
            n,
            summary,
            steps,
        };
        search(&mut view, threshold)
    }

    /// Clears the pending bit of the identity.
    fn clear(&mut self, identity: u32)
        requires { identity ≤ IDENTITIES }
        ensures words { self.new.ram.now ≡ words_after_claim self.old.ram.now self.old.q
            (Some identity) }
        ensures same_slot { self.new.q ≡ self.old.q }
        ensures same_reference { self.new.ram.ghost_name ≡ self.old.ram.ghost_name }
    {
        let at = pair_at(self.q, (identity / 64) as usize);
        let word = self.ram.load(at);
        self.ram.store(at, word & !(1 << (identity % 64)));
    }
}

/// Gives what the register of the sets reads of slot `q` as a file of the identities 1 to `n`.
pub(crate) fn shown(ram: &Ram, q: u32, reg: FileReg, n: u32) -> u64
    requires slot { HasSlot ram.now q }
    requires greatest { IsTrue (is_greatest_identity n) }
    requires sets { IsOfSets reg }
    ensures { result ≡ register_value (slot_file n 0 (mrif_in ram.now q)) reg }
{
    ram.load(register_at(q, reg)) & identities(index_of(reg), n)
}

/// Gives the byte at which the word of memory begins that a register of the sets shows.
fn register_at(q: u32, reg: FileReg) -> usize
    requires { IsOfSets reg }
    ensures { result ≡ 8 * register_place q reg }
{
    match reg {
        FileReg::Pending(k) => pair_at(q, (k / 2) as usize),
        FileReg::Enable(k) => pair_at(q, (k / 2) as usize) + 8,
        FileReg::Delivery
        | FileReg::Threshold
        | FileReg::Reserved
        | FileReg::Odd
        | FileReg::Outside => 0,
    }
}

/// Gives the index of a register of the sets.
fn index_of(reg: FileReg) -> u32
    ensures { result ≡ index_of reg }
{
    match reg {
        FileReg::Pending(k) | FileReg::Enable(k) => k,
        FileReg::Delivery
        | FileReg::Threshold
        | FileReg::Reserved
        | FileReg::Odd
        | FileReg::Outside => 0,
    }
}

/// Gives the word that has the bits of the identities 1 to `n` alone that register `k` of a set
/// shows.
#[tactic(auto, using(crate::proofs::AccessLemmas::all_but_zero, crate::proofs::AccessLemmas::all_of_word))]
fn identities(k: u32, n: u32) -> u64
    requires greatest { IsTrue (is_greatest_identity n) }
    requires even { k % 2 ≡ 0 }
    requires low { k < 64 }
    ensures { MasksIdentities result (32 * k) n }
{
    if 32 * k > n {
        0
    } else if k == 0 {
        !1
    } else {
        !0
    }
}

/// Gives the bits of `v` where the mask has ones, and those of `word` elsewhere.
#[tactic(auto, using(crate::proofs::AccessLemmas::merged_bit))]
fn merged(word: u64, v: u64, mask: u64) -> u64
    ensures { (b : ℕ) → b < 64
        → has_bit result b ≡ (if has_bit mask b then has_bit v b else has_bit word b) }
{
    (v & mask) | (word & !mask)
}
