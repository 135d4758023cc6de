ghost use Rattle.std.specs.Prelude.{◌≡◌, ℕ, ◌+◌, ◌-◌, ◌*◌, ◌/◌, ◌%◌, ◌<◌, ◌≤◌, ◌↔◌, false, ◌&&◌, ◌||◌, not, nat_eq, if◌then◌else◌, is_some, length, slice_index, slice_set, bit_or, IsTrue, IfOk, IfSome};
ghost use Rattle.aia_word.specs.Sets.{has_bit, is_in, word_of};
ghost use Rattle.aia_word.specs.Top.{top_value, lets_through};
ghost use Rattle.aia_regs.specs.declared.limits.TheConstants.{IDENTITIES, FILE_WORDS};
ghost use Rattle.aia_regs.specs.BitUpdate.{settle};
ghost use Rattle.aia_regs.specs.FileRegisters.{IsUsable, set_said, number_after};
ghost use Rattle.aia_file.specs.InterruptFile.{is_greatest_identity, SameFile, empty_file, register_value, top_of, signals, accessed, landed, claimed};
ghost use Rattle.aia_file.specs.FileState.{shown};
ghost use Rattle.aia_file.specs.Summary.{SummarizesBoth, AreIdentities};

use crate::looks::search;
use crate::summary::{refreshed, refreshed_anywhere};
use crate::view::View;
use aia_regs::{FileReg, Op, requested};
use aia_word::{Bank, Steps, sets};
use std::alloc::{AllocError, Global};
use std::marker::{Brand, Model};
use std::sync::ledger::{Blank, Ledger};

/// An interrupt file with the identities 1 to `n`: which are pending, which are enabled,
/// `eithreshold` and `eidelivery`.
///
/// AIA 1.0, IMSIC, "Interrupt files and interrupt identities".
#[derive(Drop)]
pub struct File {
    n: u32,
    pending: Vec<u64>,
    enabled: Vec<u64>,
    threshold: u64,
    delivery: u64,
    summary: u64,
}

impl Model for File {
    ghost use Rattle.aia_file.specs.FileState.{FileState};

    ghost Value = { FileState };

    ghost use Rattle.aia_file.specs.Kept.{kept_state, IsFile};

    ghost view = { kept_state };

    ghost invariant = { IsFile };
}

impl File {
    /// Makes an empty file with the identities 1 to `n`, which is 63, 127, 255, 511, 1023 or 2047.
    /// `Err`: there is no memory for it.
    pub fn new(alloc: Global, n: u32) -> Result<File, AllocError>
        requires { IsTrue (is_greatest_identity n) }
        ensures { IfOk result (λ f. SameFile (shown f) (empty_file n)) }
    {
        let words = (n as usize + 1) / 64;
        let pending = vec![in alloc; 0; words]?;
        let enabled = vec![in alloc; 0; words]?;
        Ok(File {
            n,
            pending,
            enabled,
            threshold: 0,
            delivery: 0,
            summary: 0,
        })
    }

    /// Gives what the register, one that a file serves, reads.
    pub fn read(&self, reg: FileReg) -> u64
        requires { IsUsable reg }
        ensures { result ≡ register_value (shown self.now) reg }
    {
        match reg {
            FileReg::Delivery => self.delivery,
            FileReg::Threshold => self.threshold,
            FileReg::Pending(k) => sets::word(&self.pending, (k / 2) as usize),
            FileReg::Enable(k) => sets::word(&self.enabled, (k / 2) as usize),
            FileReg::Reserved | FileReg::Odd | FileReg::Outside => 0,
        }
    }

    /// Does a CSR instruction on the register, one that a file serves, and answers what the
    /// register read before it.
    pub fn access(&mut self, reg: FileReg, op: Op) -> u64
        requires { IsUsable reg }
        ensures before { result ≡ register_value (shown self.old) reg }
        ensures after { SameFile (shown self.new) (accessed reg op (shown self.old)) }
    {
        let before = self.read(reg);
        match reg {
            FileReg::Delivery => self.delivery = access_number(self.delivery, 2, op),
            FileReg::Threshold => {
                self.threshold = access_number(self.threshold, u64::from(self.n) + 1, op);
            }
            FileReg::Pending(k) => {
                access_set(&mut self.pending, k, op);
                self.summary = refreshed_anywhere(
                    self.summary,
                    &self.pending,
                    &self.enabled,
                    (k / 2) as usize,
                );
            }
            FileReg::Enable(k) => {
                access_set(&mut self.enabled, k, op);
                self.summary = refreshed_anywhere(
                    self.summary,
                    &self.pending,
                    &self.enabled,
                    (k / 2) as usize,
                );
            }
            FileReg::Reserved | FileReg::Odd | FileReg::Outside => {}
        }
        before
    }

    /// Writes the register, as csrrw does, and answers what it read before.
    pub fn write(&mut self, reg: FileReg, value: u64) -> u64
        requires { IsUsable reg }
        ensures before { result ≡ register_value (shown self.old) reg }
        ensures after { SameFile (shown self.new) (accessed reg (Op.Write value) (shown self.old)) }
    {
        self.access(reg, Op::Write(value))
    }

    /// Sets the ones of `value` in the register, as csrrs does, and answers what it read before.
    pub fn set(&mut self, reg: FileReg, value: u64) -> u64
        requires { IsUsable reg }
        ensures before { result ≡ register_value (shown self.old) reg }
        ensures after { SameFile (shown self.new) (accessed reg (Op.Set value) (shown self.old)) }
    {
        self.access(reg, Op::Set(value))
    }

    /// Clears the ones of `value` in the register, as csrrc does, and answers what it read before.
    pub fn clear(&mut self, reg: FileReg, value: u64) -> u64
        requires { IsUsable reg }
        ensures before { result ≡ register_value (shown self.old) reg }
        ensures after { SameFile (shown self.new) (accessed reg (Op.Clear value) (shown self.old)) }
    {
        self.access(reg, Op::Clear(value))
    }

    /// Gives what a topei register shows: the identity on top twice, in bits 26:16 and 10:0; 0
    /// where there is none.
    pub fn top(&self) -> u64
        ensures { result ≡ top_value (top_of (shown self.now)) }
    {
        self.top_in::<Brand>(Blank::new(1))
    }

    /// Gives what `top` gives, and counts one step or two, one for each look at the file.
    pub fn top_counted<L: Ledger>(&self, steps: &mut Steps<L>) -> u64
        ensures top { result ≡ top_value (top_of (shown self.now)) }
        ensures one_at_least { steps.old + 1 ≤ steps.new }
        ensures two_at_most { steps.new ≤ steps.old + 2 }
    {
        let mut view = View { file: self, steps };
        search(&mut view, self.threshold)
    }

    /// Claims: clears the pending bit of the identity on top, and answers what a topei register
    /// showed before; with none on top it answers 0 and changes nothing.
    pub fn claim(&mut self) -> u64
        ensures top { result ≡ top_value (top_of (shown self.old)) }
        ensures after { SameFile (shown self.new) (claimed (shown self.old)) }
    {
        let top = self.top();
        self.remove_top(top);
        top
    }

    /// Claims as `claim` does, and counts one step or two, one for each look at the file.
    pub fn claim_counted<L: Ledger>(&mut self, steps: &mut Steps<L>) -> u64
        ensures top { result ≡ top_value (top_of (shown self.old)) }
        ensures after { SameFile (shown self.new) (claimed (shown self.old)) }
        ensures one_at_least { steps.old + 1 ≤ steps.new }
        ensures two_at_most { steps.new ≤ steps.old + 2 }
    {
        let top = self.top_counted(steps);
        self.remove_top(top);
        top
    }

    /// Tells whether the file signals its hart.
    pub fn signal(&self) -> bool
        ensures { result ≡ signals (shown self.now) }
    {
        self.delivery == 1 && self.has_top()
    }

    /// Takes a 32-bit store of `value` at `offset` of the file's page: it makes the identity that
    /// it names pending, and does nothing where it names none.
    #[inline(always)]
    pub fn land(&mut self, offset: u32, value: u32)
        ensures { SameFile (shown self.new) (landed offset value (shown self.old)) }
    {
        if let Some(identity) = requested(self.n, offset, value) {
            sets::insert(&mut self.pending, identity);
            let k = (identity / 64) as usize;
            self.summary = refreshed(self.summary, &self.pending, &self.enabled, k);
        }
    }

    /// Tells whether no identity is pending or enabled, and both numbers are 0.
    pub fn is_empty(&self) -> bool
        ensures { IsTrue result ↔ SameFile (shown self.now) (empty_file self.now.n) }
    {
        sets::is_empty(&self.pending)
            && sets::is_empty(&self.enabled)
            && self.threshold == 0
            && self.delivery == 0
    }

    /// Tells whether there is an identity on top.
    #[tactic(auto, using(crate::proofs::TopLemmas::top_is_some))]
    fn has_top(&self) -> bool
        ensures { result ≡ is_some (top_of (shown self.now)) }
    {
        self.top() != 0
    }

    /// Gives the summary of both sets.
    pub(crate) fn summary(&self) -> u64
        ensures summary { SummarizesBoth result (is_in self.now.pending) (is_in self.now.enabled) }
        ensures some { 1 ≤ (self.now.n + 1) / 64 }
        ensures few { (self.now.n + 1) / 64 ≤ FILE_WORDS }
        ensures pending { AreIdentities ((self.now.n + 1) / 64) (is_in self.now.pending) }
        ensures enabled { AreIdentities ((self.now.n + 1) / 64) (is_in self.now.enabled) }
    {
        self.summary
    }

    /// Gives word `k`, one of its words, of the pending and of the enabled set.
    pub(crate) fn pair(&self, k: u32) -> (u64, u64)
        requires { k < (self.now.n + 1) / 64 }
        ensures pending { result.0 ≡ word_of (is_in self.now.pending) (64 * k) 64 }
        ensures enabled { result.1 ≡ word_of (is_in self.now.enabled) (64 * k) 64 }
    {
        let k = k as usize;
        (sets::word(&self.pending, k), sets::word(&self.enabled, k))
    }

    /// Gives what a topei register shows, by looks that are counted in a new ledger.
    fn top_in<L: Ledger>(&self, ledger: Blank) -> u64
        requires name { ledger.name ≡ L.name }
        requires parts { ledger.parts ≡ L.parts }
        requires some { 0 < L.parts }
        ensures { result ≡ top_value (top_of (shown self.now)) }
    {
        self.top_counted(&mut Steps::<L>::new(ledger))
    }

    /// Clears the pending bit of the identity on top, given what a topei register shows of it.
    fn remove_top(&mut self, top: u64)
        requires { top ≡ top_value (top_of (shown self.old)) }
        ensures { SameFile (shown self.new) (claimed (shown self.old)) }
    {
        if top != 0 {
            let identity = (top % 0x1_0000) as u32;
            sets::remove(&mut self.pending, identity);
            let k = (identity / 64) as usize;
            self.summary = refreshed(self.summary, &self.pending, &self.enabled, k);
        }
    }
}

impl Bank for File {
    ghost use Rattle.std.specs.Prelude.{◌+◌, ◌/◌};
    ghost use Rattle.aia_word.specs.Sets.{is_in};

    ghost pending = { λ f. is_in f.pending };

    ghost enabled = { λ f. is_in f.enabled };

    ghost width = { λ f. (f.n + 1) / 64 };

    fn words(&self) -> usize
        ensures { result ≡ (self.now.n + 1) / 64 }
    {
        self.pending.len()
    }

    fn swap_pending(&mut self, k: usize, v: u64) -> u64
        requires word { k < (self.old.n + 1) / 64 }
        requires no_zero { k ≡ 0 → has_bit v 0 ≡ false }
        ensures stood { (b : ℕ) → b < 64
            → has_bit result b ≡ is_in self.old.pending (64 * k + b) }
        ensures after { (i : ℕ) → is_in self.new.pending i
            ≡ (if nat_eq (i / 64) k then has_bit v (i % 64) else is_in self.old.pending i) }
        ensures others { (i : ℕ) → is_in self.new.enabled i ≡ is_in self.old.enabled i }
        ensures width { (self.new.n + 1) / 64 ≡ (self.old.n + 1) / 64 }
        ensures state { self.new ≡ record self.old { pending = slice_set self.old.pending k v } }
        ensures word_stood { result ≡ slice_index self.old.pending k }
        ensures no_zero_stood { k ≡ 0 → has_bit result 0 ≡ false }
        ensures within { k < length self.old.pending }
    {
        let stood = swap_word(&mut self.pending, k, v);
        self.summary = refreshed(self.summary, &self.pending, &self.enabled, k);
        stood
    }

    fn or_pending(&mut self, k: usize, v: u64)
        requires word { k < (self.old.n + 1) / 64 }
        requires no_zero { k ≡ 0 → has_bit v 0 ≡ false }
        ensures after { (i : ℕ) → is_in self.new.pending i
            ≡ (if nat_eq (i / 64) k then (is_in self.old.pending i || has_bit v (i % 64))
            else is_in self.old.pending i) }
        ensures others { (i : ℕ) → is_in self.new.enabled i ≡ is_in self.old.enabled i }
        ensures width { (self.new.n + 1) / 64 ≡ (self.old.n + 1) / 64 }
        ensures state { self.new ≡ record self.old {
          pending = slice_set self.old.pending k (bit_or (slice_index self.old.pending k) v);
        } }
        ensures within { k < length self.old.pending }
    {
        join_word(&mut self.pending, k, v);
        self.summary = refreshed(self.summary, &self.pending, &self.enabled, k);
    }

    fn swap_enable(&mut self, k: usize, v: u64) -> u64
        requires word { k < (self.old.n + 1) / 64 }
        requires no_zero { k ≡ 0 → has_bit v 0 ≡ false }
        ensures stood { (b : ℕ) → b < 64
            → has_bit result b ≡ is_in self.old.enabled (64 * k + b) }
        ensures after { (i : ℕ) → is_in self.new.enabled i
            ≡ (if nat_eq (i / 64) k then has_bit v (i % 64) else is_in self.old.enabled i) }
        ensures others { (i : ℕ) → is_in self.new.pending i ≡ is_in self.old.pending i }
        ensures width { (self.new.n + 1) / 64 ≡ (self.old.n + 1) / 64 }
        ensures state { self.new ≡ record self.old { enabled = slice_set self.old.enabled k v } }
        ensures word_stood { result ≡ slice_index self.old.enabled k }
        ensures no_zero_stood { k ≡ 0 → has_bit result 0 ≡ false }
        ensures within { k < length self.old.enabled }
    {
        let stood = swap_word(&mut self.enabled, k, v);
        self.summary = refreshed(self.summary, &self.pending, &self.enabled, k);
        stood
    }
}

/// Makes `v` word `k` of a set, and gives what stood there.
fn swap_word(words: &mut [u64], k: usize, v: u64) -> u64
    requires { k < length words.old }
    ensures stood { result ≡ slice_index words.old k }
    ensures after { words.new ≡ slice_set words.old k v }
{
    let stood = words[k];
    words[k] = v;
    stood
}

/// Puts the identities into a set that `v` shows as word `k`; every other identity stays.
#[tactic(auto, using(crate::proofs::BankLemmas::members_joined, crate::proofs::BankLemmas::no_zero_joined))]
fn join_word(words: &mut [u64], k: usize, v: u64)
    requires { k < length words.old }
    ensures after { words.new ≡ slice_set words.old k (bit_or (slice_index words.old k) v) }
    ensures members { (i : ℕ) → is_in words.new i
        ≡ (if nat_eq (i / 64) k then (is_in words.old i || has_bit v (i % 64))
        else is_in words.old i) }
    ensures no_zero { (k ≡ 0 → has_bit v 0 ≡ false) → is_in words.old 0 ≡ false
        → is_in words.new 0 ≡ false }
    ensures length { length words.new ≡ length words.old }
{
    words[k] |= v;
}

/// Gives what an access makes of a register that keeps a number modulo `modulus`.
fn access_number(was: u64, modulus: u64, op: Op) -> u64
    requires { 0 < modulus }
    ensures { result ≡ number_after (λ v. v % modulus) op was }
{
    if op.is_writing() {
        op.written(was) % modulus
    } else {
        was
    }
}

/// Does the instruction on register `k` of a set; registers past the last word read 0, and a write
/// to them is ignored.
fn access_set(words: &mut [u64], k: u32, op: Op)
    requires even { k % 2 ≡ 0 }
    requires some { 0 < length words.old }
    requires no_zero { is_in words.old 0 ≡ false }
    ensures { (i : ℕ) → is_in words.new i
        ≡ settle (set_said (64 * length words.old - 1) k op i) (is_in words.old i) }
{
    let at = (k / 2) as usize;
    if at < words.len() {
        let value = op.written(words[at]);
        sets::put_word(words, at, without_zero(at, value));
    }
}

/// Gives `value` as word `at` of a set, but for identity 0, which no file has.
fn without_zero(at: usize, value: u64) -> u64
    ensures { (bit : ℕ) → bit < 64
        → has_bit result bit ≡ (not (nat_eq (64 * at + bit) 0) && has_bit value bit) }
{
    if at == 0 { value & !1 } else { value }
}
