ghost use Rattle.std.specs.Prelude.{◌≡◌, option_map, IfSome, IsSome};
ghost use Rattle.std.specs.Borrow.{Bor};
ghost use Rattle.aia_regs.specs.FileRegisters.{IsUsable};
ghost use Rattle.aia_file.specs.InterruptFile.{register_value};
ghost use Rattle.aia_file.specs.FileState.{shown};
ghost use Rattle.aia_file.specs.Imsic.{IsThere, file_at};
ghost use Rattle.aia_vcpu.specs.declared.place.GuestPlace.{GuestPlace};
ghost use Rattle.aia_vcpu.specs.Home.{Way, Progress, left, led_to};
ghost use Rattle.aia_vcpu_places.specs.Places.{entry_word, second_word};
ghost use Rattle.aia_vcpu_places.specs.Holds.{meets};
ghost use Rattle.aia_fabric_values.specs.Changes.{PutsRegister, spot_of, with_entry_word};
ghost use Rattle.aia_move_values.specs.Move.{IsWho, place_at, spot_in, width};
ghost use Rattle.aia_move_values.specs.Accesses.{Executes, HasFile, WordFits, moved};
ghost use Rattle.aia_move_values.specs.Plan.{kept_hand};

use crate::direction::spot;
use crate::{Access, KeptNumbers, Who};
use aia_entry::{basic, mrif};
use aia_fabric::{At, Fabric};
use aia_pool::FileLease;
use aia_regs::address_map::{PAGE, guest_page, slot_address, supervisor_page};
use aia_regs::{FileReg, Op};
use std::marker::Model;

/// What a move carries from one access to the next.
#[derive(Clone, Copy, Debug, Default, PartialEq, Eq)]
pub struct Hand {
    /// The word of a set that is carried.
    pub word: u64,
    /// eidelivery.
    pub delivery: u64,
    /// eithreshold.
    pub threshold: u64,
    /// Whether a look saw an identity that is pending and enabled.
    pub seen: bool,
}

impl Model for Hand {
    ghost use Rattle.aia_vcpu_places.specs.Holds.{Hand};

    ghost Value = { Hand };

    ghost view = { λ h. record {
      word = h.word;
      delivery = h.delivery;
      threshold = h.threshold;
      seen = h.seen;
    } };

    ghost inverse = { λ h. record {
      word = h.word;
      delivery = h.delivery;
      threshold = h.threshold;
      seen = h.seen;
    } };
}

#[tactic(auto, using(aia_move_values::proofs::WhoLemmas::small_who, aia_move_values::proofs::WhoLemmas::small_file, aia_move_values::proofs::WhoLemmas::posts_if))]
impl Hand {
    /// Carries the numbers that were kept, and no word.
    pub fn of(kept: KeptNumbers) -> Hand
        ensures { result ≡ kept_hand kept }
    {
        Hand {
            word: 0,
            delivery: kept.delivery,
            threshold: kept.threshold,
            seen: false,
        }
    }

    /// Makes an access of the move of who is moved from its old place to its new one, both there: a
    /// guest file each, or `None`: its slot of memory. A number is taken or put at a guest file
    /// alone; a word is one of the files' words, and one that is put as word 0 has no identity 0.
    /// Before the fence of the entry all stores in flight of the VM land. It promises
    /// nothing where both places are the slot.
    #[inline(always)]
    pub fn make(
        &mut self,
        fabric: &mut Fabric,
        who: &Who,
        old: Option<&FileLease>,
        new: Option<&FileLease>,
        access: Access,
    )
        requires who { IsWho fabric.old who.now }
        requires old { IfSome old (λ lease. IsThere fabric.old.imsic (spot_of lease.now)) }
        requires new { IfSome new (λ lease. IsThere fabric.old.imsic (spot_of lease.now)) }
        requires file { HasFile access old new }
        requires word { WordFits access (width fabric.old) self.old.word }
        ensures { (way : Way) (at : Progress)
            → left way ≡ option_map (λ (lease : Bor GuestPlace). lease.now) old.entry
            → led_to way ≡ option_map (λ (lease : Bor GuestPlace). lease.now) new.entry
            → Executes access (moved who.now way at self.old) fabric.old fabric.new self.new }
    {
        fabric.recall();
        let slot = who.found.slot;
        match access {
            Access::TakeDelivery => self.delivery = take(fabric, old, FileReg::Delivery),
            Access::PutDelivery => put(fabric, new, FileReg::Delivery, self.delivery),
            Access::TakeThreshold => self.threshold = take(fabric, old, FileReg::Threshold),
            Access::PutThreshold => put(fabric, new, FileReg::Threshold, self.threshold),
            Access::WriteNotice => write_notice(fabric, who),
            Access::WriteEntry => write_entry(fabric, who, new),
            Access::Fence => fabric.fence(who.found),
            Access::Map => fabric.map(who.found, new),
            Access::GFence => fabric.gfence(who.found),
            Access::TakePending(k) => {
                self.word = fabric.swap_pending(place(old, slot), k as usize, 0);
            }
            Access::PutPending(k) => fabric.or_pending(place(new, slot), k as usize, self.word),
            Access::TakeEnables(k) => {
                self.word = fabric.swap_enable(place(old, slot), k as usize, 0);
            }
            Access::PutEnables(k) => {
                let _was = fabric.swap_enable(place(new, slot), k as usize, self.word);
            }
            Access::Look(k) => {
                let (pending, enabled) = fabric.look(slot, k as usize);
                self.seen = self.seen || meets(pending, enabled);
            }
            Access::Post => {
                if self.seen {
                    fabric.notice(slot);
                }
            }
        }
    }
}

/// Gives where the fabric has a place of the virtual hart of a slot.
fn place(file: Option<&FileLease>, slot: u32) -> At
    ensures { result
        ≡ place_at (option_map (λ (lease : Bor GuestPlace). lease.now) file.entry) slot }
{
    match file {
        Some(lease) => At::File(spot(lease)),
        None => At::Slot(slot),
    }
}

/// Takes a number of a guest file that is there: the register is 0 then.
fn take(fabric: &mut Fabric, file: Option<&FileLease>, reg: FileReg) -> u64
    requires usable { IsUsable reg }
    requires some { IsSome file }
    requires there { IfSome file (λ lease. IsThere fabric.old.imsic (spot_of lease.now)) }
    ensures value { result ≡ register_value (shown (file_at fabric.old.imsic
        (spot_in (option_map (λ (lease : Bor GuestPlace). lease.now) file.entry)))) reg }
    ensures puts { PutsRegister fabric.old fabric.new
        (spot_in (option_map (λ (lease : Bor GuestPlace). lease.now) file.entry)) reg 0 }
{
    let Some(lease) = file else { unreachable!() };
    fabric.reg(spot(lease), reg, Op::Write(0))
}

/// Puts a number in a guest file that is there.
fn put(fabric: &mut Fabric, file: Option<&FileLease>, reg: FileReg, value: u64)
    requires usable { IsUsable reg }
    requires some { IsSome file }
    requires there { IfSome file (λ lease. IsThere fabric.old.imsic (spot_of lease.now)) }
    ensures { PutsRegister fabric.old fabric.new
        (spot_in (option_map (λ (lease : Bor GuestPlace). lease.now) file.entry)) reg value }
{
    let Some(lease) = file else { unreachable!() };
    let _was = fabric.reg(spot(lease), reg, Op::Write(value));
}

/// Writes word 1 of the entry: where notices go.
///
/// AIA 1.0, IOMMU Support for MSIs to Virtual Machines, "MSI page tables".
#[tactic(auto, using(aia_move_values::proofs::WhoLemmas::small_who))]
fn write_notice(fabric: &mut Fabric, who: &Who)
    requires { IsWho fabric.old who.now }
    ensures { fabric.new ≡ with_entry_word fabric.old who.now.found.vm who.now.found.vcpu 1
        (second_word who.now.found.slot who.now.found.notice) }
{
    fabric.recall();
    let slot = who.found.slot;
    let page = supervisor_page(who.found.notice) / PAGE;
    fabric.put_word(who.found, 1, mrif(slot_address(slot), page, slot + 1).1);
}

/// Writes word 0 of the entry: it leads to a guest file that is there, `None`: to the slot.
///
/// AIA 1.0, IOMMU Support for MSIs to Virtual Machines, "MSI page tables".
#[tactic(auto, using(aia_move_values::proofs::WhoLemmas::small_who, aia_move_values::proofs::WhoLemmas::small_file))]
fn write_entry(fabric: &mut Fabric, who: &Who, to: Option<&FileLease>)
    requires who { IsWho fabric.old who.now }
    requires there { IfSome to (λ lease. IsThere fabric.old.imsic (spot_of lease.now)) }
    ensures { fabric.new ≡ with_entry_word fabric.old who.now.found.vm who.now.found.vcpu 0
        (entry_word who.now.found.slot
        (option_map (λ (lease : Bor GuestPlace). lease.now) to.entry)) }
{
    fabric.recall();
    let word = match to {
        Some(file) => basic(guest_page(file.hart(), file.file()) / PAGE),
        None => mrif(slot_address(who.found.slot), 0, 0).0,
    };
    fabric.put_word(who.found, 0, word);
}

/// Tells whether two words have a one in common.
fn meets(p: u64, e: u64) -> bool
    ensures { result ≡ meets p e }
{
    p & e != 0
}
