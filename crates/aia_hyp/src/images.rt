//! Images of virtual harts that are parked: their parts are saved, and loaded.

ghost use Rattle.std.specs.Prelude.{◌≡◌, ◌+◌, ◌-◌, ◌*◌, ◌/◌, ◌^◌, ◌<◌, ◌≤◌, true, length, slice_index_or, slice_set};
ghost use Rattle.aia_regs.specs.declared.limits.TheConstants.{VCPUS};
ghost use Rattle.aia_regs.specs.declared.access.Op.TheVariants as ops;
ghost use Rattle.aia_regs.specs.FileRegisters.{select_written};
ghost use Rattle.aia_major.specs.VsMajor.{is_hvictl};
ghost use Rattle.aia_vcpu.specs.Vms.{vcpu_of};
ghost use Rattle.aia_fabric_values.specs.Whole.{IsWhole};
ghost use Rattle.aia_model.specs.declared.line.Line.TheVariants.{Save, LoadPart};
ghost use Rattle.aia_model.specs.declared.answer.Answer.TheVariants as kinds;
ghost use Rattle.aia_model.specs.declared.answer.Answer.TheVariants.{Okay};
ghost use Rattle.aia_model.specs.declared.part.Part.TheVariants as parts;
ghost use Rattle.aia_model.specs.Image.{part_of, is_loadable, majors_loaded};
ghost use Rattle.aia_hyp_values.specs.Core.{no_record, record_of, parked_at, MajorsDone};
ghost use Rattle.aia_hyp_values.specs.Images.{state_in};
ghost use Rattle.aia_fabric_values.specs.Found.{IsFound};
ghost use Rattle.aia_hyp_values.specs.Stands.{CoreTakes, answer_by};

use crate::hypervisor_core::{Core, Records, select_after};
use crate::loadable::{IMAGE_VERSION, is_loadable};
use crate::slot_words::{is_live, load_word, save_word};
use aia_fabric::Found;
use aia_hyp_values::Stay;
use aia_model::{Part, Refusal};
use aia_move::KeptNumbers;
use aia_regs::Op;
use aia_vcpu::Rest;

/// How many parts an image has beside the words of the sets.
const FIRST_WORD: u64 = 3;

impl Core {
    /// Gives part `k` of the image of a virtual hart that is parked: 0 is of its file's numbers and
    /// its select number, 1 of its majors, 2 of their registers, and from 3 on each is of a word of
    /// both sets. `Err` is `Range` where the virtual hart isn't there, or its image has no such
    /// part; `Busy` where it is being moved, `Home` where it is resident, `Entered` where it runs
    /// from memory. Profile.
    pub fn save(&self, vm: u64, vcpu: u64, k: u64) -> Result<Part, Refusal>
        ensures { CoreTakes self.now self.now (Save vm vcpu k) (answer_by kinds.Part result) }
    {
        let Some(found) = self.fabric.find(vm, vcpu) else {
            return Err(Refusal::Range);
        };
        if k >= u64::from(self.fabric.words()) + FIRST_WORD {
            return Err(Refusal::Range);
        }
        let kept = self.parked(found.slot)?;
        Ok(self.part(found.slot, kept, k as u32))
    }

    /// Tells the numbers that are kept of the virtual hart of a slot, where it is parked. `Err` is
    /// the word that refuses it where it isn't.
    fn parked(&self, slot: u32) -> Result<KeptNumbers, Refusal>
        requires { slot < length self.now.vcpus }
        ensures { result ≡ parked_at (slice_index_or self.now.vcpus slot no_record).stay }
    {
        self.vcpus[slot as usize].stay.parked()
    }

    /// Gives part `k` of the image of the virtual hart of a slot, given the numbers that are kept
    /// of it.
    fn part(&self, slot: u32, kept: KeptNumbers, k: u32) -> Part
        requires slot { slot < VCPUS }
        requires there { slot < length self.now.vcpus }
        requires small { kept.threshold < 2 ^ 32 }
        requires part { k < (self.now.world.n + 1) / 64 + 3 }
        ensures { result ≡ part_of (state_in self.now slot kept) k }
    {
        let record = &self.vcpus[slot as usize];
        match k {
            0 => Part::Image {
                version: IMAGE_VERSION,
                n: 64 * self.fabric.words() - 1,
                delivery: kept.delivery == 1,
                threshold: kept.threshold as u32,
                select: record.select,
            },
            1 => Part::Majors {
                injected: record.majors.injected(),
                enabled: record.majors.sie(),
            },
            2 => Part::Prio {
                hviprio: record.majors.hviprio(),
                hvictl: record.majors.hvictl(),
            },
            k => save_word(&self.fabric, slot, k - FIRST_WORD as u32),
        }
    }

    /// Loads a part of an image into a virtual hart that is parked: its file's numbers and select
    /// number, its majors, or their registers are written; or the ones of a word of its pending set
    /// are made pending, that word of its enables is written, and its notice is sent where an
    /// identity of it is both pending and enabled then. `Err` is `Range` where the virtual hart
    /// isn't there, or no image of such a file has the part; `Busy` where it is being moved, `Home`
    /// where it is resident, `Entered` where it runs from memory; nothing is changed then. Profile.
    pub fn load_part(&mut self, vm: u64, vcpu: u64, part: &Part) -> Result<(), Refusal>
        ensures { CoreTakes self.old self.new (LoadPart vm vcpu part.now)
            (answer_by (λ _. Okay) result) }
    {
        let Some(found) = self.fabric.find(vm, vcpu) else {
            return Err(Refusal::Range);
        };
        if !is_loadable(part, self.fabric.words()) {
            return Err(Refusal::Range);
        }
        let kept = self.parked(found.slot)?;
        self.load_into(found, kept, *part);
        Ok(())
    }

    /// Loads a part that may be loaded into a virtual hart that is parked, given the numbers that
    /// are kept of it.
    fn load_into(&mut self, found: Found, kept: KeptNumbers, part: Part)
        requires found { IsFound self.old.world found }
        requires whole { IsWhole self.old.world }
        requires parked { (record_of self.old (vcpu_of found.vm found.vcpu)).stay
            ≡ Stay.InMemory Rest.Parked kept }
        requires loadable { is_loadable self.old.world.n part ≡ true }
        ensures { CoreTakes self.old self.new (LoadPart found.vm found.vcpu part) Okay }
    {
        match part {
            Part::Image {
                delivery,
                threshold,
                select,
                ..
            } => {
                let kept = KeptNumbers {
                    delivery: u64::from(delivery),
                    threshold: u64::from(threshold),
                };
                load_numbers_in(&mut self.vcpus, found.slot, kept, select);
            }
            Part::Majors { injected, enabled } => {
                load_majors_in(&mut self.vcpus, found.slot, injected, enabled);
            }
            Part::Prio { hviprio, hvictl } => {
                load_registers_in(&mut self.vcpus, found.slot, hviprio, hvictl);
            }
            Part::Word { w, pending, enable } => {
                load_word(&mut self.fabric, found.slot, w as u32, pending, enable);
                if is_live(&self.fabric, found.slot, w as u32) {
                    self.fabric.notice(found.slot);
                }
            }
        }
    }
}

/// Writes the numbers of the interrupt file of the virtual hart of a slot that is parked, and its
/// select number.
fn load_numbers_in(vcpus: &mut Records, slot: u32, kept: KeptNumbers, select: u64)
    requires { slot < length vcpus.old.items }
    ensures after { vcpus.new.items ≡ slice_set vcpus.old.items slot
        (record (slice_index_or vcpus.old.items slot no_record) {
          stay = Stay.InMemory Rest.Parked kept;
          select = select_written (ops.Write select)
              (slice_index_or vcpus.old.items slot no_record).select;
        }) }
{
    let record = &mut vcpus[slot as usize];
    record.select = select_after(Op::Write(select), record.select);
    record.stay = Stay::InMemory(Rest::Parked, kept);
}

/// Writes `hvip` and `sie` of the virtual hart of a slot.
fn load_majors_in(vcpus: &mut Records, slot: u32, injected: u64, enabled: u64)
    requires { slot < length vcpus.old.items }
    ensures done { MajorsDone vcpus.old.items vcpus.new.items slot
        (majors_loaded (parts.Majors injected enabled)) }
{
    let mut majors = vcpus[slot as usize].majors;
    majors.set_hvip(injected);
    majors.access_sie(Op::Write(enabled));
    vcpus[slot as usize].majors = majors;
}

/// Writes `hviprio1` and `hvictl` of the virtual hart of a slot.
fn load_registers_in(vcpus: &mut Records, slot: u32, hviprio: u64, hvictl: u64)
    requires slot { slot < length vcpus.old.items }
    requires legal { is_hvictl hvictl ≡ true }
    ensures done { MajorsDone vcpus.old.items vcpus.new.items slot
        (majors_loaded (parts.Prio hviprio hvictl)) }
{
    let mut majors = vcpus[slot as usize].majors;
    majors.set_hviprio(hviprio);
    // The number is legal, so this never fails.
    let _ = majors.set_hvictl(hvictl);
    vcpus[slot as usize].majors = majors;
}
