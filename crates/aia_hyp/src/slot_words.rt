ghost use Rattle.std.specs.Prelude.{◌≡◌, ◌+◌, ◌*◌, ◌/◌, ◌<◌};
ghost use Rattle.aia_word.specs.Sets.{word_of};
ghost use Rattle.aia_regs.specs.declared.limits.TheConstants.{VCPUS, FILE_WORDS};
ghost use Rattle.aia_file.specs.InterruptFile.{is_live};
ghost use Rattle.aia_fabric_values.specs.SlotAccess.{file_of_slot, DoneInSlot};
ghost use Rattle.aia_model.specs.declared.part.Part.TheVariants as parts;
ghost use Rattle.aia_hyp_values.specs.Loads.{sets_loaded};

use aia_fabric::Fabric;
use aia_model::Part;
use aia_regs::{FileReg, Op};

/// Gives the part of an image that has word `w` of both sets of a slot, a word that files have.
///
/// Profile.
pub(crate) fn save_word(fabric: &Fabric, slot: u32, w: u32) -> Part
    requires slot { slot < VCPUS }
    requires word { w < (fabric.now.n + 1) / 64 }
    ensures { result ≡ parts.Word w (word_of (file_of_slot fabric.now slot 0).pending (64 * w) 64)
        (word_of (file_of_slot fabric.now slot 0).enabled (64 * w) 64) }
{
    fabric.recall();
    let (pending, enable) = fabric.look(slot, w as usize);
    Part::Word {
        w: u64::from(w),
        pending,
        enable,
    }
}

/// Makes the ones of `pending` pending in word `w` of a slot, and writes `enable` there as the
/// enables, of the identities that files have; all else stays, what was pending there too.
///
/// Profile.
pub(crate) fn load_word(fabric: &mut Fabric, slot: u32, w: u32, pending: u64, enable: u64)
    requires slot { slot < VCPUS }
    requires word { w < FILE_WORDS }
    ensures { DoneInSlot fabric.old fabric.new slot 0 (sets_loaded w pending enable) }
{
    fabric.slot_reg(slot, FileReg::Pending(2 * w), Op::Set(pending));
    fabric.slot_reg(slot, FileReg::Enable(2 * w), Op::Write(enable));
}

/// Tells whether an identity of word `w` of a slot, a word that files have, is both pending and
/// enabled.
pub(crate) fn is_live(fabric: &Fabric, slot: u32, w: u32) -> bool
    requires slot { slot < VCPUS }
    requires word { w < (fabric.now.n + 1) / 64 }
    ensures { result ≡ is_live (file_of_slot fabric.now slot 0) w }
{
    fabric.recall();
    let (pending, enabled) = fabric.look(slot, w as usize);
    pending & enabled != 0
}
