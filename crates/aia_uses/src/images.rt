//! Images of virtual harts.

ghost use Rattle.std.specs.Prelude.{◌≡◌, ◌≢◌, ℕ, ◌+◌, ◌/◌, ◌^◌, ◌<◌, ◌≤◌, true, false, [], ◌∷◌, None, codes};
ghost use Rattle.std.specs.Int.{is_in_range};
ghost use Rattle.std.specs.List.{AllByRecursion, join_with_byte};
ghost use Rattle.aia_regs.specs.declared.access.Csr.{Csr};
ghost use Rattle.aia_regs.specs.declared.access.Csr.TheVariants.{Topei};
ghost use Rattle.aia_file.specs.InterruptFile.{is_greatest_identity, empty_file};
ghost use Rattle.aia_major.specs.VsMajor.{is_major, fits_hviprio1, fits_hvictl, new_majors};
ghost use Rattle.aia_vcpu.specs.Vms.{Vcpu, vcpu_of};
ghost use Rattle.aia_model.specs.declared.answer.Answer.TheVariants as answers;
ghost use Rattle.aia_model.specs.declared.line.Line.TheVariants.{Save, LoadPart};
ghost use Rattle.aia_model.specs.declared.parsed.Parsed.TheVariants as parsed;
ghost use Rattle.aia_model.specs.declared.part.Part.{Part};
ghost use Rattle.aia_model.specs.declared.part.Part.TheVariants as parts;
ghost use Rattle.aia_vcpu.specs.declared.rest.Rest.TheVariants.{Parked};
ghost use Rattle.aia_vcpu.specs.Home.Home.{InMemory};
ghost use Rattle.aia_model.specs.Event.{History, has_machine, greatest_identity_of};
ghost use Rattle.aia_model.specs.Vms.{has_vcpu};
ghost use Rattle.aia_model.specs.HomeOf.{home};
ghost use Rattle.aia_model.specs.MajorOf.{majors_of};
ghost use Rattle.aia_model.specs.Histories.{IsHistory};
ghost use Rattle.aia_model.specs.Forms.{part_fields};
ghost use Rattle.aia_model.specs.AnswerText.{decimal_text, part_text};
ghost use Rattle.aia_model.specs.Printing.{line_text, FitsField};
ghost use Rattle.aia_model.specs.Reading.{reading};
ghost use Rattle.aia_model.specs.Image.{GuestState, part_of, parts_in, is_loadable, file_loaded, part_loaded};
ghost use Rattle.aia_model.specs.StateOf.{state_of};
ghost use Rattle.aia_model.specs.GuestFile.{guest_select, guest_file};
ghost use Rattle.aia_model.specs.Script.{history_of};
ghost use Rattle.aia_model.specs.Refusal.{refusal};
ghost use Rattle.aia_model.specs.Answer.{answer, after, guest_csr_value};
ghost use Rattle.aia_laws.specs.Images.{IsState};
ghost use Rattle.aia_uses.specs.Worked.{made, asked, parked_asked};

use crate::told::TOLD;
use aia_laws::images::{
    a_line_loads_its_part, all_parts_give_the_state, every_virtual_hart_has_a_state,
    images_tell_states, what_is_printed_loads_it, what_is_saved_may_be_loaded,
};

/// What the interrupts of a virtual hart always are, after every history.
pub fn what_a_state_always_is()
    ensures file { (h : History) (g : Vcpu) → IsHistory h → has_machine h ≡ true
        → (is_greatest_identity (state_of h g).file.n ≡ true)
        × ((state_of h g).file.threshold ≤ (state_of h g).file.n)
        × ((state_of h g).file.delivery < 2) × ((state_of h g).select < 0x1000) }
    ensures sets { (h : History) (g : Vcpu) (i : ℕ) → IsHistory h → has_machine h ≡ true
        → ((state_of h g).file.pending i ≡ true → is_in_range 1 (state_of h g).file.n i ≡ true)
        × ((state_of h g).file.enabled i ≡ true → is_in_range 1 (state_of h g).file.n i ≡ true) }
    ensures majors { (h : History) (g : Vcpu) (j : ℕ) → IsHistory h → has_machine h ≡ true
        → ((state_of h g).majors.injected j ≡ true → is_major j ≡ true)
        × ((state_of h g).majors.enabled j ≡ true → is_major j ≡ true)
        × (fits_hviprio1 (state_of h g).majors.hviprio1 ≡ true)
        × (fits_hvictl (state_of h g).majors.hvictl ≡ true) }
    ensures one { is_greatest_identity (state_of (history_of TOLD.now) (vcpu_of 0 0)).file.n
        ≡ true }
{
    every_virtual_hart_has_a_state();
}

/// States with equal images are equal, and equal states have equal images and read alike.
pub fn what_images_tell()
    ensures tell { (x y : GuestState) → IsState x → IsState y
        → ((k : ℕ) → k < parts_in ((x.file.n + 1) / 64) → part_of x k ≡ part_of y k) → x ≡ y }
    ensures told { (x y : GuestState) (k : ℕ) → x ≡ y → k < parts_in ((x.file.n + 1) / 64)
        → part_of x k ≡ part_of y k }
    ensures read { (h other : History) (g x : Vcpu) (csr : Csr)
        → guest_select h g ≡ guest_select other x → guest_file h g ≡ guest_file other x
        → majors_of h g ≡ majors_of other x
        → guest_csr_value h g csr ≡ guest_csr_value other x csr }
{
    images_tell_states();
}

/// One state, before a move and after it.
pub fn what_one_image_tells()
    ensures tell { state_of (history_of TOLD.now) (vcpu_of 0 0)
        ≡ state_of (history_of TOLD.now) (vcpu_of 0 0) }
    ensures told { part_of (state_of asked (vcpu_of 0 0)) 3
        ≡ part_of (state_of parked_asked (vcpu_of 0 0)) 3 }
    ensures read { guest_csr_value asked (vcpu_of 0 0) Topei
        ≡ guest_csr_value parked_asked (vcpu_of 0 0) Topei }
    ensures all { (part_loaded (part_of (state_of (history_of TOLD.now) (vcpu_of 0 0)) 3)
        (part_loaded (part_of (state_of (history_of TOLD.now) (vcpu_of 0 0)) 2)
        (part_loaded (part_of (state_of (history_of TOLD.now) (vcpu_of 0 0)) 1)
        (part_loaded (part_of (state_of (history_of TOLD.now) (vcpu_of 0 0)) 0)
        (record {
          select = 0;
          file = empty_file (state_of (history_of TOLD.now) (vcpu_of 0 0)).file.n;
          majors = new_majors;
        }))))).file.pending 1 ≡ true }
{
    every_virtual_hart_has_a_state();
    images_tell_states();
    all_parts_give_the_state();
}

/// All four parts of a state with the identities 1 to 63, loaded in this order, give it.
pub fn what_all_parts_give()
    ensures { (x : GuestState) → is_greatest_identity x.file.n ≡ true
        → x.select < 0x1000
        → ((i : ℕ) → x.file.pending i ≡ true → is_in_range 1 x.file.n i ≡ true)
        → ((i : ℕ) → x.file.enabled i ≡ true → is_in_range 1 x.file.n i ≡ true)
        → x.file.threshold ≤ x.file.n → x.file.delivery < 2
        → ((j : ℕ) → x.majors.injected j ≡ true → is_major j ≡ true)
        → ((j : ℕ) → x.majors.enabled j ≡ true → is_major j ≡ true)
        → fits_hviprio1 x.majors.hviprio1 ≡ true → fits_hvictl x.majors.hvictl ≡ true
        → x.file.n ≡ 63
        → part_loaded (part_of x 3) (part_loaded (part_of x 2) (part_loaded (part_of x 1)
        (part_loaded (part_of x 0)
        (record { select = 0; file = empty_file x.file.n; majors = new_majors })))) ≡ x }
{
    all_parts_give_the_state();
}

/// What a line makes of the virtual hart into which it loads a part, and of any other.
pub fn what_a_line_loads()
    ensures own { (h : History) (g : Vcpu) (part : Part)
        → refusal h (LoadPart g.vm g.vcpu part) ≡ None
        → guest_file (after h (LoadPart g.vm g.vcpu part)) g ≡ file_loaded part (guest_file h g) }
    ensures others { (h : History) (x g : Vcpu) (part : Part) → x ≢ g
        → refusal h (LoadPart x.vm x.vcpu part) ≡ None
        → guest_file (after h (LoadPart x.vm x.vcpu part)) g ≡ guest_file h g }
{
    a_line_loads_its_part();
}

/// One part of an image is loaded, only into its virtual hart.
pub fn one_part_is_loaded()
    ensures own { (guest_file (after made (LoadPart 0 1 (parts.Word 0 2 2)))
        (vcpu_of 0 1)).pending 1
        ≡ true }
    ensures others { (guest_file (after made (LoadPart 0 1 (parts.Word 0 2 2)))
        (vcpu_of 0 0)).pending 1 ≡ false }
{
    a_line_loads_its_part();
}

/// What is saved of a virtual hart may be loaded.
pub fn what_is_saved()
    ensures parts { (x : GuestState) (k : ℕ) → IsState x → k < parts_in ((x.file.n + 1) / 64)
        → is_loadable x.file.n (part_of x k) ≡ true }
    ensures answered { (h : History) (g : Vcpu) (k : ℕ) → refusal h (Save g.vm g.vcpu k) ≡ None
        → answer h (Save g.vm g.vcpu k) ≡ answers.Part (part_of (state_of h g) k) }
    ensures saved { (h : History) (g : Vcpu) (k : ℕ) → IsHistory h
        → refusal h (Save g.vm g.vcpu k) ≡ None
        → is_loadable (greatest_identity_of h) (part_of (state_of h g) k) ≡ true }
    ensures accepted { (h other : History) (g x : Vcpu) (k : ℕ) → IsHistory h
        → refusal h (Save g.vm g.vcpu k) ≡ None → has_machine other ≡ true
        → has_vcpu other x ≡ true → home other x ≡ InMemory Parked
        → greatest_identity_of other ≡ greatest_identity_of h
        → refusal other (LoadPart x.vm x.vcpu (part_of (state_of h g) k)) ≡ None }
{
    what_is_saved_may_be_loaded();
}

/// The last part that the script [`TOLD`] saves.
pub fn what_one_line_saves()
    ensures parts { is_loadable 63 (part_of (state_of (history_of TOLD.now) (vcpu_of 0 0)) 3)
        ≡ true }
    ensures answered { answer (history_of TOLD.now) (Save 0 0 3)
        ≡ answers.Part (parts.Word 0 2 2) }
    ensures saved { is_loadable 63 (parts.Word 0 2 2) ≡ true }
    ensures accepted { refusal made (LoadPart 0 1 (parts.Word 0 2 2)) ≡ None }
{
    every_virtual_hart_has_a_state();
    what_is_saved_may_be_loaded();
}

/// What is printed of a part is the line that loads it.
pub fn what_is_printed_is_a_line()
    ensures text { (x : Vcpu) (part : Part)
        → join_with_byte 32
        (codes "load" ∷ decimal_text x.vm ∷ decimal_text x.vcpu ∷ part_text part ∷ [])
        ≡ line_text (LoadPart x.vm x.vcpu part) }
    ensures reading { (x : Vcpu) (part : Part) → x.vm < 2 ^ 64 → x.vcpu < 2 ^ 64
        → AllByRecursion FitsField (part_fields part)
        → reading (join_with_byte 32
        (codes "load" ∷ decimal_text x.vm ∷ decimal_text x.vcpu ∷ part_text part ∷ []))
        ≡ parsed.Line (LoadPart x.vm x.vcpu part) }
    ensures saved { (h : History) (vm vcpu k : ℕ) (x : Vcpu) → IsHistory h
        → refusal h (Save vm vcpu k) ≡ None → x.vm < 2 ^ 64 → x.vcpu < 2 ^ 64
        → reading (join_with_byte 32 (codes "load" ∷ decimal_text x.vm ∷ decimal_text x.vcpu
        ∷ part_text (part_of (state_of h (vcpu_of vm vcpu)) k) ∷ []))
        ≡ parsed.Line (LoadPart x.vm x.vcpu (part_of (state_of h (vcpu_of vm vcpu)) k)) }
    ensures one_read { reading (line_text (LoadPart 0 1 (parts.Word 0 2 2)))
        ≡ parsed.Line (LoadPart 0 1 (parts.Word 0 2 2)) }
    ensures one_saved { reading (line_text (LoadPart 0 1
        (part_of (state_of (history_of TOLD.now) (vcpu_of 0 0)) 3)))
        ≡ parsed.Line (LoadPart 0 1 (part_of (state_of (history_of TOLD.now) (vcpu_of 0 0)) 3)) }
{
    what_is_printed_loads_it();
}
