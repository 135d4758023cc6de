//! Images: what the parts of one tell of a virtual hart, and what the load of them gives.

ghost use Rattle.std.specs.Prelude.{◌≡◌, ◌≢◌, ℕ, ◌^◌, ◌<◌, true, false, List, None};
ghost use Rattle.std.specs.List.{AllByRecursion};
ghost use Rattle.aia_regs.specs.declared.access.Csr.{Csr};
ghost use Rattle.aia_vcpu.specs.Vms.{Vcpu, vcpu_of};
ghost use Rattle.aia_model.specs.declared.answer.Answer.TheVariants as answers;
ghost use Rattle.aia_model.specs.declared.line.Line.TheVariants.{Save, LoadPart};
ghost use Rattle.aia_model.specs.declared.parsed.Parsed.TheVariants as parsed;
ghost use Rattle.aia_model.specs.declared.part.Part.{Part};
ghost use Rattle.aia_model.specs.Event.{History, has_machine, greatest_identity_of};
ghost use Rattle.aia_model.specs.Histories.{IsHistory};
ghost use Rattle.aia_model.specs.Forms.{part_fields};
ghost use Rattle.aia_model.specs.AnswerText.{part_text};
ghost use Rattle.aia_model.specs.Printing.{line_text, FitsField};
ghost use Rattle.aia_model.specs.Reading.{reading};
ghost use Rattle.aia_model.specs.Image.{GuestState, part_of, is_loadable, part_loaded};
ghost use Rattle.aia_model.specs.StateOf.{state_of};
ghost use Rattle.aia_model.specs.Vms.{has_vcpu};
ghost use Rattle.aia_vcpu.specs.declared.rest.Rest.TheVariants.{Parked};
ghost use Rattle.aia_vcpu.specs.Home.Home.{InMemory};
ghost use Rattle.aia_model.specs.HomeOf.{home};
ghost use Rattle.aia_model.specs.Refusal.{refusal};
ghost use Rattle.aia_model.specs.Answer.{answer, after, guest_csr_value};
ghost use Rattle.aia_laws.specs.Images.{IsState, SameImage, HasAllParts, part_count, fresh_state, loaded_all, load_text};

/// After every history whose events may happen, once a machine stands, the interrupts of a virtual
/// hart are such as they always are: its identities and majors are there, and its registers hold
/// their numbers.
pub fn every_virtual_hart_has_a_state()
    ensures { (h : History) (g : Vcpu) → IsHistory h → has_machine h ≡ true
        → IsState (state_of h g) }
{}

/// Two states of virtual harts have equal images exactly where they are equal; and where they are
/// equal, each CSR reads the same of them, whatever else happened.
pub fn images_tell_states()
    ensures tell { (x y : GuestState) → IsState x → IsState y → SameImage x y → x ≡ y }
    ensures told { (x y : GuestState) → x ≡ y → SameImage x y }
    ensures read { (h other : History) (g x : Vcpu) (csr : Csr) → state_of h g ≡ state_of other x
        → guest_csr_value h g csr ≡ guest_csr_value other x csr }
{}

/// Where all parts of the image of a state are loaded into a virtual hart to which nothing was said
/// before, in any order and however often, that state is what it has.
pub fn all_parts_give_the_state()
    ensures { (x : GuestState) (order : List ℕ) → IsState x → HasAllParts x order
        → loaded_all x order (fresh_state x.file.n) ≡ x }
{}

/// A line that loads a part, if it is not refused, does to its virtual hart what the part does, and
/// nothing to any other.
pub fn a_line_loads_its_part()
    ensures own { (h : History) (g : Vcpu) (part : Part)
        → refusal h (LoadPart g.vm g.vcpu part) ≡ None
        → state_of (after h (LoadPart g.vm g.vcpu part)) g ≡ part_loaded part (state_of h g) }
    ensures others { (h : History) (x g : Vcpu) (part : Part) → x ≢ g
        → refusal h (LoadPart x.vm x.vcpu part) ≡ None
        → state_of (after h (LoadPart x.vm x.vcpu part)) g ≡ state_of h g }
{}

/// Each part of the image of a state may be loaded where files have as many identities. So may each
/// part that a line saves, which answers it where it is not refused: a line that loads it is not
/// refused on any machine whose files have as many identities, for a virtual hart that is parked.
pub fn what_is_saved_may_be_loaded()
    ensures parts { (x : GuestState) (k : ℕ) → IsState x → k < part_count x
        → is_loadable x.file.n (part_of x k) ≡ true }
    ensures answered { (h : History) (vm vcpu k : ℕ) → refusal h (Save vm vcpu k) ≡ None
        → answer h (Save vm vcpu k) ≡ answers.Part (part_of (state_of h (vcpu_of vm vcpu)) k) }
    ensures saved { (h : History) (vm vcpu k : ℕ) → IsHistory h
        → refusal h (Save vm vcpu k) ≡ None
        → is_loadable (greatest_identity_of h) (part_of (state_of h (vcpu_of vm vcpu)) k) ≡ true }
    ensures accepted { (h other : History) (vm vcpu k : ℕ) (x : Vcpu) → IsHistory h
        → refusal h (Save vm vcpu k) ≡ None → has_machine other ≡ true
        → has_vcpu other x ≡ true → home other x ≡ InMemory Parked
        → greatest_identity_of other ≡ greatest_identity_of h
        → refusal other (LoadPart x.vm x.vcpu (part_of (state_of h (vcpu_of vm vcpu)) k)) ≡ None }
{}

/// What is printed for a part is what a line that loads it says of it: after `load` and the numbers
/// of a virtual hart it is the printing spelling of that line, and is read as it. This is so where
/// each number is in the range of its field, as it is of all that lines save.
pub fn what_is_printed_loads_it()
    ensures text { (x : Vcpu) (part : Part)
        → load_text x (part_text part) ≡ line_text (LoadPart x.vm x.vcpu part) }
    ensures reading { (x : Vcpu) (part : Part) → x.vm < 2 ^ 64 → x.vcpu < 2 ^ 64
        → AllByRecursion FitsField (part_fields part)
        → reading (load_text x (part_text part)) ≡ parsed.Line (LoadPart x.vm x.vcpu part) }
    ensures saved { (h : History) (vm vcpu k : ℕ) (x : Vcpu) → IsHistory h
        → refusal h (Save vm vcpu k) ≡ None → x.vm < 2 ^ 64 → x.vcpu < 2 ^ 64
        → reading (load_text x (part_text (part_of (state_of h (vcpu_of vm vcpu)) k)))
        ≡ parsed.Line (LoadPart x.vm x.vcpu (part_of (state_of h (vcpu_of vm vcpu)) k)) }
{}
