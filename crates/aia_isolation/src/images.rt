//! What an image carries from one virtual hart to another.

ghost use Rattle.std.specs.Prelude.{◌≡◌, ℕ, true, List, [], ◌∷◌, ◌++◌, reverse, None};
ghost use Rattle.aia_regs.specs.declared.access.Csr.{Csr};
ghost use Rattle.aia_regs.specs.declared.access.Op.{Op};
ghost use Rattle.aia_vcpu.specs.Vms.{Vcpu, vcpu_of};
ghost use Rattle.aia_model.specs.declared.answer.Answer.TheVariants as answers;
ghost use Rattle.aia_model.specs.declared.line.Line.TheVariants.{GuestCsr, Save};
ghost use Rattle.aia_model.specs.Event.{Event, History, has_machine, greatest_identity_of};
ghost use Rattle.aia_model.specs.Event.Event.{Accepted};
ghost use Rattle.aia_model.specs.Histories.{IsHistory};
ghost use Rattle.aia_model.specs.Image.{GuestState, part_of};
ghost use Rattle.aia_model.specs.StateOf.{state_of};
ghost use Rattle.aia_model.specs.Refusal.{refusal};
ghost use Rattle.aia_model.specs.Answer.{answer};
ghost use Rattle.aia_model.specs.Script.{history_of};
ghost use Rattle.aia_laws.specs.Claims.{HasCsr};
ghost use Rattle.aia_laws.specs.Images.{IsState, fresh_state};
ghost use Rattle.aia_isolation.specs.Said.{Said, said_by, said};
ghost use Rattle.aia_isolation.specs.Said.Said.{Made};
ghost use Rattle.aia_isolation.specs.Guest.{guest_by};
ghost use Rattle.aia_isolation.specs.Replies.{replies, replies_by, script_replies};
ghost use Rattle.aia_isolation.specs.Images.{said_after, HeardNothing, IsWholeImage};

/// What was said to a virtual hart is what was said up to some point and then what was said since.
/// Where no event says anything to it but that the machine was made, it is as at first; and where,
/// after that, each part of the image of a state was loaded into it, in whatever order and however
/// often, it has that state. What says nothing to it may happen in between, since it is not said.
pub fn a_virtual_hart_is_what_was_loaded_into_it()
    ensures later { (h : History) (since : List Event) (g : Vcpu)
        → said (since ++ h) g ≡ said_after h since g ++ said h g }
    ensures unheard { (h : History) (g : Vcpu) → IsHistory h → has_machine h ≡ true
        → HeardNothing h g → said h g ≡ Made (greatest_identity_of h) ∷ [] }
    ensures fresh { (n : ℕ) (h : History) (g : Vcpu) → said h g ≡ Made n ∷ []
        → state_of h g ≡ fresh_state n }
    ensures loaded { (image : GuestState) (h : History) (g : Vcpu) → IsState image
        → IsWholeImage image (said h g) → state_of h g ≡ image }
{}

/// The parts of one save are parts of one image: as long as nothing is said to the virtual hart,
/// each line that saves a part, if it is not refused, answers a part of the state that it had at
/// first. To save a part says nothing.
pub fn the_parts_of_one_save_are_of_one_image()
    ensures parts { (h : History) (since : List Event) (vm vcpu k : ℕ)
        → said_after h since (vcpu_of vm vcpu) ≡ []
        → refusal (since ++ h) (Save vm vcpu k) ≡ None
        → answer (since ++ h) (Save vm vcpu k)
        ≡ answers.Part (part_of (state_of h (vcpu_of vm vcpu)) k) }
    ensures silent { (h : History) (vm vcpu k : ℕ) (g : Vcpu)
        → said_by g h (Accepted (Save vm vcpu k)) ≡ None }
{}

/// An image carries a virtual hart on, to another one of the same machine or of another. Let
/// `first` be a history up to a save of g, and `second` one in which x is made with the machine,
/// then loaded with each part of the image of g, and then told more. So x has the state of one
/// virtual hart to which was said what was said to g, and then what was said to x after the loads;
/// what g was answered and then x is what that one answers; and the next instruction of x is
/// answered as that of any virtual hart to which all of that was said.
pub fn an_image_carries_a_virtual_hart_on()
    ensures state { (first second : History) (g x : Vcpu) (loaded since : List Said)
        → IsHistory first → has_machine first ≡ true → IsWholeImage (state_of first g) loaded
        → said second x ≡ since ++ loaded
        → state_of second x ≡ guest_by (since ++ said first g) }
    ensures answered { (first second : History) (g x : Vcpu) (loaded since : List Said)
        → IsHistory first → has_machine first ≡ true → IsWholeImage (state_of first g) loaded
        → said second x ≡ since ++ loaded
        → replies second x ++ replies first g ≡ replies_by (since ++ said first g) }
    ensures next { (first second third : History) (g x y : Vcpu) (loaded since : List Said)
        → IsHistory first → has_machine first ≡ true → IsWholeImage (state_of first g) loaded
        → said second x ≡ since ++ loaded → said third y ≡ since ++ said first g
        → (csr : Csr) (op : Op) → HasCsr second x csr → HasCsr third y csr
        → answer second (GuestCsr x.vm x.vcpu csr op)
        ≡ answer third (GuestCsr y.vm y.vcpu csr op) }
    ensures scripts { (script other : List ℕ) (g x : Vcpu) (loaded since : List Said)
        → has_machine (history_of script) ≡ true
        → IsWholeImage (state_of (history_of script) g) loaded
        → said (history_of other) x ≡ since ++ loaded
        → script_replies script g ++ script_replies other x
        ≡ reverse (replies_by (since ++ said (history_of script) g)) }
{}
