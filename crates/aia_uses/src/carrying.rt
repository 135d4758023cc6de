//! Images, from one virtual hart to another.

ghost use Rattle.std.specs.Prelude.{◌≡◌, ℕ, ◌<◌, true, List, [], ◌∷◌, ◌++◌, map, reverse, None};
ghost use Rattle.std.specs.List.{Contains};
ghost use Rattle.aia_regs.specs.declared.access.Csr.{Csr};
ghost use Rattle.aia_regs.specs.declared.access.Op.{Op};
ghost use Rattle.aia_vcpu.specs.Vms.{Vcpu, vcpu_of};
ghost use Rattle.aia_model.specs.declared.answer.Answer.TheVariants as answers;
ghost use Rattle.aia_model.specs.declared.line.Line.TheVariants.{GuestCsr, Save};
ghost use Rattle.aia_model.specs.Event.{Event, History, has_machine, greatest_identity_of};
ghost use Rattle.aia_model.specs.Event.Event.{Accepted};
ghost use Rattle.aia_model.specs.Histories.{IsHistory};
ghost use Rattle.aia_model.specs.HomeOf.{home};
ghost use Rattle.aia_model.specs.Vms.{has_vcpu};
ghost use Rattle.aia_model.specs.Image.{GuestState, part_of};
ghost use Rattle.aia_model.specs.GuestFile.{guest_file};
ghost use Rattle.aia_model.specs.StateOf.{state_of};
ghost use Rattle.aia_model.specs.Refusal.{refusal, serves};
ghost use Rattle.aia_model.specs.Answer.{answer};
ghost use Rattle.aia_model.specs.Script.{history_of};
ghost use Rattle.aia_laws.specs.Images.{IsState, part_count};
ghost use Rattle.aia_isolation.specs.Said.{Said, said_by, said};
ghost use Rattle.aia_isolation.specs.Said.Said.{Made, Loaded};
ghost use Rattle.aia_isolation.specs.Guest.{guest_by};
ghost use Rattle.aia_isolation.specs.Replies.{replies, replies_by, script_replies};
ghost use Rattle.aia_isolation.specs.Images.{said_after, HeardNothing};
ghost use Rattle.aia_uses.specs.Worked.{made};

use aia_isolation::images::{
    a_virtual_hart_is_what_was_loaded_into_it, an_image_carries_a_virtual_hart_on,
    the_parts_of_one_save_are_of_one_image,
};

/// What is said to a virtual hart, in turn: nothing but the machine, then each part of an image.
pub fn what_was_loaded()
    ensures later { (h : History) (since : List Event) (g : Vcpu)
        → said (since ++ h) g ≡ said_after h since g ++ said h g }
    ensures unheard { (h : History) (g : Vcpu) → IsHistory h → has_machine h ≡ true
        → HeardNothing h g → said h g ≡ Made (greatest_identity_of h) ∷ [] }
    ensures fresh { (n : ℕ) (h : History) (g : Vcpu) → said h g ≡ Made n ∷ []
        → ((guest_file h g).n ≡ n) × ((guest_file h g).threshold ≡ 0)
        × ((guest_file h g).delivery ≡ 0) }
    ensures loaded { (image : GuestState) (order : List ℕ) (h : History) (g : Vcpu)
        → IsState image → ((k : ℕ) → k < part_count image → Contains order k)
        → said h g ≡ map (λ k. Loaded (part_of image k)) order ++ Made image.file.n ∷ []
        → state_of h g ≡ image }
    ensures one { said made (vcpu_of 0 0) ≡ Made 63 ∷ [] }
{
    a_virtual_hart_is_what_was_loaded_into_it();
}

/// What the parts of one save are parts of.
pub fn what_one_save_gives()
    ensures parts { (h : History) (since : List Event) (g : Vcpu) (k : ℕ)
        → said_after h since g ≡ [] → refusal (since ++ h) (Save g.vm g.vcpu k) ≡ None
        → answer (since ++ h) (Save g.vm g.vcpu k) ≡ answers.Part (part_of (state_of h g) k) }
    ensures at_once { (h : History) (g : Vcpu) (k : ℕ)
        → refusal h (Save g.vm g.vcpu k) ≡ None
        → answer h (Save g.vm g.vcpu k) ≡ answers.Part (part_of (state_of h g) k) }
    ensures silent { (h : History) (x g : Vcpu) (k : ℕ)
        → said_by g h (Accepted (Save x.vm x.vcpu k)) ≡ None }
{
    the_parts_of_one_save_are_of_one_image();
}

/// What one is that goes on from the image of another.
pub fn what_goes_on()
    ensures state { (first second : History) (g x : Vcpu) (order : List ℕ) (since : List Said)
        → IsHistory first → has_machine first ≡ true
        → ((k : ℕ) → k < part_count (state_of first g) → Contains order k)
        → said second x ≡ since ++ (map (λ k. Loaded (part_of (state_of first g) k)) order
        ++ Made (guest_file first g).n ∷ [])
        → state_of second x ≡ guest_by (since ++ said first g) }
    ensures answered { (first second : History) (g x : Vcpu) (order : List ℕ) (since : List Said)
        → IsHistory first → has_machine first ≡ true
        → ((k : ℕ) → k < part_count (state_of first g) → Contains order k)
        → said second x ≡ since ++ (map (λ k. Loaded (part_of (state_of first g) k)) order
        ++ Made (guest_file first g).n ∷ [])
        → replies second x ++ replies first g ≡ replies_by (since ++ said first g) }
    ensures next { (first second third : History) (g x y : Vcpu) (order : List ℕ)
        (since : List Said) (csr : Csr) (op : Op) → IsHistory first → has_machine first ≡ true
        → ((k : ℕ) → k < part_count (state_of first g) → Contains order k)
        → said second x ≡ since ++ (map (λ k. Loaded (part_of (state_of first g) k)) order
        ++ Made (guest_file first g).n ∷ [])
        → said third y ≡ since ++ said first g
        → has_machine second ≡ true → has_vcpu second x ≡ true
        → serves (home second x) csr ≡ true → has_machine third ≡ true
        → has_vcpu third y ≡ true → serves (home third y) csr ≡ true
        → answer second (GuestCsr x.vm x.vcpu csr op)
        ≡ answer third (GuestCsr y.vm y.vcpu csr op) }
    ensures scripts { (script other : List ℕ) (g x : Vcpu) (order : List ℕ) (since : List Said)
        → has_machine (history_of script) ≡ true
        → ((k : ℕ) → k < part_count (state_of (history_of script) g) → Contains order k)
        → said (history_of other) x
        ≡ since ++ (map (λ k. Loaded (part_of (state_of (history_of script) g) k)) order
        ++ Made (guest_file (history_of script) g).n ∷ [])
        → script_replies script g ++ script_replies other x
        ≡ reverse (replies_by (since ++ said (history_of script) g)) }
{
    an_image_carries_a_virtual_hart_on();
}
