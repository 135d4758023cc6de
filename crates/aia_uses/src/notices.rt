//! Notices.

ghost use Rattle.std.specs.Prelude.{◌≡◌, ℕ, ◌%◌, ◌&&◌, true, Some};
ghost use Rattle.aia_regs.specs.declared.address_map.TheConstants.{PAGE};
ghost use Rattle.aia_regs.specs.Request.{requested};
ghost use Rattle.aia_vcpu.specs.Vms.{Vcpu, vcpu_of};
ghost use Rattle.aia_model.specs.declared.line.Line.TheVariants as lines;
ghost use Rattle.aia_model.specs.declared.msi.Msi.{Msi};
ghost use Rattle.aia_model.specs.declared.part.Part.{Part};
ghost use Rattle.aia_model.specs.Event.{History, greatest_identity_of, file_words};
ghost use Rattle.aia_model.specs.Event.Event.{Accepted, Began, Stepped, Delivered, Landed, Relayed};
ghost use Rattle.aia_model.specs.Move.{WantedMove};
ghost use Rattle.aia_model.specs.Flight.{Sending, flying};
ghost use Rattle.aia_model.specs.Passes.{nth_pass};
ghost use Rattle.aia_model.specs.HomeOf.{home};
ghost use Rattle.aia_model.specs.Image.{file_loaded};
ghost use Rattle.aia_model.specs.Notice.{noticed, ends_leave, a_look_saw};
ghost use Rattle.aia_model.specs.GuestFile.{named_by, sent_to, guest_file};
ghost use Rattle.aia_laws.specs.Told.{IsCause};
ghost use Rattle.aia_uses.specs.Worked.{parked};

use aia_laws::notices::a_notice_has_a_cause;

/// What each event that sends a notice shows of its cause.
pub fn what_a_notice_tells()
    ensures msi { (h : History) (vm addr value : ℕ) (g : Vcpu)
        → noticed h (Accepted (lines.Msi vm addr value)) ≡ Some g
        → (i : ℕ) × (named_by h vm addr ≡ g)
        × (requested (greatest_identity_of h) (addr % PAGE) value ≡ Some i)
        × ((guest_file h g).enabled i ≡ true) }
    ensures ipi { (h : History) (vm vcpu to value : ℕ) (g : Vcpu)
        → noticed h (Accepted (lines.Ipi vm vcpu to value)) ≡ Some g
        → (i : ℕ) × (vcpu_of vm to ≡ g) × (requested (greatest_identity_of h) 0 value ≡ Some i)
        × ((guest_file h g).enabled i ≡ true) }
    ensures exit { (h : History) (vm vcpu : ℕ) (g : Vcpu)
        → noticed h (Accepted (lines.Exit vm vcpu)) ≡ Some g
        → (i : ℕ) × (vcpu_of vm vcpu ≡ g)
        × (((guest_file h g).pending i && (guest_file h g).enabled i) ≡ true) }
    ensures load { (h : History) (vm vcpu : ℕ) (part : Part) (g : Vcpu)
        → noticed h (Accepted (lines.LoadPart vm vcpu part)) ≡ Some g
        → (i : ℕ) × (vcpu_of vm vcpu ≡ g)
        × ((file_loaded part (guest_file h g)).pending i ≡ true)
        × ((file_loaded part (guest_file h g)).enabled i ≡ true) }
    ensures stepped { (h : History) (x g : Vcpu) → noticed h (Stepped x) ≡ Some g
        → (x ≡ g) × (ends_leave (file_words h) (home h g) ≡ true) × (a_look_saw h g ≡ true) }
    ensures landed { (h : History) (vm k : ℕ) (g : Vcpu) → noticed h (Landed vm k) ≡ Some g
        → (s : Sending) × (i : ℕ) × (flying h vm k ≡ Some s) × (sent_to vm s ≡ g)
        × (requested (greatest_identity_of h) (s.addr % PAGE) s.value ≡ Some i)
        × ((guest_file h g).enabled i ≡ true) }
    ensures relayed { (h : History) (p : ℕ) (g : Vcpu) → noticed h (Relayed p) ≡ Some g
        → (i : ℕ) × ((nth_pass h p).to ≡ g)
        × (requested (greatest_identity_of h) 0 (nth_pass h p).identity ≡ Some i)
        × ((guest_file h g).enabled i ≡ true) }
    ensures began { (h : History) (move : WantedMove) (g : Vcpu)
        → ¬ (noticed h (Began move) ≡ Some g) }
    ensures delivered { (h : History) (msi : Msi) (g : Vcpu)
        → ¬ (noticed h (Delivered msi) ≡ Some g) }
    ensures entered { (h : History) (vm vcpu : ℕ) (g : Vcpu)
        → ¬ (noticed h (Accepted (lines.Enter vm vcpu)) ≡ Some g) }
{
    a_notice_has_a_cause();
}

/// What is no cause of a notice. This stands by itself, on the definitions.
pub fn what_is_no_cause()
    ensures began { (h : History) (move : WantedMove) (g : Vcpu) → ¬ IsCause h (Began move) g }
    ensures delivered { (h : History) (msi : Msi) (g : Vcpu) → ¬ IsCause h (Delivered msi) g }
    ensures entered { (h : History) (vm vcpu : ℕ) (g : Vcpu)
        → ¬ IsCause h (Accepted (lines.Enter vm vcpu)) g }
{}

/// A notice of a store for one that is parked tells that what it asks for is enabled.
pub fn one_notice_and_its_cause()
    ensures { (guest_file parked (vcpu_of 0 0)).enabled 1 ≡ true }
{
    a_notice_has_a_cause();
}
