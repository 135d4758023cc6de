//! What the host is told of a virtual hart that is parked.

ghost use Rattle.std.specs.Prelude.{◌≡◌, ℕ, true, Some};
ghost use Rattle.aia_regs.specs.BitUpdate.BitUpdate.{Ask, Clear};
ghost use Rattle.aia_vcpu.specs.Vms.{Vcpu, vcpu_of, notice_hart, notice_identity};
ghost use Rattle.aia_vcpu.specs.declared.rest.Rest.TheVariants.{Parked};
ghost use Rattle.aia_vcpu.specs.Home.Home.{InMemory};
ghost use Rattle.aia_model.specs.Event.{History};
ghost use Rattle.aia_model.specs.Vms.{vms_of};
ghost use Rattle.aia_model.specs.HomeOf.{home};
ghost use Rattle.aia_model.specs.Histories.{IsHistory};
ghost use Rattle.aia_model.specs.Notice.{noticed};
ghost use Rattle.aia_model.specs.FileAfter.{pending_said};
ghost use Rattle.aia_model.specs.FileOf.{SupervisorFile, deed_at, select_of, file_of};
ghost use Rattle.aia_model.specs.GuestFile.{guest_file};
ghost use Rattle.aia_model.specs.Script.{history_of};
ghost use Rattle.aia_laws.specs.Told.{noticed_since, told_since};
ghost use Rattle.aia_uses.specs.Since.{HappenedSince, HappenedAfter, IsToBeTold};

use aia_laws::notices::{no_notice_is_lost, the_host_sees_a_notice_until_it_clears_it};

/// A virtual hart is parked, and asked for 1.
pub const TOLD: &str = "machine 1 1 63 1
vm 1 0x8 0
arrive 0 0 0
g 0 0 csrrw siselect 0xc0
g 0 0 csrrw sireg 2
leave 0 0
msi 0 0x28000000 1
";

/// While a virtual hart is parked, and an identity pending and enabled at it, a notice was sent
/// since it was last asked for the identity and since its newest leave began, and so its notice
/// identity was asked for at its notice hart.
pub fn what_was_sent_since()
    ensures sent { (h : History) (g : Vcpu) (i : ℕ) → IsHistory h → home h g ≡ InMemory Parked
        → (guest_file h g).pending i ≡ true → (guest_file h g).enabled i ≡ true
        → HappenedSince (λ past event. noticed past event ≡ Some g) (IsToBeTold g i) h }
    ensures told { (h : History) (g : Vcpu) (i : ℕ) → IsHistory h → home h g ≡ InMemory Parked
        → (guest_file h g).pending i ≡ true → (guest_file h g).enabled i ≡ true
        → HappenedSince (λ past event. pending_said
        (select_of past (SupervisorFile (notice_hart (vms_of h) g)))
        (file_of past (SupervisorFile (notice_hart (vms_of h) g)))
        (deed_at (SupervisorFile (notice_hart (vms_of h) g)) past event)
        (notice_identity (vms_of h) g) ≡ Ask) (IsToBeTold g i) h }
{
    no_notice_is_lost();
}

/// The notice identity is then pending there, unless the host cleared it after the newest notice;
/// and unless it did so since the virtual hart was last asked and since its newest leave began.
pub fn what_the_host_sees_then()
    ensures newest { (h : History) (g : Vcpu) (i : ℕ) → IsHistory h → home h g ≡ InMemory Parked
        → (guest_file h g).pending i ≡ true → (guest_file h g).enabled i ≡ true
        → ¬ HappenedAfter (λ past event. pending_said
        (select_of past (SupervisorFile (notice_hart (vms_of h) g)))
        (file_of past (SupervisorFile (notice_hart (vms_of h) g)))
        (deed_at (SupervisorFile (notice_hart (vms_of h) g)) past event)
        (notice_identity (vms_of h) g) ≡ Clear) (λ past event. noticed past event ≡ Some g) h
        → (file_of h (SupervisorFile (notice_hart (vms_of h) g))).pending
        (notice_identity (vms_of h) g) ≡ true }
    ensures since { (h : History) (g : Vcpu) (i : ℕ) → IsHistory h → home h g ≡ InMemory Parked
        → (guest_file h g).pending i ≡ true → (guest_file h g).enabled i ≡ true
        → ¬ HappenedSince (λ past event. pending_said
        (select_of past (SupervisorFile (notice_hart (vms_of h) g)))
        (file_of past (SupervisorFile (notice_hart (vms_of h) g)))
        (deed_at (SupervisorFile (notice_hart (vms_of h) g)) past event)
        (notice_identity (vms_of h) g) ≡ Clear) (IsToBeTold g i) h
        → (file_of h (SupervisorFile (notice_hart (vms_of h) g))).pending
        (notice_identity (vms_of h) g) ≡ true }
{
    the_host_sees_a_notice_until_it_clears_it();
}

/// One notice, of the script [`TOLD`].
pub fn the_host_is_told_of_one()
    ensures sent { noticed_since (history_of TOLD.now) (vcpu_of 0 0) 1 ≡ true }
    ensures told { told_since (history_of TOLD.now) (SupervisorFile 0) 1 (vcpu_of 0 0) 1 ≡ true }
    ensures newest { (file_of (history_of TOLD.now) (SupervisorFile 0)).pending 1 ≡ true }
    ensures since { (file_of (history_of TOLD.now) (SupervisorFile 0)).pending 1 ≡ true }
{
    no_notice_is_lost();
    the_host_sees_a_notice_until_it_clears_it();
}
