//! Notices: that the host is told of each interrupt of a virtual hart that is parked.

ghost use Rattle.std.specs.Prelude.{◌≡◌, ℕ, true, false, Some};
ghost use Rattle.aia_vcpu.specs.Vms.{Vcpu};
ghost use Rattle.aia_vcpu.specs.declared.rest.Rest.TheVariants.{Parked};
ghost use Rattle.aia_vcpu.specs.Home.Home.{InMemory};
ghost use Rattle.aia_model.specs.Event.{Event, History};
ghost use Rattle.aia_model.specs.HomeOf.{home};
ghost use Rattle.aia_model.specs.Notice.{noticed};
ghost use Rattle.aia_model.specs.FileOf.{file_of};
ghost use Rattle.aia_model.specs.Histories.{IsHistory};
ghost use Rattle.aia_laws.specs.Told.{is_deliverable, notice_file, notice_number, noticed_since, told_since, cleared_since, cleared_since_notice, IsCause};

/// No notice is lost. After every history whose events may happen, in whatever order lines and the
/// steps of moves come, while a virtual hart is parked and an identity is pending and enabled at
/// it, a notice for it was sent no earlier than the newest request for that identity, nor than the
/// beginning of its newest leave; and so its notice identity was asked for at the supervisor file
/// of its notice hart.
pub fn no_notice_is_lost()
    ensures sent { (h : History) (g : Vcpu) (i : ℕ) → IsHistory h → home h g ≡ InMemory Parked
        → is_deliverable h g i ≡ true → noticed_since h g i ≡ true }
    ensures told { (h : History) (g : Vcpu) (i : ℕ) → IsHistory h → home h g ≡ InMemory Parked
        → is_deliverable h g i ≡ true
        → told_since h (notice_file h g) (notice_number h g) g i ≡ true }
{}

/// The host sees it: the notice identity is then pending in that file, unless something the host
/// did there cleared it after the newest notice for the virtual hart; so too unless that cleared it
/// no earlier than the newest request at the virtual hart and the beginning of its newest leave.
pub fn the_host_sees_a_notice_until_it_clears_it()
    ensures newest { (h : History) (g : Vcpu) (i : ℕ) → IsHistory h → home h g ≡ InMemory Parked
        → is_deliverable h g i ≡ true
        → cleared_since_notice h (notice_file h g) (notice_number h g) g ≡ false
        → (file_of h (notice_file h g)).pending (notice_number h g) ≡ true }
    ensures since { (h : History) (g : Vcpu) (i : ℕ) → IsHistory h → home h g ≡ InMemory Parked
        → is_deliverable h g i ≡ true
        → cleared_since h (notice_file h g) (notice_number h g) g i ≡ false
        → (file_of h (notice_file h g)).pending (notice_number h g) ≡ true }
{}

/// No notice comes for nothing: the line that it comes with, the store that lands, or the MSI of a
/// pass that is given on, asks at the virtual hart for an identity that is enabled there, or its
/// step is the last one of a leave, one of whose looks saw an identity both pending and enabled, or
/// the line ends a run from memory while one is, or it loads a part of an image and leaves one that
/// is.
pub fn a_notice_has_a_cause()
    ensures { (h : History) (event : Event) (g : Vcpu) → noticed h event ≡ Some g
        → IsCause h event g }
{}
