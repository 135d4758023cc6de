ghost use Rattle.std.specs.Prelude.{◌≡◌, ◌^◌, ◌<◌, true};
ghost use Rattle.aia_vcpu.specs.Vms.{Vcpu, vcpus_in, is_vcpu_in, slot_of, notice_hart};

/// A VM: what is said of it as it is made. The default one, with no virtual hart, is none of a
/// machine; arrays of bounded size need one.
#[derive(Clone, Copy, Debug, Default, PartialEq, Eq)]
pub struct Vm {
    /// How many virtual harts it has, at least 1.
    pub vcpus: u32,
    /// The mask of its MSI addresses, over page numbers: the bits at its ones name a virtual hart.
    pub mask: u64,
    /// The hart whose supervisor file takes the notices of its virtual harts.
    pub notice_hart: u32,
}

/// Tells how many virtual harts VMs have in all, below 2^32.
#[tactic(auto, using(crate::proofs::OwnerLemmas::vcpus_next, crate::proofs::OwnerLemmas::vcpus_all))]
pub fn vcpus_in(vms: &[Vm]) -> u32
    requires { vcpus_in vms.now < 2 ^ 32 }
    ensures { result ≡ vcpus_in vms.now }
{
    let mut count = 0;
    for vm in vms {
        count += vm.vcpus;
    }
    count
}

/// Finds the hart that takes the notices of the virtual hart of slot `q`, one of these VMs'.
#[tactic(auto, using(crate::proofs::OwnerLemmas::vcpus_next, crate::proofs::OwnerLemmas::vcpus_all))]
pub fn notice_hart_of(vms: &[Vm], q: u32) -> u32
    requires { q < vcpus_in vms.now }
    ensures { (g : Vcpu) → is_vcpu_in vms.now g ≡ true → slot_of vms.now g ≡ q
        → result ≡ notice_hart vms.now g }
{
    let mut left = q;
    for vm in vms {
        if left < vm.vcpus {
            return vm.notice_hart;
        }
        left -= vm.vcpus;
    }
    unreachable!()
}
