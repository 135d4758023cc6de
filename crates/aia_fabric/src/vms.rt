ghost use Rattle.std.specs.Prelude.{◌≡◌, ℕ, ◌<◌, ◌≤◌, true, [], ◌∷◌, ◌++◌, length, take};
ghost use Rattle.aia_regs.specs.declared.limits.TheConstants.{VMS, VCPUS};
ghost use Rattle.aia_vcpu.specs.Vms.{Vcpu, vcpu_of, vcpus_in, is_vcpu_in, slot_of, notice_hart, vm_in};

use aia_regs::limits::VMS;
use aia_vcpu::{Vm, notice_hart_of, vcpus_in};
use arrayvec::ArrayVec;
use std::marker::Model;

/// As many places as VMs stand at most.
const PLACES: usize = VMS as usize;

/// All VMs of a machine, numbered from 0 as they are made.
#[derive(Drop)]
pub struct Vms {
    kept: ArrayVec<Vm, PLACES>,
}

impl Model for Vms {
    ghost use Rattle.std.specs.Prelude.{List};
    ghost use Rattle.aia_vcpu.specs.declared.vm.Vm.{Vm};

    ghost Value = { List Vm };

    ghost view = { λ v. v.kept.items };
}

impl Vms {
    /// Makes the room for all VMs; no VM stands.
    pub fn new() -> Vms
        ensures { result ≡ [] }
    {
        Vms {
            kept: ArrayVec::new(),
        }
    }

    /// Makes the next VM, while fewer than `VMS` stand.
    pub fn push(&mut self, vm: Vm)
        requires { length self.old < VMS }
        ensures { self.new ≡ self.old ++ vm ∷ [] }
    {
        self.kept.push(vm);
    }

    /// Tells how many there are.
    pub fn count(&self) -> u32
        requires { length self.now ≤ VMS }
        ensures { result ≡ length self.now }
    {
        self.kept.len() as u32
    }

    /// Tells how many virtual harts they have in all.
    pub fn vcpus(&self) -> u32
        requires { vcpus_in self.now ≤ VCPUS }
        ensures { result ≡ vcpus_in self.now }
    {
        vcpus_in(&self.kept)
    }

    /// Tells whether a virtual hart is there, by its VM and its number there.
    pub fn has(&self, vm: u64, vcpu: u64) -> bool
        ensures { result ≡ is_vcpu_in self.now (vcpu_of vm vcpu) }
    {
        match self.kept.get(vm as usize) {
            Some(found) => vcpu < u64::from(found.vcpus),
            None => false,
        }
    }

    /// Gives the hart that takes the notices of a VM that is there.
    pub fn notice_hart(&self, vm: u32) -> u32
        requires { vm < length self.now }
        ensures { result ≡ (vm_in self.now vm).notice_hart }
    {
        self.kept[vm as usize].notice_hart
    }

    /// Finds the hart that takes the notices of the virtual hart of slot `q`.
    pub fn notice_hart_at(&self, q: u32) -> u32
        requires { q < vcpus_in self.now }
        ensures { (g : Vcpu) → is_vcpu_in self.now g ≡ true → slot_of self.now g ≡ q
            → result ≡ notice_hart self.now g }
    {
        notice_hart_of(&self.kept, q)
    }

    /// Gives the slot of a virtual hart that is there.
    #[tactic(auto, using(aia_vcpu::proofs::OwnerLemmas::vcpus_first))]
    pub fn slot_of(&self, vm: u32, vcpu: u32) -> u32
        requires there { is_vcpu_in self.now (vcpu_of vm vcpu) ≡ true }
        requires few { vcpus_in self.now ≤ VCPUS }
        ensures value { result ≡ slot_of self.now (vcpu_of vm vcpu) }
        ensures below { result < vcpus_in self.now }
    {
        vcpus_in(&self.kept[..vm as usize]) + vcpu
    }
}
