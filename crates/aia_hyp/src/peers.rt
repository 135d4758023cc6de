ghost use Rattle.aia_model.specs.declared.line.Line.TheVariants.{Ipi};
ghost use Rattle.aia_model.specs.declared.answer.Answer.TheVariants.{Okay};
ghost use Rattle.aia_hyp_values.specs.Stands.{CoreTakes, answer_by};

use crate::hypervisor_core::Core;
use aia_model::Refusal;

impl Core {
    /// Takes a store of `value` by virtual hart `vcpu` of a VM at the place, in its own address
    /// space, of the interrupt file of virtual hart `to` of its VM, which may be itself: it asks
    /// there for the identity that the value names, and where the G-stage record in force leads to
    /// the slot of `to`, a notice is sent if that one is enabled in the slot. `Err` is `Range`
    /// where the sender isn't there, `Away` where it does not run, `GFault` where there is no
    /// virtual hart `to`; nothing is changed then.
    ///
    /// AIA 1.0, Interprocessor Interrupts (IPIs); the hypervisor extension 1.0.
    pub fn ipi(&mut self, vm: u64, vcpu: u64, to: u64, value: u32) -> Result<(), Refusal>
        ensures { CoreTakes self.old self.new (Ipi vm vcpu to value)
            (answer_by (λ _. Okay) result) }
    {
        let Some(from) = self.fabric.find(vm, vcpu) else {
            return Err(Refusal::Range);
        };
        if !self.record_of(from).stay.runs() {
            return Err(Refusal::Away);
        }
        let Some(peer) = self.fabric.find(vm, to) else {
            return Err(Refusal::GFault);
        };
        self.fabric.guest_store(peer, value);
        Ok(())
    }
}
