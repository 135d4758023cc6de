ghost use Rattle.aia_model.specs.declared.line.Line.TheVariants.{Hgeip};
ghost use Rattle.aia_model.specs.declared.answer.Answer.TheVariants.{Wide};
ghost use Rattle.aia_hyp_values.specs.Stands.{CoreTakes, answer_by};

use crate::hypervisor_core::Core;
use aia_model::Refusal;

impl Core {
    /// Tells which guest files of a hart signal: bit j, from 1 on, is the signal of guest file j.
    /// `Err` is `Range` exactly where the hart isn't there.
    ///
    /// The hypervisor extension 1.0: hgeip.
    pub fn hgeip(&self, hart: u64) -> Result<u64, Refusal>
        ensures { CoreTakes self.now self.now (Hgeip hart) (answer_by Wide result) }
    {
        self.fabric.recall();
        if u64::from(self.fabric.harts()) <= hart {
            return Err(Refusal::Range);
        }
        Ok(self.fabric.hgeip(hart as u32))
    }
}
