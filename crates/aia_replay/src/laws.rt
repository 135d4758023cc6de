//! What the definitions of this crate mean, as laws: each function does nothing, and its clauses
//! are what was proved.

ghost use Rattle.std.specs.Prelude.{◌≡◌};
ghost use Rattle.aia_model.specs.Event.{History};
ghost use Rattle.aia_hyp_values.specs.Targets.{StandsWith};
ghost use Rattle.aia_replay.specs.declared.machine.Machine.{Machine};
ghost use Rattle.aia_replay.specs.Stands.{MachineStands};
ghost use Rattle.aia_replay.specs.Wires.{targets_of};

use crate::limits::BUFFER_BYTES;
use aia_io::limits::{PIECE_BYTES, SOURCE_BYTES};
use aia_model::limits::ANSWER_BYTES;

/// A script may have up to 16,777,216 bytes. A read asks for at most 4,096 of them, and at most
/// 4,096 bytes of answers wait; a run keeps room for both on its stack. An answer has at most 64
/// bytes.
pub fn limits()
    ensures script { SOURCE_BYTES ≡ 16777216 }
    ensures piece { PIECE_BYTES ≡ 4096 }
    ensures buffer { BUFFER_BYTES ≡ 4096 }
    ensures answer { ANSWER_BYTES ≡ 64 }
{}

/// In a machine that stands for a history the core and the targets of its APLIC stand for it
/// together. So what is said of a core with targets that stand beside it holds in each run.
pub fn the_targets_of_a_machine_stand_beside_its_core()
    ensures { (m : Machine) (h : History) → MachineStands m h
        → StandsWith m.core (targets_of m.wires.aplic) h }
{}
