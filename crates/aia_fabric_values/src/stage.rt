ghost use Rattle.std.specs.Prelude.{◌≡◌};
ghost use Rattle.aia_fabric_values.specs.World.{no_stage};

use aia_vcpu::GuestPlace;

/// A G-stage record of a virtual hart's interrupt file page: the guest file that it names, `None`
/// where it is empty; as it is written, and in force.
///
/// The hypervisor extension 1.0.
#[derive(Clone, Copy, Debug, PartialEq, Eq)]
pub struct Stage {
    pub written: Option<GuestPlace>,
    pub in_force: Option<GuestPlace>,
}

impl Stage {
    /// Makes a record that names no file.
    pub fn new() -> Stage
        ensures { result ≡ no_stage }
    {
        Stage {
            written: None,
            in_force: None,
        }
    }
}
