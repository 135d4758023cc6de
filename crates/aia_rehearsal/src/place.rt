ghost use Rattle.std.specs.Prelude.{◌≡◌, option_map};
ghost use Rattle.std.specs.Borrow.{Bor};
ghost use Rattle.aia_vcpu.specs.declared.place.GuestPlace as files;
ghost use Rattle.aia_rehearsal.specs.Rehearsed.{file_of};

use aia_pool::FileLease;

/// A place that a plan leaves, or to which it leads.
#[derive(Drop)]
pub enum Place {
    /// A guest file.
    File(FileLease),
    /// The slot of memory of the virtual hart that is moved.
    Slot,
}

impl Place {
    /// Gives the guest file that the place is; `None`: it is the slot.
    pub(crate) fn file(&self) -> Option<&FileLease>
        ensures { option_map (λ (lease : Bor files.GuestPlace). lease.now) result
            ≡ file_of self.now }
    {
        match self {
            Place::File(lease) => Some(lease),
            Place::Slot => None,
        }
    }
}
