ghost use Rattle.std.specs.Prelude.{◌≡◌};

use aia_vcpu::GuestPlace;
use std::marker::Model;

/// A guest file of a hart that is handed out. It can't be copied: nobody else has the file until it
/// is given back. A lease that is dropped is lost to its pool.
#[derive(Drop)]
pub struct FileLease {
    place: GuestPlace,
}

impl Model for FileLease {
    ghost use Rattle.aia_vcpu.specs.declared.place.GuestPlace.{GuestPlace};

    ghost Value = { GuestPlace };

    ghost view = { λ l. l.place };
}

impl FileLease {
    /// Makes the lease of a guest file.
    pub(crate) fn new(place: GuestPlace) -> FileLease
        ensures { result ≡ place }
    {
        FileLease { place }
    }

    /// Gives the number of the hart.
    pub fn hart(&self) -> u32
        ensures { result ≡ self.now.hart }
    {
        self.place.hart
    }

    /// Gives the number of the file, from 1 on.
    pub fn file(&self) -> u32
        ensures { result ≡ self.now.file }
    {
        self.place.file
    }

    /// Gives the place of the file.
    pub fn place(&self) -> GuestPlace
        ensures { result ≡ self.now }
    {
        self.place
    }
}
