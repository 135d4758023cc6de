ghost use Rattle.std.specs.Prelude.{◌≡◌, Bool, false, if◌then◌else◌};
ghost use Rattle.aia_source.specs.Wired.{WiredState, new_wired, done, rectified, is_active};
ghost use Rattle.aia_source.specs.Wired.SourceDeed.{LevelGiven, Set, Cleared, Forwarded, Configured, Switched};
ghost use Rattle.aia_source.specs.declared.mode.Mode.TheVariants.{Inactive};

use crate::mode::Mode;
use std::marker::Model;

/// One wired source in one domain: its mode, the level of its wire, and whether it is pending.
///
/// AIA 1.0, APLIC, "Precise effects on interrupt-pending bits".
#[derive(Debug, Drop)]
pub struct Wired {
    mode: Mode,
    wire: bool,
    pending: bool,
}

impl Model for Wired {
    ghost Value = { WiredState };

    ghost view = { λ w. record { mode = w.mode; wire = w.wire; pending = w.pending } };

    ghost invariant = { λ w. w.mode ≡ Inactive → w.pending ≡ false };
}

impl Wired {
    /// Makes a source that is inactive, with a low wire.
    pub fn new() -> Wired
        ensures { result ≡ new_wired }
    {
        Wired {
            mode: Mode::Inactive,
            wire: false,
            pending: false,
        }
    }

    /// Gives its mode.
    pub fn mode(&self) -> Mode
        ensures { result ≡ self.now.mode }
    {
        self.mode
    }

    /// Tells its rectified input: whether the wire is at the level, or past the edge, that the mode
    /// waits for; false for a source that is inactive or detached.
    pub fn rectified(&self) -> bool
        ensures { result ≡ rectified self.now.mode self.now.wire }
    {
        self.mode.rectified(self.wire)
    }

    /// Tells whether it is pending.
    pub fn pending(&self) -> bool
        ensures { result ≡ self.now.pending }
    {
        self.pending
    }

    /// Gives the wire a level; `msi` is whether the domain delivers by MSIs.
    ///
    /// A rectified rise makes the source pending, and at a level mode a fall takes that back.
    pub fn wire(&mut self, level: bool, msi: bool)
        ensures { self.new ≡ done msi LevelGiven self.old.mode level self.old }
    {
        let before = self.rectified();
        self.wire = level;
        if matches!(self.mode, Mode::Inactive | Mode::Detached) {
            return;
        }
        let after = self.rectified();
        if after && !before {
            self.pending = true;
        }
        if self.mode.is_level() && before && !after {
            self.pending = false;
        }
    }

    /// Asks for it, as `setip` does, and a register that takes the source's number.
    ///
    /// A source at a level mode hears it only where the domain delivers by MSIs (`msi`) and the
    /// input is high.
    pub fn set(&mut self, msi: bool)
        ensures { self.new ≡ done msi Set self.old.mode self.old.wire self.old }
    {
        match self.mode {
            Mode::Inactive => {}
            Mode::Detached | Mode::RisingEdge | Mode::FallingEdge => self.pending = true,
            Mode::LevelHigh | Mode::LevelLow => {
                if msi && self.rectified() {
                    self.pending = true;
                }
            }
        }
    }

    /// Clears it, as `in_clrip` does, and a register that takes the source's number.
    ///
    /// A source at a level mode hears it only where the domain delivers by MSIs (`msi`).
    pub fn clear(&mut self, msi: bool)
        ensures { self.new ≡ done msi Cleared self.old.mode self.old.wire self.old }
    {
        if msi || !self.mode.is_level() {
            self.pending = false;
        }
    }

    /// Hears that its MSI was sent, so that it is no longer pending.
    pub fn forwarded(&mut self)
        ensures { self.new ≡ done Bool.true Forwarded self.old.mode self.old.wire self.old }
    {
        self.clear(true);
    }

    /// Takes the mode that a write of its `sourcecfg` gives it.
    ///
    /// At a level mode it is then pending exactly where its input is high. At an edge or detached
    /// mode it stays pending if it was (our profile), which an inactive one never is; one that
    /// becomes inactive is not pending.
    pub fn recfg(&mut self, mode: Mode)
        ensures mode { self.new.mode ≡ mode }
        ensures after { (msi : Bool)
            → self.new ≡ done msi Configured mode self.old.wire self.old }
    {
        self.mode = mode;
        if mode.is_level() {
            self.pending = self.rectified();
        } else if mode == Mode::Inactive {
            self.pending = false;
        }
    }

    /// Hears that the domain's delivery mode changed: a source at a level mode is then pending
    /// exactly where its input is high (our profile).
    pub fn delivery_changed(&mut self)
        ensures mode { self.new.mode ≡ self.old.mode }
        ensures after { (msi : Bool)
            → self.new ≡ done msi Switched self.old.mode self.old.wire self.old }
    {
        if self.mode.is_level() {
            self.pending = self.rectified();
        }
    }
}
