ghost use Rattle.std.specs.Prelude.{◌≡◌, Some};
ghost use Rattle.aia_source.specs.Wired.{is_active};
ghost use Rattle.aia_domain.specs.InterruptSource.{InterruptSourceState, new_source, changed_by, touched, configured, switched, with_target, aimed, sourcecfg_written, granted, sourcecfg_shown, bit_shown, waits};
ghost use Rattle.aia_domain.specs.Waiting.{aim_of};

use aia_source::{
    DELEGATED, Mode, Touch, Wired, child_sourcecfg, delegates, first_target, hart_of, mode_number,
    mode_of, priority_of, root_sourcecfg, target_kept,
};
use std::marker::Model;

/// Which bit of each source a register shows.
#[derive(Clone, Copy, Debug, PartialEq, Eq)]
pub enum SourceBit {
    /// `setip`: the pending bit.
    Pending,
    /// `in_clrip`: the rectified input.
    Input,
    /// `setie`: the enable bit.
    Enable,
}

/// What is done to one source of a domain.
#[derive(Clone, Copy, Debug, PartialEq, Eq)]
pub enum Change {
    /// A register touches its pending or its enable bit.
    Touch(Touch),
    /// Its `sourcecfg` is written.
    Configure(u32),
    /// Its `target` is written.
    Target(u32),
    /// It gets a target, all bits of it.
    Aim(u32),
    /// The root domain delegates it to this one, its child, or does not.
    Grant(bool),
    /// Its wire gets a level.
    Wire(bool),
    /// A load of `claimi` shows it.
    Claim,
    /// Its MSI is sent.
    Forward,
}

/// Where a source that is pending and enabled is aimed in direct delivery.
#[derive(Clone, Copy, Debug)]
pub struct DirectAim {
    /// The hart index of its `target`.
    pub hart: u32,
    /// The priority of its `target`.
    pub priority: u32,
}

/// What a domain keeps of one source.
#[derive(Debug, Drop)]
pub struct InterruptSource {
    wired: Wired,
    enabled: bool,
    target: u32,
    /// Whether the root domain delegates it to the child domain; each of the two keeps it.
    delegated: bool,
}

impl Model for InterruptSource {
    ghost Value = { InterruptSourceState };

    ghost view = { λ e. record {
      source = e.wired;
      enabled = e.enabled;
      target = e.target;
      delegated = e.delegated;
    } };
}

impl InterruptSource {
    pub(crate) fn new() -> InterruptSource
        ensures { result ≡ new_source }
    {
        InterruptSource {
            wired: Wired::new(),
            enabled: false,
            target: 0,
            delegated: false,
        }
    }

    pub(crate) fn wired(&self) -> &Wired
        ensures { result.now ≡ self.now.source }
    {
        &self.wired
    }

    pub(crate) fn enabled(&self) -> bool
        ensures { result ≡ self.now.enabled }
    {
        self.enabled
    }

    pub(crate) fn target(&self) -> u32
        ensures { result ≡ self.now.target }
    {
        self.target
    }

    pub(crate) fn is_active(&self) -> bool
        ensures { result ≡ is_active self.now.source.mode }
    {
        self.wired.mode() != Mode::Inactive
    }

    /// Tells its bit in a register.
    pub(crate) fn bit(&self, which: SourceBit) -> bool
        ensures { result ≡ bit_shown which self.now }
    {
        match which {
            SourceBit::Pending => self.wired.pending(),
            SourceBit::Input => self.wired.rectified(),
            SourceBit::Enable => self.enabled,
        }
    }

    /// Gives its `sourcecfg`.
    pub(crate) fn sourcecfg(&self, leaf: bool) -> u32
        ensures { result ≡ sourcecfg_shown leaf self.now }
    {
        if !leaf && self.delegated {
            DELEGATED
        } else {
            mode_number(self.wired.mode())
        }
    }

    /// Tells whether it is pending and enabled.
    pub(crate) fn waits(&self) -> bool
        ensures { result ≡ waits self.now }
    {
        self.wired.pending() && self.enabled
    }

    /// Tells where it is aimed, where it waits.
    pub(crate) fn aim_of(&self) -> Option<DirectAim>
        ensures { result ≡ aim_of self.now }
    {
        if self.waits() {
            Some(DirectAim {
                hart: hart_of(self.target),
                priority: priority_of(self.target),
            })
        } else {
            None
        }
    }

    /// Does a change to it.
    #[inline(always)]
    pub(crate) fn change(&mut self, change: Change, leaf: bool, harts: u32, msi: bool)
        ensures { self.new ≡ changed_by change leaf harts msi self.old }
    {
        match change {
            Change::Touch(touch) => self.touch(touch, msi),
            Change::Configure(value) => self.write_sourcecfg(leaf, msi, value),
            Change::Target(value) => self.aim(harts, msi, value),
            Change::Aim(target) => self.put_target(target),
            Change::Grant(given) => self.grant(given, msi),
            Change::Wire(level) => self.wired.wire(level, msi),
            Change::Claim => self.wired.clear(false),
            Change::Forward => self.wired.forwarded(),
        }
    }

    fn touch(&mut self, touch: Touch, msi: bool)
        ensures { self.new ≡ touched msi (Some touch) self.old }
    {
        match touch {
            Touch::SetPending => self.wired.set(msi),
            Touch::ClearPending => self.wired.clear(msi),
            Touch::SetEnable => self.enabled = self.is_active(),
            Touch::ClearEnable => self.enabled = false,
        }
    }

    fn configure(&mut self, mode: Mode, msi: bool)
        ensures { self.new ≡ configured msi mode self.old }
    {
        let was_active = self.is_active();
        self.wired.recfg(mode);
        if mode == Mode::Inactive {
            self.enabled = false;
            self.target = 0;
        } else if !was_active {
            self.enabled = false;
            self.target = first_target(msi);
        }
    }

    /// Writes its `sourcecfg`.
    fn write_sourcecfg(&mut self, leaf: bool, msi: bool, value: u32)
        ensures { self.new ≡ sourcecfg_written leaf msi value self.old }
    {
        if !leaf {
            self.configure(mode_of(root_sourcecfg(value)), msi);
            self.delegated = delegates(value);
        } else if self.delegated {
            self.configure(mode_of(child_sourcecfg(value)), msi);
        }
    }

    /// Hears that the delivery mode of its domain is now this one.
    pub(crate) fn switch(&mut self, msi: bool)
        ensures { self.new ≡ switched msi self.old }
    {
        self.wired.delivery_changed();
        self.target = if self.is_active() {
            first_target(msi)
        } else {
            0
        };
    }

    /// Writes its `target`.
    fn aim(&mut self, harts: u32, msi: bool, value: u32)
        ensures { self.new ≡ aimed harts msi value self.old }
    {
        self.put_target(target_kept(harts, msi, value));
    }

    /// Gets a target; that of an inactive source is 0 then.
    fn put_target(&mut self, target: u32)
        ensures { self.new ≡ with_target target self.old }
    {
        self.target = if self.is_active() { target } else { 0 };
    }

    /// Comes to the child domain, or leaves it.
    fn grant(&mut self, given: bool, msi: bool)
        ensures { self.new ≡ granted given msi self.old }
    {
        if self.delegated != given {
            self.configure(Mode::Inactive, msi);
            self.delegated = given;
        }
    }
}
