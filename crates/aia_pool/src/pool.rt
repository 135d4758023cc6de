ghost use Rattle.std.specs.Prelude.{◌≡◌, ℕ, ◌+◌, ◌-◌, ◌*◌, ◌<◌, ◌≤◌, true, false, not, length, slice_index_or, replicate, Option, Some, None, IfOk, IfSome, IfNone};
ghost use Rattle.aia_word.specs.Sets.{least_of};
ghost use Rattle.aia_regs.specs.declared.limits.TheConstants.{HARTS, GUEST_FILES};
ghost use Rattle.aia_pool.specs.Leases.{IsFileThere, is_out, least_free, with_out};

use crate::FileLease;
use aia_vcpu::GuestPlace;
use std::alloc::{AllocError, Global};
use std::marker::Model;

/// All guest files, and of each whether it is handed out.
#[derive(Drop)]
pub struct Pool {
    harts: u32,
    guests: u32,
    out: Vec<bool>,
}

impl Model for Pool {
    ghost use Rattle.std.specs.Prelude.{◌≡◌, ◌*◌, ◌≤◌, length};
    ghost use Rattle.aia_regs.specs.declared.limits.TheConstants.{HARTS, GUEST_FILES};
    ghost use Rattle.aia_pool.specs.Leases.{Leases};

    ghost Value = { Leases };

    ghost view = { λ p. record { harts = p.harts; guests = p.guests; out = p.out.items } };

    ghost invariant = { λ p. (p.harts ≤ HARTS) × (p.guests ≤ GUEST_FILES)
        × (length p.out.items ≡ p.harts * p.guests) };
}

impl Pool {
    /// Makes the pool of the guest files of `harts` harts, at most `HARTS`, with `guests` guest
    /// files each, at most `GUEST_FILES`; none is out. `Err`: there is no memory for it.
    pub fn new(alloc: Global, harts: u32, guests: u32) -> Result<Pool, AllocError>
        requires harts { harts ≤ HARTS }
        requires guests { guests ≤ GUEST_FILES }
        ensures { IfOk result (λ p. p ≡ record {
          harts = harts;
          guests = guests;
          out = replicate (harts * guests) false;
        }) }
    {
        let out = vec![in alloc; false; (harts * guests) as usize]?;
        Ok(Pool { harts, guests, out })
    }

    /// Hands out the least guest file of a hart that is not out. `None` exactly where all of the
    /// hart's are out, and then nothing changes.
    pub fn take(&mut self, hart: u32) -> Option<FileLease>
        requires { hart < self.old.harts }
        ensures found { IfSome result (λ p. (least_free self.old hart ≡ Some p.file)
            × (p.hart ≡ hart)) }
        ensures there { IfSome result (λ p. IsFileThere self.old p) }
        ensures free { IfSome result (λ p. is_out self.old p ≡ false) }
        ensures taken { IfSome result (λ p. self.new ≡ with_out self.old p true) }
        ensures none { IfNone result (◌≡◌ {A = Option ℕ} (least_free self.old hart) None) }
        ensures kept { IfNone result (self.new ≡ self.old) }
    {
        let first = (hart * self.guests) as usize;
        let file = least_free(&self.out, first, self.guests)?;
        self.out[first + file as usize - 1] = true;
        Some(FileLease::new(GuestPlace { hart, file }))
    }

    /// Takes back a guest file that is out, whichever pool handed out its lease. It can be handed
    /// out again.
    pub fn give(&mut self, lease: FileLease)
        requires there { IsFileThere self.old lease }
        requires out { is_out self.old lease ≡ true }
        ensures { self.new ≡ with_out self.old lease false }
    {
        let place = (lease.hart() * self.guests + lease.file() - 1) as usize;
        self.out[place] = false;
    }
}

/// Finds the least of the files 1 to `count` that is not out, where file 1 stands at `first`.
/// `None` exactly where all are out.
fn least_free(out: &[bool], first: usize, count: u32) -> Option<u32>
    requires within { first + count ≤ length out.now }
    requires few { count ≤ GUEST_FILES }
    ensures value { result
        ≡ least_of (λ file. not (slice_index_or out.now (first + file - 1) false)) 1 count }
    ensures found { IfSome result (λ file. (1 ≤ file) × (file ≤ count)
        × (slice_index_or out.now (first + file - 1) false ≡ false)) }
{
    for file in 1..count + 1 {
        if !out[first + file as usize - 1] {
            return Some(file);
        }
    }
    None
}
