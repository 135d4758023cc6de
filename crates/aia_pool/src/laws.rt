//! What the leases of guest files mean, as laws: each function does nothing, and its clauses are
//! what was proved.

ghost use Rattle.std.specs.Prelude.{◌≡◌, ◌*◌, Bool, false, length};
ghost use Rattle.aia_vcpu.specs.declared.place.GuestPlace.{GuestPlace};
ghost use Rattle.aia_vcpu.specs.Home.{is_place};
ghost use Rattle.aia_pool.specs.Leases.{Leases, IsFileThere, is_out, with_out};

/// A guest file that is handed out is out, one that came back is not, and every other file stays as
/// it was.
pub fn each_file_is_handed_out_by_itself()
    ensures own { (l : Leases) (p : GuestPlace) (out : Bool) → IsFileThere l p
        → length l.out ≡ l.harts * l.guests → is_out (with_out l p out) p ≡ out }
    ensures others { (l : Leases) (p q : GuestPlace) (out : Bool) → IsFileThere l p
        → IsFileThere l q → is_place q p ≡ false → is_out (with_out l p out) q ≡ is_out l q }
{}
