//! What the definitions of this crate mean, as laws: each function does nothing, and its clauses
//! are what was proved.

ghost use Rattle.std.specs.Prelude.{◌≡◌, ◌≢◌, ℕ, ◌+◌, ◌*◌, ◌<◌, ◌≤◌, ◌↔◌, true, length};
ghost use Rattle.aia_regs.specs.AddressMap.{machine_page, supervisor_page, guest_page, is_in_page};
ghost use Rattle.aia_regs.specs.declared.limits.TheConstants.{HARTS, GUEST_FILES};
ghost use Rattle.aia_file.specs.FileState.{FileState};
ghost use Rattle.aia_file.specs.declared.spot.Spot.{Spot};
ghost use Rattle.aia_file.specs.Map.{spot_at};
ghost use Rattle.aia_file.specs.Imsic.{ImsicState, IsThere, place_of, file_at, with_file};

/// An address names a file exactly where the file is there and the address lies in its page, so it
/// names at most one.
pub fn an_address_names_one_file()
    ensures machine { (harts guests addr hart : ℕ)
        → (spot_at harts guests addr ≡ Spot.MachineFile hart)
        ↔ ((hart < harts) × (is_in_page (machine_page hart) addr ≡ true)) }
    ensures host { (harts guests addr hart : ℕ) → harts ≤ HARTS
        → (spot_at harts guests addr ≡ Spot.SupervisorFile hart)
        ↔ ((hart < harts) × (is_in_page (supervisor_page hart) addr ≡ true)) }
    ensures guest { (harts guests addr hart file : ℕ) → harts ≤ HARTS → guests ≤ GUEST_FILES
        → (spot_at harts guests addr ≡ Spot.GuestFile hart file)
        ↔ ((hart < harts) × (1 ≤ file) × (file ≤ guests)
        × (is_in_page (guest_page hart file) addr ≡ true)) }
{}

/// Two files are kept apart, each where there is room for it.
pub fn files_are_kept_apart()
    ensures apart { (h : ImsicState) (a b : Spot) → IsThere h a → IsThere h b
        → place_of h a ≡ place_of h b → a ≡ b }
    ensures within { (h : ImsicState) (spot : Spot) → IsThere h spot
        → place_of h spot < h.harts * (h.guests + 2) }
{}

/// Where one file is replaced, it is the new one, and every other file is as it was.
pub fn one_file_is_replaced()
    ensures same { (h : ImsicState) (spot : Spot) (file : FileState)
        → place_of h spot < length h.files → file_at (with_file h spot file) spot ≡ file }
    ensures others { (h : ImsicState) (spot other : Spot) (file : FileState)
        → IsThere h spot → IsThere h other → other ≢ spot
        → file_at (with_file h spot file) other ≡ file_at h other }
{}
