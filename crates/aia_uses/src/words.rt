//! The newest word on an identity.

ghost use Rattle.std.specs.Prelude.{◌≡◌, ℕ, true, false, [], ◌∷◌};
ghost use Rattle.aia_regs.specs.BitUpdate.BitUpdate.{Ask, Clear, Nothing};
ghost use Rattle.aia_vcpu.specs.Vms.{Vcpu, vcpu_of};
ghost use Rattle.aia_model.specs.Event.{Event, History};
ghost use Rattle.aia_model.specs.Histories.{IsHistory};
ghost use Rattle.aia_model.specs.FileAfter.{pending_said, enabled_said};
ghost use Rattle.aia_model.specs.FileOf.{FileName, SupervisorFile, deed_at, select_of, file_of};
ghost use Rattle.aia_model.specs.GuestFile.{guest_deed, guest_select, guest_file};
ghost use Rattle.aia_model.specs.Script.{history_of};

use crate::told::TOLD;
use aia_laws::words::{the_newest_word_decides_at_a_guest, the_newest_word_decides_at_a_host};

/// What the newest event makes of an identity at a virtual hart, by what it says of it.
pub fn what_an_event_says_at_a_guest()
    ensures asked { (past : History) (event : Event) (g : Vcpu) (i : ℕ)
        → IsHistory (event ∷ past)
        → pending_said (guest_select past g) (guest_file past g) (guest_deed g past event) i ≡ Ask
        → (guest_file (event ∷ past) g).pending i ≡ true }
    ensures cleared { (past : History) (event : Event) (g : Vcpu) (i : ℕ)
        → IsHistory (event ∷ past)
        → pending_said (guest_select past g) (guest_file past g) (guest_deed g past event) i ≡ Clear
        → (guest_file (event ∷ past) g).pending i ≡ false }
    ensures kept { (past : History) (event : Event) (g : Vcpu) (i : ℕ)
        → IsHistory (event ∷ past)
        → pending_said (guest_select past g) (guest_file past g) (guest_deed g past event) i
        ≡ Nothing → (guest_file (event ∷ past) g).pending i ≡ (guest_file past g).pending i }
    ensures at_first { (g : Vcpu) (i : ℕ) → (guest_file [] g).pending i ≡ false }
    ensures enabled { (past : History) (event : Event) (g : Vcpu) (i : ℕ)
        → IsHistory (event ∷ past)
        → enabled_said (guest_select past g) (guest_file past g) (guest_deed g past event) i ≡ Ask
        → (guest_file (event ∷ past) g).enabled i ≡ true }
    ensures disabled { (past : History) (event : Event) (g : Vcpu) (i : ℕ)
        → IsHistory (event ∷ past)
        → enabled_said (guest_select past g) (guest_file past g) (guest_deed g past event) i ≡ Clear
        → (guest_file (event ∷ past) g).enabled i ≡ false }
    ensures left { (past : History) (event : Event) (g : Vcpu) (i : ℕ)
        → IsHistory (event ∷ past)
        → enabled_said (guest_select past g) (guest_file past g) (guest_deed g past event) i
        ≡ Nothing → (guest_file (event ∷ past) g).enabled i ≡ (guest_file past g).enabled i }
{
    the_newest_word_decides_at_a_guest();
}

/// What it makes of one in a file of the host.
pub fn what_an_event_says_at_a_host()
    ensures asked { (past : History) (event : Event) (f : FileName) (i : ℕ)
        → IsHistory (event ∷ past)
        → pending_said (select_of past f) (file_of past f) (deed_at f past event) i ≡ Ask
        → (file_of (event ∷ past) f).pending i ≡ true }
    ensures cleared { (past : History) (event : Event) (f : FileName) (i : ℕ)
        → IsHistory (event ∷ past)
        → pending_said (select_of past f) (file_of past f) (deed_at f past event) i ≡ Clear
        → (file_of (event ∷ past) f).pending i ≡ false }
    ensures kept { (past : History) (event : Event) (f : FileName) (i : ℕ)
        → IsHistory (event ∷ past)
        → pending_said (select_of past f) (file_of past f) (deed_at f past event) i ≡ Nothing
        → (file_of (event ∷ past) f).pending i ≡ (file_of past f).pending i }
    ensures enabled { (past : History) (event : Event) (f : FileName) (i : ℕ)
        → IsHistory (event ∷ past)
        → enabled_said (select_of past f) (file_of past f) (deed_at f past event) i ≡ Ask
        → (file_of (event ∷ past) f).enabled i ≡ true }
    ensures disabled { (past : History) (event : Event) (f : FileName) (i : ℕ)
        → IsHistory (event ∷ past)
        → enabled_said (select_of past f) (file_of past f) (deed_at f past event) i ≡ Clear
        → (file_of (event ∷ past) f).enabled i ≡ false }
    ensures left { (past : History) (event : Event) (f : FileName) (i : ℕ)
        → IsHistory (event ∷ past)
        → enabled_said (select_of past f) (file_of past f) (deed_at f past event) i ≡ Nothing
        → (file_of (event ∷ past) f).enabled i ≡ (file_of past f).enabled i }
{
    the_newest_word_decides_at_a_host();
}

/// Both at one script's history, that of [`TOLD`].
pub fn one_word_decides()
    ensures asked { (guest_file (history_of TOLD.now) (vcpu_of 0 0)).pending 1 ≡ true }
    ensures enabled { (guest_file (history_of TOLD.now) (vcpu_of 0 0)).enabled 1 ≡ true }
    ensures told { (file_of (history_of TOLD.now) (SupervisorFile 0)).pending 1 ≡ true }
    ensures untold { (file_of (history_of TOLD.now) (SupervisorFile 0)).enabled 1 ≡ false }
{
    the_newest_word_decides_at_a_guest();
    the_newest_word_decides_at_a_host();
}
