//! The newest word decides: of every interrupt file, over whole histories.

ghost use Rattle.std.specs.Prelude.{◌≡◌, ℕ};
ghost use Rattle.aia_vcpu.specs.Vms.{Vcpu};
ghost use Rattle.aia_model.specs.Event.{History};
ghost use Rattle.aia_model.specs.GuestFile.{guest_file};
ghost use Rattle.aia_model.specs.FileOf.{FileName, file_of};
ghost use Rattle.aia_model.specs.Histories.{IsHistory};
ghost use Rattle.aia_laws.specs.Told.{is_ask, guest_pending_said, host_pending_said};
ghost use Rattle.aia_laws.specs.Newest.{newest, guest_enable_said, host_enable_said};

/// An identity is pending at a virtual hart exactly where the newest event that says something of
/// that asks for it, and enabled exactly where the newest that says something of that enables it;
/// where no event says anything, it is neither.
pub fn the_newest_word_decides_at_a_guest()
    ensures pending { (h : History) (g : Vcpu) (i : ℕ) → IsHistory h
        → (guest_file h g).pending i
        ≡ is_ask (newest (λ past event. guest_pending_said past event g i) h) }
    ensures enabled { (h : History) (g : Vcpu) (i : ℕ) → IsHistory h
        → (guest_file h g).enabled i
        ≡ is_ask (newest (λ past event. guest_enable_said past event g i) h) }
{}

/// So it is in a file of the host, whose notices ask too.
pub fn the_newest_word_decides_at_a_host()
    ensures pending { (h : History) (f : FileName) (i : ℕ) → IsHistory h
        → (file_of h f).pending i
        ≡ is_ask (newest (λ past event. host_pending_said past event f i) h) }
    ensures enabled { (h : History) (f : FileName) (i : ℕ) → IsHistory h
        → (file_of h f).enabled i
        ≡ is_ask (newest (λ past event. host_enable_said past event f i) h) }
{}
