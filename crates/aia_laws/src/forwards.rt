//! Wired sources that are passed: what a forward of one is to the files of guests and of the host.

ghost use Rattle.std.specs.Prelude.{◌≡◌, ℕ, true, None, Some};
ghost use Rattle.std.specs.List.{Contains};
ghost use Rattle.aia_regs.specs.BitUpdate.{settle};
ghost use Rattle.aia_vcpu.specs.Vms.{Vcpu};
ghost use Rattle.aia_model.specs.declared.line.Line.{Line};
ghost use Rattle.aia_model.specs.declared.msi.Msi.{Msi};
ghost use Rattle.aia_model.specs.Event.{History};
ghost use Rattle.aia_model.specs.Passes.{nth_pass, passed_by};
ghost use Rattle.aia_model.specs.Aim.{IsForward};
ghost use Rattle.aia_model.specs.FileAfter.{file_after};
ghost use Rattle.aia_model.specs.FileOf.{FileName, file_of};
ghost use Rattle.aia_model.specs.GuestFile.{guest_file, guest_select};
ghost use Rattle.aia_model.specs.Sent.{msis_sent_by};
ghost use Rattle.aia_model.specs.Refusal.{refusal};
ghost use Rattle.aia_model.specs.Answer.{after, line_taken, msi_taken};
ghost use Rattle.aia_model.specs.Histories.{IsHistory};
ghost use Rattle.aia_laws.specs.Forwards.{has_file, forward_deed, forward_said};

/// Each forward of a passed source is, within its line, a request for the pass's identity at its
/// guest and at no other file, at every moment of every move: the file of its guest takes one store
/// of the identity, so that it is pending then, and that of each other guest is as before. In the
/// files of the host nothing is asked for but the notice, if one is sent: where the host gives the
/// request on, the identity by which the pass is known there is taken again within the line.
pub fn a_forward_asks_at_its_guest_alone()
    ensures guests { (h : History) (p : ℕ) (msi : Msi) (g : Vcpu) → IsHistory h
        → passed_by h msi.source ≡ Some p → IsForward h p msi
        → guest_file (msi_taken msi h) g
        ≡ file_after (guest_select h g) (forward_deed h p g) (guest_file h g) }
    ensures asks { (h : History) (p : ℕ) (msi : Msi) → IsHistory h
        → passed_by h msi.source ≡ Some p → IsForward h p msi
        → (guest_file (msi_taken msi h) (nth_pass h p).to).pending (nth_pass h p).identity ≡ true }
    ensures hosts { (h : History) (p : ℕ) (msi : Msi) (f : FileName) (i : ℕ) → IsHistory h
        → passed_by h msi.source ≡ Some p → IsForward h p msi → has_file h f ≡ true
        → (file_of (msi_taken msi h) f).pending i
        ≡ settle (forward_said h p msi f i) ((file_of h f).pending i) }
{}

/// Each MSI of a passed source that an accepted line sends is pending at its guest after the line,
/// with the identity of the pass.
pub fn what_a_line_forwards_is_pending_after_it()
    ensures { (h : History) (line : Line) (msi : Msi) (p : ℕ) → IsHistory h
        → refusal h line ≡ None → Contains (msis_sent_by h line) msi
        → passed_by (line_taken h line) msi.source ≡ Some p
        → (guest_file (after h line) (nth_pass (line_taken h line) p).to).pending
        (nth_pass (line_taken h line) p).identity ≡ true }
{}
