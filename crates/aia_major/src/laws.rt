//! What the definitions of this crate mean, as laws: each function does nothing, and its clauses
//! are what was proved.

ghost use Rattle.std.specs.Prelude.{◌≡◌, ℕ, ◌<◌, ◌≤◌, ◌⊎◌, ◌↔◌, Bool, true, false, ◌&&◌, List, [], ◌++◌, Option, Some, None};
ghost use Rattle.std.specs.Int.{is_in_range};
ghost use Rattle.std.specs.List.{Contains};
ghost use Rattle.aia_word.specs.Top.{top_value};
ghost use Rattle.aia_regs.specs.declared.limits.TheConstants.{IDENTITIES};
ghost use Rattle.aia_regs.specs.Fields.{field};
ghost use Rattle.aia_word.specs.Sets.{has_bit};
ghost use Rattle.aia_regs.specs.Operations.{written, FitsOp};
ghost use Rattle.aia_major.specs.VsMajor.{VsMajorState, Candidate, new_majors, is_major, vti_of, iid_of, dpr_of, ipriom_of, iprio_of, is_hvictl, hvictl_kept, hviprio1_kept, fits_hvip, fits_hviprio1, fits_hvictl, is_pending, is_live, majors_word, sip_value, sie_value, with_sip, with_sie, with_hvip, one_if, external, by_hvictl, candidates, first_of, priority_shown, stopi_value};
ghost use Rattle.aia_major.specs.Kept.{sip_written, sie_written};
ghost use Rattle.aia_major.specs.First.{IsFirst};

use aia_regs::Op;

/// The first of some candidates is one of them and comes before each of them, by its priority
/// number and then by its rank; there is none exactly where there are no candidates. No two
/// candidates of a virtual hart have the same rank, so just one of them is the first.
pub fn the_first_comes_first()
    ensures found { (some : List Candidate) (c : Candidate) → first_of some ≡ Some c
        → IsFirst some c }
    ensures none { (some : List Candidate)
        → (◌≡◌ {A = Option Candidate} (first_of some) None) ↔ (some ≡ []) }
    ensures ranks { (m : VsMajorState) (stopei : ℕ) (signal : Bool) (a b : Candidate)
        → Contains (candidates m stopei signal) a → Contains (candidates m stopei signal) b
        → a.rank ≡ b.rank → a ≡ b }
    ensures one { (m : VsMajorState) (stopei : ℕ) (signal : Bool) (a b : Candidate)
        → IsFirst (candidates m stopei signal) a → IsFirst (candidates m stopei signal) b
        → a ≡ b }
{}

/// Where VTI of `hvictl` is 0, each candidate is one of the four majors, pending and enabled. Where
/// it is 1, a candidate is the external interrupt or the major that `hvictl` names, and the majors
/// 1, 5 and 13 are none for being pending and enabled.
///
/// AIA 1.0, Interrupts for Virtual Machines (VS Level).
pub fn vti_says_which_candidates_there_are()
    ensures live { (m : VsMajorState) (stopei : ℕ) (signal : Bool) (c : Candidate)
        → vti_of m.hvictl ≡ false → Contains (candidates m stopei signal) c
        → (is_major c.major && is_live m signal c.major) ≡ true }
    ensures named { (m : VsMajorState) (stopei : ℕ) (signal : Bool) (c : Candidate)
        → vti_of m.hvictl ≡ true → Contains (candidates m stopei signal) c
        → (c.major ≡ 9) ⊎ (c.major ≡ iid_of m.hvictl) }
    ensures alone { (m : VsMajorState) (stopei : ℕ) (signal : Bool) → vti_of m.hvictl ≡ true
        → candidates m stopei signal ≡ external m stopei signal ++ by_hvictl m.hvictl }
{}

/// The priority number of the external interrupt is the identity on top of the guest's interrupt
/// file, 1 to `IDENTITIES`, as `stopei` shows it, and 256 where there is none.
///
/// AIA 1.0, Interrupts for Virtual Machines (VS Level). Profile: 256.
pub fn the_identity_on_top_is_the_external_priority()
    ensures some { (m : VsMajorState) (i : ℕ) (signal : Bool) → 1 ≤ i → i ≤ IDENTITIES
        → external m (top_value (Some i)) signal
        ≡ one_if (is_live m signal 9) (record { major = 9; number = i; rank = 1 }) }
    ensures none { (m : VsMajorState) (signal : Bool) → external m (top_value None) signal
        ≡ one_if (is_live m signal 9) (record { major = 9; number = 256; rank = 1 }) }
{}

/// `stopi` shows the first candidate: its major in bits 27:16 and its priority in bits 7:0, which
/// is at most 255, and 0 for a priority number of 0 where IPRIOM of `hvictl` is 1. Where `hvictl`
/// has a value that may be written to it, the major is 1 to 63, and `stopi` reads 0 exactly where
/// there is no candidate.
///
/// AIA 1.0, Interrupts for Virtual Machines (VS Level).
pub fn stopi_shows_the_first_candidate()
    ensures major { (m : VsMajorState) (stopei : ℕ) (signal : Bool) (c : Candidate)
        → first_of (candidates m stopei signal) ≡ Some c
        → field (stopi_value m stopei signal) 27 16 ≡ c.major }
    ensures priority { (m : VsMajorState) (stopei : ℕ) (signal : Bool) (c : Candidate)
        → first_of (candidates m stopei signal) ≡ Some c
        → field (stopi_value m stopei signal) 7 0 ≡ priority_shown m.hvictl c.number }
    ensures fits { (hvictl number : ℕ) → priority_shown hvictl number ≤ 255 }
    ensures zero { (hvictl : ℕ) → ipriom_of hvictl ≡ true → priority_shown hvictl 0 ≡ 0 }
    ensures range { (m : VsMajorState) (stopei : ℕ) (signal : Bool) (c : Candidate)
        → is_hvictl m.hvictl ≡ true → first_of (candidates m stopei signal) ≡ Some c
        → is_in_range 1 63 c.major ≡ true }
    ensures none { (m : VsMajorState) (stopei : ℕ) (signal : Bool) → is_hvictl m.hvictl ≡ true
        → (stopi_value m stopei signal ≡ 0) ↔ (candidates m stopei signal ≡ []) }
{}

/// What a write of `hvictl` or `hviprio1` keeps is kept again as it is; its fields are those of the
/// value written, and so it may be written to `hvictl` where that value may, as may the 0 with
/// which a virtual hart begins.
///
/// AIA 1.0, Interrupts for Virtual Machines (VS Level).
pub fn kept_fields_are_those_written()
    ensures hvictl { (v : ℕ) → hvictl_kept (hvictl_kept v) ≡ hvictl_kept v }
    ensures hviprio1 { (v : ℕ) → hviprio1_kept (hviprio1_kept v) ≡ hviprio1_kept v }
    ensures vti { (v : ℕ) → vti_of (hvictl_kept v) ≡ vti_of v }
    ensures iid { (v : ℕ) → iid_of (hvictl_kept v) ≡ iid_of v }
    ensures dpr { (v : ℕ) → dpr_of (hvictl_kept v) ≡ dpr_of v }
    ensures ipriom { (v : ℕ) → ipriom_of (hvictl_kept v) ≡ ipriom_of v }
    ensures iprio { (v : ℕ) → iprio_of (hvictl_kept v) ≡ iprio_of v }
    ensures legal { (v : ℕ) → is_hvictl (hvictl_kept v) ≡ is_hvictl v }
    ensures begins { is_hvictl new_majors.hvictl ≡ true }
    ensures software { (v : ℕ) → field (hviprio1_kept v) 15 8 ≡ field v 15 8 }
    ensures timer { (v : ℕ) → field (hviprio1_kept v) 31 24 ≡ field v 31 24 }
    ensures overflow { (v : ℕ) → field (hviprio1_kept v) 47 40 ≡ field v 47 40 }
{}

/// The ones of `sip` are the majors that are pending, those of `sie` the majors that are enabled.
///
/// The hypervisor extension 1.0: `vsip` and `vsie`.
pub fn registers_show_majors()
    ensures sip { (m : VsMajorState) (signal : Bool) (j : ℕ)
        → has_bit (sip_value m signal) j ≡ (is_major j && is_pending m signal j) }
    ensures sie { (m : VsMajorState) (j : ℕ)
        → has_bit (sie_value m) j ≡ (is_major j && m.enabled j) }
{}

/// A number that may say which majors are injected or enabled has ones only at majors; one that
/// shows a set of majors is such a number, and written whole it makes the injected ones anew.
///
/// The hypervisor extension 1.0: `hvip` and `vsie`.
pub fn hvip_holds_majors()
    ensures ones { (v j : ℕ) → fits_hvip v ≡ true → has_bit v j ≡ true → is_major j ≡ true }
    ensures shown { (members : ℕ → Bool) → fits_hvip (majors_word members) ≡ true }
    ensures anew { (m : VsMajorState) (members : ℕ → Bool) (j : ℕ) → is_major j ≡ true
        → (with_hvip (majors_word members) m).injected j ≡ members j }
{}

/// What a write of `hviprio1` or `hvictl` keeps may be held there.
///
/// AIA 1.0, Interrupts for Virtual Machines (VS Level).
pub fn kept_numbers_may_be_held()
    ensures hviprio1 { (v : ℕ) → fits_hviprio1 (hviprio1_kept v) ≡ true }
    ensures hvictl { (v : ℕ) → is_hvictl v ≡ true → fits_hvictl (hvictl_kept v) ≡ true }
{}

/// To write the number that a guest's CSR instruction writes is to do its access: to `sip`, given
/// what `sip` reads, and to `sie`, given what `sie` reads; the operand has 64 bits.
///
/// The hypervisor extension 1.0: `vsip` and `vsie`.
pub fn the_number_written_does_the_access()
    ensures sip { (op : Op) (m : VsMajorState) (signal : Bool) → FitsOp op
        → sip_written (written op (sip_value m signal)) m ≡ with_sip op m }
    ensures sie { (op : Op) (m : VsMajorState) → FitsOp op
        → sie_written (written op (sie_value m)) m ≡ with_sie op m }
{}
