//! Claims.

ghost use Rattle.std.specs.Prelude.{◌≡◌, ℕ, ◌+◌, ◌*◌, ◌≤◌, true, false, nat_eq, if◌then◌else◌, None};
ghost use Rattle.aia_word.specs.Top.{lets_through};
ghost use Rattle.aia_regs.specs.declared.access.Csr.TheVariants.{Topei};
ghost use Rattle.aia_regs.specs.declared.access.Op.{Op};
ghost use Rattle.aia_regs.specs.declared.access.Op.TheVariants.{Write};
ghost use Rattle.aia_regs.specs.Operations.{is_writing};
ghost use Rattle.aia_file.specs.InterruptFile.{InterruptFile};
ghost use Rattle.aia_vcpu.specs.Vms.{Vcpu, vcpu_of};
ghost use Rattle.aia_model.specs.declared.line.Line.TheVariants.{GuestCsr};
ghost use Rattle.aia_model.specs.declared.answer.Answer.TheVariants.{Wide};
ghost use Rattle.aia_model.specs.Event.{History};
ghost use Rattle.aia_model.specs.GuestFile.{guest_file};
ghost use Rattle.aia_model.specs.Refusal.{refusal};
ghost use Rattle.aia_model.specs.Answer.{after, answer};
ghost use Rattle.aia_laws.specs.Claims.{IsLeastToClaim};
ghost use Rattle.aia_uses.specs.Worked.{enabled, asked};

use aia_laws::guests::a_claim_takes_the_least_identity;

/// A claim takes the least identity that is pending and enabled and that the threshold lets
/// through: it answers that one, which is pending no more, and all else stays.
pub fn what_a_claim_takes()
    ensures answered { (h : History) (g : Vcpu) (op : Op) (i : ℕ)
        → refusal h (GuestCsr g.vm g.vcpu Topei op) ≡ None → is_writing op ≡ true
        → 1 ≤ i → i ≤ (guest_file h g).n → (guest_file h g).pending i ≡ true
        → (guest_file h g).enabled i ≡ true → lets_through (guest_file h g).threshold i ≡ true
        → ((j : ℕ) → 1 ≤ j → j ≤ (guest_file h g).n → (guest_file h g).pending j ≡ true
        → (guest_file h g).enabled j ≡ true → lets_through (guest_file h g).threshold j ≡ true
        → i ≤ j)
        → answer h (GuestCsr g.vm g.vcpu Topei op) ≡ Wide (i * 65536 + i) }
    ensures left { (h : History) (g : Vcpu) (op : Op) (i j : ℕ)
        → refusal h (GuestCsr g.vm g.vcpu Topei op) ≡ None → is_writing op ≡ true
        → IsLeastToClaim (guest_file h g) i
        → ((guest_file (after h (GuestCsr g.vm g.vcpu Topei op)) g).pending j
        ≡ (if nat_eq i j then false else (guest_file h g).pending j))
        × ((guest_file (after h (GuestCsr g.vm g.vcpu Topei op)) g).enabled
        ≡ (guest_file h g).enabled)
        × ((guest_file (after h (GuestCsr g.vm g.vcpu Topei op)) g).threshold
        ≡ (guest_file h g).threshold)
        × ((guest_file (after h (GuestCsr g.vm g.vcpu Topei op)) g).delivery
        ≡ (guest_file h g).delivery)
        × ((guest_file (after h (GuestCsr g.vm g.vcpu Topei op)) g).n ≡ (guest_file h g).n) }
    ensures none { (h : History) (g : Vcpu) (op : Op)
        → refusal h (GuestCsr g.vm g.vcpu Topei op) ≡ None
        → ((i : ℕ) → 1 ≤ i → i ≤ (guest_file h g).n → (guest_file h g).pending i ≡ true
        → (guest_file h g).enabled i ≡ true
        → ¬ (lets_through (guest_file h g).threshold i ≡ true))
        → (answer h (GuestCsr g.vm g.vcpu Topei op) ≡ Wide 0)
        × (guest_file (after h (GuestCsr g.vm g.vcpu Topei op)) g ≡ guest_file h g) }
{
    a_claim_takes_the_least_identity();
}

/// A claim takes the one identity that may be claimed; and where none is, it takes nothing.
pub fn a_claim_takes_the_first()
    ensures answered { answer asked (GuestCsr 0 0 Topei (Write 0)) ≡ Wide 0x10001 }
    ensures cleared { (guest_file (after asked (GuestCsr 0 0 Topei (Write 0)))
        (vcpu_of 0 0)).pending 1
        ≡ false }
    ensures nothing { answer enabled (GuestCsr 0 0 Topei (Write 0)) ≡ Wide 0 }
{
    a_claim_takes_the_least_identity();
}

/// Where an identity may be claimed, there is a least one, so that a claim takes it. This stands by
/// itself, on the definitions.
pub fn one_that_may_be_claimed_has_a_least()
    ensures { (file : InterruptFile) (i : ℕ) → 1 ≤ i → i ≤ file.n → file.pending i ≡ true
        → file.enabled i ≡ true → lets_through file.threshold i ≡ true
        → (j : ℕ) × IsLeastToClaim file j }
{}
