//! What the definitions of the wired sources mean, as laws for every past: each function does
//! nothing, and its clauses are what was proved.

ghost use Rattle.std.specs.Prelude.{◌≡◌, ◌≢◌, ◌↔◌, ℕ, ◌≤◌, Bool, true, false, ◌&&◌, List, [], ◌∷◌, Option, Some, None, Contains, AllPairs};
ghost use Rattle.aia_model.specs.Event.{History};
ghost use Rattle.aia_model.specs.declared.sender.Sender.{Sender};
ghost use Rattle.aia_model.specs.declared.sender.Sender.TheVariants.{ByGenMsi, BySource};
ghost use Rattle.aia_model.specs.Sent.{forwards, senders, msi_of, waiting_msis, with_all_sent, acts_of};
ghost use Rattle.aia_aplic_values.specs.Senders.{SendsBefore};
ghost use Rattle.aia_regs.specs.Top.{Pair};
ghost use Rattle.aia_aplic_values.specs.Aplic.{AplicState, AplicStands};
ghost use Rattle.aia_aplic_values.specs.Passing.{is_passable_source, hart_count, target_in, is_passable_in};
ghost use Rattle.aia_aplic_values.specs.Tops.{IsOnTop};
ghost use Rattle.aia_aplic_values.specs.Side.{source_of};
ghost use Rattle.aia_regs.specs.declared.domain_registers.DomainReg.{DomainReg};
ghost use Rattle.aia_regs.specs.declared.domain_registers.DomainReg.TheVariants.{SourceCfg};
ghost use Rattle.aia_source.specs.Wired.{is_level};
ghost use Rattle.aia_source.specs.declared.touch.Touch.TheVariants.{SetPending};
ghost use Rattle.aia_source.specs.Registers.{touch, delegates, root_sourcecfg};
ghost use Rattle.aia_model.specs.declared.domain_name.DomainName.{DomainName};
ghost use Rattle.aia_model.specs.Act.{Act, Past};
ghost use Rattle.aia_msiaddr.specs.Registers.{are_locked};
ghost use Rattle.aia_model.specs.AddressOf.{addresses_of};
ghost use Rattle.aia_model.specs.declared.domain_name.DomainName.TheVariants.{Root, Child};
ghost use Rattle.aia_model.specs.Act.Act.{Written, Sent, Aimed};
ghost use Rattle.aia_model.specs.SourceOf.{harts_in, is_source, is_delegated, sourcecfg_of, mode, is_active_in, input, delivers_by_msis, enabled, target, pending, sources_in, genmsi_waits, is_for, top};

/// Whatever has happened, a source at a level mode, in a domain that delivers directly, is pending
/// exactly while its rectified input is high.
///
/// AIA 1.0, APLIC, "Precise effects on interrupt-pending bits".
pub fn a_level_source_follows_its_input()
    ensures { (past : Past) (d : DomainName) (s : ℕ) → is_level (mode past d s) ≡ true
        → delivers_by_msis past d ≡ false → pending past d s ≡ input past d s }
{}

/// Whatever has happened, no source is active in both domains.
///
/// AIA 1.0, APLIC, "Interrupt domains".
pub fn a_source_is_active_in_one_domain_at_most()
    ensures { (past : Past) (s : ℕ)
        → (is_active_in past Root s && is_active_in past Child s) ≡ false }
{}

/// Whatever has happened, in a domain in which a source is not active its input, its pending bit,
/// its enable bit and its target are 0.
///
/// AIA 1.0, APLIC, "Memory-mapped control region for an interrupt domain". Our profile: the input.
pub fn what_is_not_active_is_zero()
    ensures input { (past : Past) (d : DomainName) (s : ℕ) → is_active_in past d s ≡ false
        → input past d s ≡ false }
    ensures pending { (past : Past) (d : DomainName) (s : ℕ) → is_active_in past d s ≡ false
        → pending past d s ≡ false }
    ensures enabled { (past : Past) (d : DomainName) (s : ℕ) → is_active_in past d s ≡ false
        → enabled past d s ≡ false }
    ensures target { (past : Past) (d : DomainName) (s : ℕ) → is_active_in past d s ≡ false
        → target past d s ≡ 0 }
{}

/// To delegate again what is delegated changes nothing: whatever has happened, every source's
/// registers, and what both domains have of it (its mode, its pending and enable bits, its target),
/// are as they were.
///
/// AIA 1.0, APLIC, "Interrupt domains". Our profile: the child keeps its register.
pub fn to_delegate_again_changes_nothing()
    ensures registers { (past : Past) (i v : ℕ) (d : DomainName) (s : ℕ)
        → is_delegated past i ≡ true → delegates (root_sourcecfg v) ≡ true
        → sourcecfg_of (Written Root (SourceCfg i) v ∷ past) d s ≡ sourcecfg_of past d s }
    ensures sources { (past : Past) (i v : ℕ) (d : DomainName) (s : ℕ)
        → is_delegated past i ≡ true → delegates (root_sourcecfg v) ≡ true
        → source_of (Written Root (SourceCfg i) v ∷ past) d s ≡ source_of past d s }
{}

/// Whatever has happened, the child domain's register of a source that the root domain does not
/// delegate is 0.
///
/// AIA 1.0, APLIC, "Memory-mapped control region for an interrupt domain".
pub fn what_is_not_delegated_is_zero_in_the_child()
    ensures { (past : Past) (s : ℕ) → is_delegated past s ≡ false → sourcecfg_of past Child s ≡ 0 }
{}

/// A write is no rise of a wire. At an edge or detached mode, a `sourcecfg` leaves the pending bit
/// of a source that was active (our profile), and one that was not is then not pending; nor does
/// any other write make a source at such a mode pending but one that asks for it, whatever its
/// input becomes.
///
/// AIA 1.0, APLIC, "Precise effects on interrupt-pending bits".
pub fn only_a_wire_makes_a_rise()
    ensures stays { (past : Past) (d : DomainName) (i v s : ℕ) → is_active_in past d s ≡ true
        → is_active_in (Written d (SourceCfg i) v ∷ past) d s ≡ true
        → is_level (mode (Written d (SourceCfg i) v ∷ past) d s) ≡ false
        → pending (Written d (SourceCfg i) v ∷ past) d s ≡ pending past d s }
    ensures begins { (past : Past) (d : DomainName) (i v s : ℕ) → is_active_in past d s ≡ false
        → is_level (mode (Written d (SourceCfg i) v ∷ past) d s) ≡ false
        → pending (Written d (SourceCfg i) v ∷ past) d s ≡ false }
    ensures unasked { (past : Past) (e d : DomainName) (reg : DomainReg) (v s : ℕ) →
        touch reg v s ≢ Some SetPending → is_level (mode (Written e reg v ∷ past) d s) ≡ false →
        pending past d s ≡ false → pending (Written e reg v ∷ past) d s ≡ false }
{}

/// Whatever has happened, what `topi` of a hart shows is the least pair of priority and number of
/// the pending sources that are the hart's, and nothing exactly where there is none, in a domain
/// that delivers directly.
///
/// AIA 1.0, APLIC, "Interrupt delivery directly by the APLIC".
pub fn the_source_on_top_is_the_least_of_the_harts()
    ensures found { (past : Past) (d : DomainName) (hart : ℕ) (p : Pair)
        → top past d hart ≡ Some p → IsOnTop past d hart p }
    ensures none { (past : Past) (d : DomainName) (hart : ℕ) → delivers_by_msis past d ≡ false
        → ◌≡◌ {A = Option Pair} (top past d hart) None → (s : ℕ) → 1 ≤ s → s ≤ sources_in past
        → is_for past d hart s ≡ true → pending past d s ≡ false }
{}

/// Whatever has happened, what waits to be sent is: what a `genmsi` asked for and has not sent, and
/// each source that is there and is to be forwarded by a domain. They stand in order: `genmsi`
/// first, then the sources by rising number (our profile).
///
/// AIA 1.0, APLIC, "Interrupt forwarding by MSIs".
pub fn what_waits_is_genmsi_and_the_sources_that_are_ready()
    ensures genmsi { (past : Past) (d : DomainName) → Contains (senders past) (ByGenMsi d) ↔
        (genmsi_waits past d ≡ true) }
    ensures sources { (past : Past) (d : DomainName) (s : ℕ) →
        Contains (senders past) (BySource d s) ↔ ((1 ≤ s) × (s ≤ sources_in past) ×
        (forwards past d s ≡ true)) }
    ensures order { (past : Past) → AllPairs SendsBefore (senders past) }
{}

/// When the first MSI of those that wait is sent, the others wait as before, in the same order,
/// each with the address and the value that it had. So to send the first until none waits is to
/// send them all, in order.
pub fn msis_are_sent_one_after_another()
    ensures senders { (past : Past) (sender : Sender) (later : List Sender)
        → senders past ≡ sender ∷ later → senders (Sent sender ∷ past) ≡ later }
    ensures waiting_msis { (past : Past) (sender : Sender) (later : List Sender)
        → senders past ≡ sender ∷ later
        → waiting_msis past ≡ msi_of past sender ∷ waiting_msis (Sent sender ∷ past) }
    ensures with_all_sent { (past : Past) (sender : Sender) (later : List Sender)
        → senders past ≡ sender ∷ later → with_all_sent past ≡ with_all_sent (Sent sender ∷ past) }
{}

/// When all that waits is sent, nothing waits; so it is between the lines of every history: no
/// source is to be forwarded then.
pub fn nothing_waits_between_lines()
    ensures sent { (past : Past) → senders (with_all_sent past) ≡ [] }
    ensures between { (h : History) → senders (acts_of h) ≡ [] }
{}

/// An aim of a source makes nothing wait: what waits to be sent is what waited before, in the same
/// order. The target of a source that is active in the child domain, which every source is that may
/// be passed, is then the one that it was given.
///
/// AIA 1.0, APLIC, "Interrupt forwarding by MSIs". Our profile: passes.
pub fn an_aim_makes_nothing_wait()
    ensures senders { (past : Past) (s v : ℕ) → senders (Aimed s v ∷ past) ≡ senders past }
    ensures target { (past : Past) (s v : ℕ) → is_active_in past Child s ≡ true
        → target (Aimed s v ∷ past) Child s ≡ v }
{}

/// What an APLIC keeps says how many harts there are, of which sources MSIs to guests may be made,
/// and where those of each source that is there go, as what has happened says it.
///
/// AIA 1.0, APLIC, "Interrupt forwarding by MSIs". Our profile: passes.
pub fn what_is_kept_is_what_may_be_passed()
    ensures harts { (a : AplicState) (past : Past) → AplicStands a past
        → hart_count a ≡ harts_in past }
    ensures passable { (a : AplicState) (past : Past) (s : ℕ) → AplicStands a past
        → is_passable_in a s ≡ is_passable_source past s }
    ensures target { (a : AplicState) (past : Past) (s : ℕ) → AplicStands a past
        → is_source past s ≡ true → target_in a s ≡ target past Child s }
{}

/// A source whose MSI is sent is no longer pending, at each mode, whatever its input is; no other
/// source's pending bit is changed.
///
/// AIA 1.0, APLIC, "Interrupt forwarding by MSIs".
pub fn a_source_that_is_sent_is_no_longer_pending()
    ensures falls { (past : Past) (d : DomainName) (s : ℕ) → delivers_by_msis past d ≡ true
        → pending (Sent (BySource d s) ∷ past) d s ≡ false }
    ensures stays { (past : Past) (sender : Sender) (d : DomainName) (s : ℕ)
        → (sender ≡ BySource d s → ⊥) → pending (Sent sender ∷ past) d s ≡ pending past d s }
{}

/// Whatever happens after the registers of MSI addresses are locked, they stay as they are.
///
/// AIA 1.0, APLIC, "Memory-mapped control region for an interrupt domain".
pub fn locked_registers_of_addresses_stay()
    ensures { (past : Past) (a : Act) → are_locked (addresses_of past) ≡ true
        → addresses_of (a ∷ past) ≡ addresses_of past }
{}
