//! What scripts that pass sources answer to a VM and to the machine level, and what a pass tells.

ghost use Rattle.std.specs.Prelude.{◌≡◌, ◌⊎◌, ◌∷◌, ℕ, ◌||◌, true, List, [], length, None, Some};
ghost use Rattle.std.specs.List.{filter};
ghost use Rattle.aia_regs.specs.declared.access.Csr.{Csr};
ghost use Rattle.aia_regs.specs.declared.access.Op.{Op};
ghost use Rattle.aia_vcpu.specs.Vms.{Vcpu};
ghost use Rattle.aia_model.specs.declared.answer.Answer.TheVariants.{Refused};
ghost use Rattle.aia_model.specs.declared.refusal.Refusal.TheVariants.{Full, Passed};
ghost use Rattle.aia_model.specs.declared.line.Line.{Line};
ghost use Rattle.aia_model.specs.declared.line.Line.TheVariants as lines;
ghost use Rattle.aia_model.specs.Event.{History, machine_of};
ghost use Rattle.aia_model.specs.Event.Event.{Accepted};
ghost use Rattle.aia_model.specs.Vms.{vms_of};
ghost use Rattle.aia_model.specs.HomeOf.{home};
ghost use Rattle.aia_model.specs.Flight.{flight};
ghost use Rattle.aia_model.specs.StateOf.{state_of};
ghost use Rattle.aia_model.specs.Passes.{passes_of, is_passed};
ghost use Rattle.aia_model.specs.Passable.{is_passable};
ghost use Rattle.aia_model.specs.Sent.{acts_of};
ghost use Rattle.aia_model.specs.Refusal.{refusal};
ghost use Rattle.aia_model.specs.Answer.{answer};
ghost use Rattle.aia_model.specs.Reading.{reading};
ghost use Rattle.aia_model.specs.Text.{texts_of};
ghost use Rattle.aia_model.specs.Script.{answers_from, answers};
ghost use Rattle.aia_isolation.specs.declared.instances.TheConstants.{BESIDE, BESIDE_VM, BESIDE_MACHINE};
ghost use Rattle.aia_isolation.specs.Concerns.{concerns};
ghost use Rattle.aia_isolation.specs.Beside.{concerns_by_sources, is_of_machine_level_by_sources, is_about_sources};
ghost use Rattle.aia_isolation.specs.Parts.{is_line_of, answers_among, answers_to};

use aia_isolation::scripts::{
    a_pass_tells_a_vm_that_it_came, a_vm_is_answered_by_its_lines_and_by_what_is_sent,
    the_machine_level_is_answered_by_its_lines_and_by_passes,
};

/// What a VM is answered in any script, by the texts that concern it or what the APLIC sends.
pub fn what_a_vm_is_answered_beside_passes()
    ensures left_out { (v : ℕ) (script : List ℕ)
        → answers_among (λ line. concerns v line || is_about_sources line) [] (texts_of script)
        ≡ answers_from [] (filter (λ text. is_line_of (λ line. concerns v line
        || is_about_sources line) (reading text)) (texts_of script)) }
    ensures alone { (v : ℕ) (script part : List ℕ)
        → texts_of part ≡ filter (λ text. is_line_of (λ line. concerns v line
        || is_about_sources line) (reading text)) (texts_of script)
        → answers_among (λ line. concerns v line || is_about_sources line) [] (texts_of script)
        ≡ answers part }
    ensures two_scripts { (v : ℕ) (script other : List ℕ)
        → filter (λ text. is_line_of (λ line. concerns v line || is_about_sources line)
        (reading text)) (texts_of script)
        ≡ filter (λ text. is_line_of (λ line. concerns v line || is_about_sources line)
        (reading text)) (texts_of other)
        → answers_among (λ line. concerns v line || is_about_sources line) [] (texts_of script)
        ≡ answers_among (λ line. concerns v line || is_about_sources line) [] (texts_of other) }
{
    a_vm_is_answered_by_its_lines_and_by_what_is_sent();
}

/// What the machine level is answered in any script, by the texts that it is told of.
pub fn what_the_machine_level_is_answered_beside_passes()
    ensures left_out { (script : List ℕ)
        → answers_among is_of_machine_level_by_sources [] (texts_of script)
        ≡ answers_from [] (filter (λ text. is_line_of is_of_machine_level_by_sources
        (reading text)) (texts_of script)) }
    ensures alone { (script part : List ℕ)
        → texts_of part ≡ filter (λ text. is_line_of is_of_machine_level_by_sources
        (reading text)) (texts_of script)
        → answers_among is_of_machine_level_by_sources [] (texts_of script) ≡ answers part }
    ensures two_scripts { (script other : List ℕ)
        → filter (λ text. is_line_of is_of_machine_level_by_sources (reading text))
        (texts_of script)
        ≡ filter (λ text. is_line_of is_of_machine_level_by_sources (reading text))
        (texts_of other)
        → answers_among is_of_machine_level_by_sources [] (texts_of script)
        ≡ answers_among is_of_machine_level_by_sources [] (texts_of other) }
{
    the_machine_level_is_answered_by_its_lines_and_by_passes();
}

/// The host loads and stores at its own file, while the hypervisor injects an interrupt.
pub const HOST_AT_ITS_FILE: &str = "machine 1 2 63 8
vm 1 0x8 0
ld 0x24000000
st 0x24000000 3
inject 0 0 5 1
";

/// What is left of it for the VM.
pub const INJECTED: &str = "machine 1 2 63 8
vm 1 0x8 0
inject 0 0 5 1
";

/// One script that passes a source, beside what is left of it for VM 0 and for the machine level;
/// and one where the host loads and stores at its file, on which nothing for the VM depends.
pub fn one_script_beside_its_parts()
    ensures vm { answers_to (concerns_by_sources 0) BESIDE.now ≡ answers BESIDE_VM.now }
    ensures vm_in_two { answers_to (concerns_by_sources 0) BESIDE.now
        ≡ answers_to (concerns_by_sources 0) BESIDE_VM.now }
    ensures host { answers_to (concerns_by_sources 0) HOST_AT_ITS_FILE.now
        ≡ answers INJECTED.now }
    ensures machine { answers_to is_of_machine_level_by_sources BESIDE.now
        ≡ answers BESIDE_MACHINE.now }
    ensures machine_in_two { answers_to is_of_machine_level_by_sources BESIDE.now
        ≡ answers_to is_of_machine_level_by_sources BESIDE_MACHINE.now }
{
    a_vm_is_answered_by_its_lines_and_by_what_is_sent();
    the_machine_level_is_answered_by_its_lines_and_by_passes();
}

/// What a VM is answered where sources are passed otherwise, after histories that look alike to it.
pub fn what_a_pass_tells()
    ensures lines { (v : ℕ) (line : Line) (h k : History) → concerns v line ≡ true
        → machine_of h ≡ machine_of k → vms_of h ≡ vms_of k
        → ((x : Vcpu) → home h x ≡ home k x) → length (flight h v) ≡ length (flight k v)
        → ((x : Vcpu) → x.vm ≡ v → state_of h x ≡ state_of k x)
        → answer h line ≡ answer k line }
    ensures passes { (v : ℕ) (h k : History) (source vm vcpu identity : ℕ)
        → machine_of h ≡ machine_of k → vms_of h ≡ vms_of k
        → ((x : Vcpu) → home h x ≡ home k x) → length (flight h v) ≡ length (flight k v)
        → ((x : Vcpu) → x.vm ≡ v → state_of h x ≡ state_of k x)
        → is_passable (acts_of h) source ≡ is_passable (acts_of k) source
        → refusal h (lines.Pass source vm vcpu identity) ≡ None
        → (refusal k (lines.Pass source vm vcpu identity) ≡ None)
        ⊎ ((refusal k (lines.Pass source vm vcpu identity) ≡ Some (Refused Full))
        ⊎ (refusal k (lines.Pass source vm vcpu identity) ≡ Some (Refused Passed))) }
    ensures counted { (v : ℕ) (h k : History) (source vm vcpu identity : ℕ)
        → machine_of h ≡ machine_of k → vms_of h ≡ vms_of k
        → ((x : Vcpu) → home h x ≡ home k x) → length (flight h v) ≡ length (flight k v)
        → ((x : Vcpu) → x.vm ≡ v → state_of h x ≡ state_of k x)
        → is_passable (acts_of h) source ≡ is_passable (acts_of k) source
        → length (passes_of h) ≡ length (passes_of k) → is_passed h source ≡ is_passed k source
        → refusal h (lines.Pass source vm vcpu identity)
        ≡ refusal k (lines.Pass source vm vcpu identity) }
{
    a_pass_tells_a_vm_that_it_came();
}

/// A pass to any virtual hart is not seen by the next instruction of one.
pub fn a_pass_is_not_seen_at_once()
    ensures { (h : History) (source vm vcpu identity : ℕ) (g : Vcpu) (csr : Csr) (op : Op)
        → answer (Accepted (lines.Pass source vm vcpu identity) ∷ h)
        (lines.GuestCsr g.vm g.vcpu csr op)
        ≡ answer h (lines.GuestCsr g.vm g.vcpu csr op) }
{
    a_pass_tells_a_vm_that_it_came();
}
