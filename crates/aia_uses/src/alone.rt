//! What scripts answer to a virtual hart, to a VM, and to the machine level.

ghost use Rattle.std.specs.Prelude.{◌≡◌, ◌∷◌, ℕ, Bool, false, List, [], reverse, nat_eq};
ghost use Rattle.std.specs.List.{filter};
ghost use Rattle.aia_vcpu.specs.Vms.{Vcpu};
ghost use Rattle.aia_model.specs.declared.line.Line.{Line};
ghost use Rattle.aia_model.specs.declared.line.Line.TheVariants as lines;
ghost use Rattle.aia_model.specs.declared.parsed.Parsed.TheVariants as parsed;
ghost use Rattle.aia_model.specs.Event.{History};
ghost use Rattle.aia_model.specs.Event.Event.{Accepted, Began, Stepped, Landed};
ghost use Rattle.aia_model.specs.Move.{WantedMove};
ghost use Rattle.aia_model.specs.MajorOf.{majors_of};
ghost use Rattle.aia_model.specs.GuestFile.{guest_file, guest_select};
ghost use Rattle.aia_model.specs.Passes.{passes_of};
ghost use Rattle.aia_model.specs.Reading.{reading};
ghost use Rattle.aia_model.specs.Text.{texts_of};
ghost use Rattle.aia_model.specs.Script.{history_of, answers_from, answers};
ghost use Rattle.aia_isolation.specs.Said.{said};
ghost use Rattle.aia_isolation.specs.Replies.{replies, script_replies};
ghost use Rattle.aia_isolation.specs.Concerns.{concerns, is_of_machine_level, events_for};
ghost use Rattle.aia_isolation.specs.Parts.{is_line_of, answers_among};

use aia_isolation::scripts::{
    a_vm_is_answered_as_if_it_were_alone, moves_and_others_are_not_seen,
    scripts_that_say_the_same_answer_the_same,
    the_machine_level_is_answered_as_if_there_were_no_vm,
};

/// What a script answers to a virtual hart.
pub fn what_a_script_answers()
    ensures answered { (script : List ℕ) (g : Vcpu)
        → script_replies script g ≡ reverse (replies (history_of script) g) }
    ensures two_scripts { (script other : List ℕ) (g x : Vcpu)
        → said (history_of script) g ≡ said (history_of other) x
        → script_replies script g ≡ script_replies other x }
{
    scripts_that_say_the_same_answer_the_same();
}

/// What a virtual hart cannot tell: what concerns its VM no more than a move or a wire does.
pub fn what_is_not_seen()
    ensures guest { (h k : History) (g : Vcpu) → events_for g.vm h ≡ events_for g.vm k
        → (guest_file h g ≡ guest_file k g) × (guest_select h g ≡ guest_select k g)
        × (majors_of h g ≡ majors_of k g) }
    ensures replies { (h k : History) (g : Vcpu) → events_for g.vm h ≡ events_for g.vm k
        → replies h g ≡ replies k g }
    ensures scripts { (script other : List ℕ) (g : Vcpu)
        → events_for g.vm (history_of script) ≡ events_for g.vm (history_of other)
        → script_replies script g ≡ script_replies other g }
    ensures begun { (h : History) (move : WantedMove) (g : Vcpu)
        → guest_file (Began move ∷ h) g ≡ guest_file h g }
    ensures stepped { (h : History) (x g : Vcpu)
        → guest_file (Stepped x ∷ h) g ≡ guest_file h g }
    ensures entered { (h : History) (vm vcpu : ℕ) (g : Vcpu)
        → replies (Accepted (lines.Enter vm vcpu) ∷ h) g ≡ replies h g }
    ensures saved { (h : History) (vm vcpu k : ℕ) (g : Vcpu)
        → guest_file (Accepted (lines.Save vm vcpu k) ∷ h) g ≡ guest_file h g }
    ensures wired { (h : History) (source : ℕ) (level : Bool) (g : Vcpu)
        → guest_file (Accepted (lines.Wire source level) ∷ h) g ≡ guest_file h g }
    ensures others { (h : History) (vm addr value : ℕ) (g : Vcpu) → nat_eq vm g.vm ≡ false
        → guest_file (Accepted (lines.Msi vm addr value) ∷ h) g ≡ guest_file h g }
    ensures landed { (h : History) (vm k : ℕ) (g : Vcpu) → nat_eq vm g.vm ≡ false
        → guest_file (Landed vm k ∷ h) g ≡ guest_file h g }
{
    moves_and_others_are_not_seen();
}

/// A text that is skipped, or bad, passes no test. This stands by itself, on the definition.
pub fn what_is_no_line()
    ensures skipped { (test : Line → Bool) → is_line_of test parsed.Skip ≡ false }
    ensures bad { (test : Line → Bool) → is_line_of test parsed.Bad ≡ false }
{}

/// What a VM is answered, by only the texts that concern it.
pub fn what_a_vm_is_answered()
    ensures left_out { (v : ℕ) (script : List ℕ) → passes_of (history_of script) ≡ []
        → answers_among (concerns v) [] (texts_of script)
        ≡ answers_from [] (filter (λ text. is_line_of (concerns v) (reading text))
        (texts_of script)) }
    ensures alone { (v : ℕ) (script part : List ℕ) → passes_of (history_of script) ≡ []
        → texts_of part
        ≡ filter (λ text. is_line_of (concerns v) (reading text)) (texts_of script)
        → answers_among (concerns v) [] (texts_of script) ≡ answers part }
    ensures two_scripts { (v : ℕ) (script other : List ℕ)
        → passes_of (history_of script) ≡ [] → passes_of (history_of other) ≡ []
        → filter (λ text. is_line_of (concerns v) (reading text)) (texts_of script)
        ≡ filter (λ text. is_line_of (concerns v) (reading text)) (texts_of other)
        → answers_among (concerns v) [] (texts_of script)
        ≡ answers_among (concerns v) [] (texts_of other) }
{
    a_vm_is_answered_as_if_it_were_alone();
}

/// What the machine level is answered, by only its own texts.
pub fn what_the_machine_level_is_answered()
    ensures left_out { (script : List ℕ) → passes_of (history_of script) ≡ []
        → answers_among is_of_machine_level [] (texts_of script)
        ≡ answers_from [] (filter (λ text. is_line_of is_of_machine_level (reading text))
        (texts_of script)) }
    ensures alone { (script part : List ℕ) → passes_of (history_of script) ≡ []
        → texts_of part
        ≡ filter (λ text. is_line_of is_of_machine_level (reading text)) (texts_of script)
        → answers_among is_of_machine_level [] (texts_of script) ≡ answers part }
    ensures two_scripts { (script other : List ℕ)
        → passes_of (history_of script) ≡ [] → passes_of (history_of other) ≡ []
        → filter (λ text. is_line_of is_of_machine_level (reading text)) (texts_of script)
        ≡ filter (λ text. is_line_of is_of_machine_level (reading text)) (texts_of other)
        → answers_among is_of_machine_level [] (texts_of script)
        ≡ answers_among is_of_machine_level [] (texts_of other) }
{
    the_machine_level_is_answered_as_if_there_were_no_vm();
}
