//! Laws of calls one after another: each function does nothing, and its clauses are what is proved.

ghost use Rattle.std.specs.Prelude.{◌≡◌, ℕ, ℤ, List, [], ◌∷◌, ◌++◌, Some};
ghost use Rattle.aia_model.specs.declared.answer.Answer.{Answer};
ghost use Rattle.aia_model.specs.declared.line.Line.{Line};
ghost use Rattle.aia_model.specs.declared.parsed.Parsed.TheVariants as parsed;
ghost use Rattle.aia_model.specs.Reading.{reading};
ghost use Rattle.aia_model.specs.Script.{answers, history_of};
ghost use Rattle.aia_replay.specs.Runs.{NoEnd};
ghost use Rattle.aia_replay.specs.Stands.{EngineState, StandsFor};
ghost use Rattle.aia_c.specs.declared.code.Code.TheVariants.{Done};
ghost use Rattle.aia_c.specs.Codes.{number, code_of, answer_of};
ghost use Rattle.aia_c.specs.Calls.{Gives, Answers, Does};
ghost use Rattle.aia_c.specs.Joined.{Call, AreAnswered, AreDone, DoesText, script_of, bytes_of, left_by};

/// What calls with texts and scripts write, from an engine with no machine on, is what the program
/// answers to all their lines as one script; and the engine then stands for that script's history.
pub fn calls_answer_the_joined_script()
    ensures answers { (old : EngineState) (calls : List Call) → StandsFor old []
        → AreAnswered old calls → bytes_of calls ≡ answers (script_of calls) }
    ensures stands { (old : EngineState) (calls : List Call) → StandsFor old []
        → AreAnswered old calls → StandsFor (left_by old calls) (history_of (script_of calls)) }
{}

/// Calls of all kinds, with text and without, from an engine with no machine on, leave an engine
/// that stands for the history of all their lines as one script.
pub fn calls_of_all_kinds_make_one_history()
    ensures { (old : EngineState) (calls : List Call) → StandsFor old []
        → AreDone old calls → StandsFor (left_by old calls) (history_of (script_of calls)) }
{}

/// A call with a text answers the script of that one line.
pub fn a_text_is_a_script_of_one_line()
    ensures { (old new : EngineState) (text bytes : List ℕ) → NoEnd text
        → Gives old new text bytes → Answers old new (text ++ 10 ∷ []) bytes }
{}

/// A call without text does what a text that spells its line does: it answers the code of that
/// text's answer, and the engine then stands for the history after it.
pub fn a_call_without_text_is_its_line()
    ensures { (old new : EngineState) (line : Line) (text : List ℕ) (code : ℤ) → NoEnd text
        → reading text ≡ parsed.Line line → Does old new line code → DoesText old new text code }
{}

/// The word of a code is that of the answers that have it: each answer but those of `Done` is the
/// answer of its own code, and of no other number.
pub fn a_code_is_named_as_its_answers()
    ensures each { (answer : Answer) → ¬ (code_of answer ≡ Done)
        → answer_of (number (code_of answer)) ≡ Some answer }
    ensures only { (code : ℤ) (answer : Answer) → answer_of code ≡ Some answer
        → number (code_of answer) ≡ code }
{}
