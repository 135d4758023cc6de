//! What the definitions of this crate mean, as laws: each function does nothing, and its clauses
//! are what was proved.
// Words that are written out are computed.
#![tactic(auto, unfolding(clap::proofs::OnLiterals::clap_on_literals, crate::specs::CommandLine::the_command, crate::specs::CommandLine::subcommand_of))]

ghost use Rattle.std.specs.Prelude.{◌≡◌, [], ◌∷◌, Some, None, codes};
ghost use Rattle.aia_io.specs.Commands.{RefusesOthers};
ghost use Rattle.plans_text.specs.CommandLine.{subcommand_of};

use crate::command_line::PlansSubcommand;

/// The word `judge` is taken, with the delimiter `--` after it or not.
pub fn judge_is_taken()
    ensures alone { subcommand_of (codes "judge" ∷ []) ≡ Some PlansSubcommand.Judge }
    ensures delimiter { subcommand_of (codes "judge" ∷ codes "--" ∷ [])
        ≡ Some PlansSubcommand.Judge }
{}

/// These words, which are not just `judge`, are refused; so are requests for help and for the
/// version.
pub fn other_words_are_refused()
    ensures others { RefusesOthers subcommand_of }
    ensures front { subcommand_of (codes "judg" ∷ []) ≡ None }
    ensures great_letter { subcommand_of (codes "Judge" ∷ []) ≡ None }
    ensures judge_with_a_word { subcommand_of (codes "judge" ∷ codes "x" ∷ []) ≡ None }
    ensures judge_twice { subcommand_of (codes "judge" ∷ codes "judge" ∷ []) ≡ None }
{}
