//! What the definitions of this crate mean, as laws: each function does nothing, and its clauses
//! are what was proved.
// Words that are written out are computed.
#![tactic(auto, unfolding(clap::proofs::OnLiterals::clap_on_literals, crate::specs::CommandLine::the_command, crate::specs::CommandLine::subcommand_of))]

ghost use Rattle.std.specs.Prelude.{◌≡◌, ◌^◌, ◌<◌, ◌≤◌, ◌⊎◌, ◌↔◌, ℕ, List, [], ◌∷◌, Option, Some, None, codes, slice_get};
ghost use Rattle.std.specs.Fmt.{decimal};
ghost use Rattle.std.specs.Str.Parse.{IsNumeral, digits_value, without_leading_plus};
ghost use Rattle.aia_io.specs.Commands.{RefusesOthers};
ghost use Rattle.aia_command.specs.CommandLine.{number_up_to, subcommand_of};
ghost use Rattle.aia_command.specs.Spelled.{kind_word, subcommand_spelled};
ghost use Rattle.aia_plan.specs.Plan.{IsWidth};

use crate::limits::MOST_LINES;
use crate::subcommand::Subcommand;
use aia_plan::Kind;

/// A generated script has at most 100,000 lines after its head.
pub fn limits()
    ensures most_lines { MOST_LINES ≡ 100000 }
{}

/// What words ask for is what they spell: `replay` and nothing more, or `gen` and two numbers, or
/// `audit`, the word of a kind of move and a width. The delimiter `--` may stand once, anywhere
/// after the subcommand, and says nothing. All else is refused.
pub fn words_ask_for_what_they_spell()
    ensures { (words : List (List ℕ)) → subcommand_of words ≡ subcommand_spelled words }
{}

/// A number is spelled by one digit or more, leading zeros or none, and a plus before them or none.
pub fn a_number_is_digits()
    ensures { (most n : ℕ) (text : List ℕ) → (number_up_to most text ≡ Some n)
        ↔ (IsNumeral 10 (without_leading_plus text)
        × (digits_value 10 (without_leading_plus text) ≡ n) × (n ≤ most) × (n < 2 ^ 64)) }
{}

/// Where words are taken, the first of them is `replay`, `gen` or `audit`, written out.
pub fn a_subcommand_comes_first()
    ensures { (words : List (List ℕ)) (asked : Subcommand) → subcommand_of words ≡ Some asked
        → (slice_get words 0 ≡ Some (codes "replay"))
        ⊎ ((slice_get words 0 ≡ Some (codes "gen")) ⊎ (slice_get words 0 ≡ Some (codes "audit"))) }
{}

/// Numbers that are asked for are in their ranges.
pub fn numbers_are_in_range()
    ensures count { (words : List (List ℕ)) (count seed : ℕ)
        → subcommand_of words ≡ Some (Subcommand.Generate count seed) → count ≤ MOST_LINES }
    ensures seed { (words : List (List ℕ)) (count seed : ℕ)
        → subcommand_of words ≡ Some (Subcommand.Generate count seed) → seed < 2 ^ 64 }
    ensures width { (words : List (List ℕ)) (kind : Kind) (width : ℕ)
        → subcommand_of words ≡ Some (Subcommand.Audit kind width) → IsWidth width }
{}

/// The word `replay` is taken, with the delimiter after it or not.
pub fn replay_is_taken()
    ensures alone { subcommand_of (codes "replay" ∷ []) ≡ Some Subcommand.Replay }
    ensures delimiter { subcommand_of (codes "replay" ∷ codes "--" ∷ [])
        ≡ Some Subcommand.Replay }
{}

/// The word `gen` is taken with any two numbers in their ranges, as they are printed or in any
/// other digits.
pub fn numbers_are_taken()
    ensures printed { (count seed : ℕ) → count ≤ MOST_LINES → seed < 2 ^ 64
        → subcommand_of (codes "gen" ∷ decimal count ∷ decimal seed ∷ [])
        ≡ Some (Subcommand.Generate count seed) }
    ensures digits { (count seed : List ℕ) → IsNumeral 10 count → IsNumeral 10 seed
        → digits_value 10 count ≤ MOST_LINES → digits_value 10 seed < 2 ^ 64
        → subcommand_of (codes "gen" ∷ count ∷ seed ∷ [])
        ≡ Some (Subcommand.Generate (digits_value 10 count) (digits_value 10 seed)) }
    ensures zero_in_front { subcommand_of (codes "gen" ∷ codes "01" ∷ codes "1" ∷ [])
        ≡ Some (Subcommand.Generate 1 1) }
    ensures plus_in_front { subcommand_of (codes "gen" ∷ codes "+1" ∷ codes "1" ∷ [])
        ≡ Some (Subcommand.Generate 1 1) }
    ensures delimiter { subcommand_of (codes "gen" ∷ codes "--" ∷ codes "1" ∷ codes "1" ∷ [])
        ≡ Some (Subcommand.Generate 1 1) }
{}

/// The word `audit` is taken with the word of each kind of move and each width, as it is printed;
/// and so are three other spellings of the width 1.
pub fn plans_are_taken()
    ensures printed { (kind : Kind) (words : ℕ) → IsWidth words
        → subcommand_of (codes "audit" ∷ kind_word kind ∷ decimal words ∷ [])
        ≡ Some (Subcommand.Audit kind words) }
    ensures leave { subcommand_of (codes "audit" ∷ codes "leave" ∷ codes "1" ∷ [])
        ≡ Some (Subcommand.Audit Kind.Leave 1) }
    ensures arrive { subcommand_of (codes "audit" ∷ codes "arrive" ∷ codes "16" ∷ [])
        ≡ Some (Subcommand.Audit Kind.Arrive 16) }
    ensures shift { subcommand_of (codes "audit" ∷ codes "shift" ∷ codes "32" ∷ [])
        ≡ Some (Subcommand.Audit Kind.Shift 32) }
    ensures zero_in_front { subcommand_of (codes "audit" ∷ codes "leave" ∷ codes "01" ∷ [])
        ≡ Some (Subcommand.Audit Kind.Leave 1) }
    ensures plus_in_front { subcommand_of (codes "audit" ∷ codes "leave" ∷ codes "+1" ∷ [])
        ≡ Some (Subcommand.Audit Kind.Leave 1) }
    ensures delimiter { subcommand_of (codes "audit" ∷ codes "leave" ∷ codes "--" ∷ codes "1" ∷ [])
        ≡ Some (Subcommand.Audit Kind.Leave 1) }
{}

/// These words, which are no subcommand with its arguments, are refused; so are requests for help
/// and for the version.
pub fn other_words_are_refused()
    ensures others { RefusesOthers subcommand_of }
    ensures replay_with_a_word { subcommand_of (codes "replay" ∷ codes "x" ∷ []) ≡ None }
    ensures replay_twice { subcommand_of (codes "replay" ∷ codes "replay" ∷ []) ≡ None }
    ensures no_count { subcommand_of (codes "gen" ∷ []) ≡ None }
    ensures no_seed { subcommand_of (codes "gen" ∷ codes "1" ∷ []) ≡ None }
    ensures three_numbers { subcommand_of (codes "gen" ∷ codes "1" ∷ codes "2" ∷ codes "3" ∷ [])
        ≡ None }
    ensures no_digits { subcommand_of (codes "gen" ∷ codes "x" ∷ codes "1" ∷ []) ≡ None }
    ensures below_zero { subcommand_of (codes "gen" ∷ codes "-1" ∷ codes "1" ∷ []) ≡ None }
    ensures too_many_lines { subcommand_of (codes "gen" ∷ codes "100001" ∷ codes "0" ∷ [])
        ≡ None }
    ensures too_great_a_seed { subcommand_of (codes "gen" ∷ codes "1"
        ∷ codes "18446744073709551616" ∷ []) ≡ None }
    ensures no_kind { subcommand_of (codes "audit" ∷ []) ≡ None }
    ensures no_width { subcommand_of (codes "audit" ∷ codes "leave" ∷ []) ≡ None }
    ensures other_kind { subcommand_of (codes "audit" ∷ codes "x" ∷ codes "1" ∷ []) ≡ None }
    ensures great_letter { subcommand_of (codes "audit" ∷ codes "Leave" ∷ codes "1" ∷ [])
        ≡ None }
    ensures front_of_a_kind { subcommand_of (codes "audit" ∷ codes "leav" ∷ codes "1" ∷ [])
        ≡ None }
    ensures empty_kind { subcommand_of (codes "audit" ∷ codes "" ∷ codes "1" ∷ []) ≡ None }
    ensures width_first { subcommand_of (codes "audit" ∷ codes "1" ∷ codes "leave" ∷ []) ≡ None }
    ensures width_0 { subcommand_of (codes "audit" ∷ codes "shift" ∷ codes "0" ∷ []) ≡ None }
    ensures width_3 { subcommand_of (codes "audit" ∷ codes "shift" ∷ codes "3" ∷ []) ≡ None }
    ensures width_64 { subcommand_of (codes "audit" ∷ codes "shift" ∷ codes "64" ∷ []) ≡ None }
    ensures no_number { subcommand_of (codes "audit" ∷ codes "shift" ∷ codes "0x1" ∷ []) ≡ None }
    ensures two_widths { subcommand_of (codes "audit" ∷ codes "leave" ∷ codes "1" ∷ codes "1" ∷ [])
        ≡ None }
{}
