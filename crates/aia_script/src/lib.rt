//! A script's text: what line a text spells, and how an answer is printed. A plan's text: what step
//! a text spells.
//!
//! `aia_model` states the grammar as a table of forms.
#![tactic(auto)]

mod forms;
mod instructions;
mod number;
mod parse;
mod parts;
mod pieces;
mod print;
mod rows;
mod steps;
mod words;

pub use aia_model::{Answer, Line, Parsed, Part, Refusal, Want};
pub use aia_plan::{Kind, Step};
pub use aia_regs::{Csr, Op};
pub use forms::print_line;
pub use parse::{is_skipped, parse_line};
pub use print::{print_answer, push_answer};
pub use steps::parse_step;
