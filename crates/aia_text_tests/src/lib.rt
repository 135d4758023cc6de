//! The tests of texts: the words of the command line, lines and steps of plans that are read, lines
//! and answers that are printed, generated scripts, and plans that are judged, each with ample
//! memory.
#![tactic(auto)]

#[cfg(test)]
mod command_lines;
#[cfg(test)]
mod generated_scripts;
#[cfg(test)]
mod looks;
#[cfg(test)]
mod plans;
#[cfg(test)]
mod spellings;
