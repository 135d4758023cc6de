//! The tests of whole runs: the engine and the ends called by themselves, scripts that are cut,
//! ends that fail, and plans that are rehearsed.
#![tactic(auto)]

#[cfg(test)]
mod cut_scripts;
#[cfg(test)]
mod ends;
#[cfg(test)]
mod engine;
#[cfg(test)]
mod failing_calls;
#[cfg(test)]
mod failing_ends;
#[cfg(test)]
mod generated;
#[cfg(test)]
mod longest_scripts;
#[cfg(test)]
mod looks;
#[cfg(test)]
mod outcomes;
#[cfg(test)]
mod plans;
#[cfg(test)]
mod rehearsals;
#[cfg(test)]
mod rows;
#[cfg(test)]
mod runs;
