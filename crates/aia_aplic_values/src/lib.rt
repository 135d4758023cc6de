//! What an APLIC keeps of the wired sources, when that stands for what happened to them, and what
//! it sends. Laws alone: each function does nothing, and its clauses are what was proved.
#![tactic(auto)]

pub mod laws;
