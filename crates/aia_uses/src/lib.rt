//! The laws of `aia_laws` and `aia_isolation` in use: what follows from each of their clauses, by
//! it alone. A use calls its law, and its answer applies the clause, so a law that says less is
//! noticed: some uses spell the clause out, words of the law's crate replaced by what they say;
//! others are worked at one history, where all premises hold. Nothing rests on them.
#![tactic(auto)]

pub mod alone;
pub mod beside;
pub mod carrying;
pub mod claims;
pub mod forwards;
pub mod hearing;
pub mod hosts;
pub mod images;
pub mod moves;
pub mod notices;
pub mod passed;
pub mod requests;
pub mod serving;
pub mod told;
pub mod words;
