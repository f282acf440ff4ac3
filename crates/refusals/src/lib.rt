// What comes before an accepted call does anything: the command byte decoded, and the first refusal found.
#![tactic(auto)]

pub mod commands;
pub mod order;
