// What the program `rows` knows of its script: a line read, the stores that it speaks of, and what is printed of a call. It calls no printer: it uses
// the sizes of the stores, and where sense and line stand in the state.
#![tactic(auto)]

pub mod show;
pub mod stores;
pub mod words;
