// The printer by value: its state beside its sense, with a method for each command, for a copy, a release and a start. What refuses a call comes
// before, in `refusals`.
#![tactic(auto)]

mod controls;
mod layout;
mod loads;
mod moves;
mod pages;
mod starting;

use calls::State;
use numbers::{Answer, Sense};

#[derive(Clone, Copy)]
pub struct Printer {
    pub state: State,
    pub sense: Sense,
}

// What a call hands back: the state beside the answer.
#[derive(Clone, Copy)]
pub struct Step {
    pub printer: Printer,
    pub answer: Answer,
}
