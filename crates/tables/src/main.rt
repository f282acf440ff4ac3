// Prints the tables that documents, header and C programs repeat, as the proved code has them: sizes, the state's places, the rows of the table of
// numbers, the commands. tools/tables holds those files to what is printed here.
#![tactic(auto)]

mod commands;
mod rows;
mod sizes;

use std::io;

fn main(rt: HostRuntime) -> io::Result<()> {
    sizes::sizes(&rt)?;
    sizes::places(&rt)?;
    rows::rows(&rt)?;
    commands::commands(&rt)
}
