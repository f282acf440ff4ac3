// A printer and an answer as a C host holds them: the state's bytes, judged and decoded and put back, and the answer's one number.
#![tactic(auto)]

pub mod answer;
pub mod codec;
pub mod judge;

use printer::Printer;

// A state's bytes, as docs/STATE.md lays them out.
pub type Bytes = [u8; Printer::STATE_BYTES];
