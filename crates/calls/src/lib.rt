// Document 01, "Calls", "Commands", "Reset and sense": what a printer holds, and what it is told to do.
#![tactic(auto)]

ghost use Rattle.std.specs.Prelude.{◌≡◌};
ghost use Rattle.calls.specs.Core.{started};

use copies::Copies;
use counters::Counters;
use form::Forms;
use line::Slots;
use movement::Motion;

// What Start is asked for, the numbers as they were passed.
#[derive(Clone, Copy)]
pub struct Asked {
    pub length: u32,
    pub pitches: [u32; 4],
    pub skip: u32,
}

// What Start fixes: the form length in 24ths of an inch, the pitch of each module, 0 if it is not fitted, and whether immediate skips go the old way (T-05).
#[derive(Clone, Copy)]
pub struct Fixed {
    pub length: u16,
    pub pitches: [u8; 4],
    pub old: bool,
}

impl Fixed {
    // The two ways, as Start is asked for them.
    pub const NEW_WAY: u32 = 0;

    pub const OLD_WAY: u32 = 1;
}

// The form and the page in work: the current line, whether it is written on, whether a completed page waits, and whether its
// Release is to reset. Lines are only left forwards, so whether another line is written is never asked. Flags, as the state's bytes have them.
#[derive(Clone, Copy)]
pub struct Sheet {
    pub line: u8,
    pub written: bool,
    pub waiting: bool,
    pub due: bool,
}

// The printer's state, except its sense.
#[derive(Clone, Copy)]
pub struct State {
    pub fixed: Fixed,
    pub blocked: bool,
    pub forms: Forms,
    pub slots: Slots,
    pub copies: Copies,
    pub sheet: Sheet,
    pub counters: Counters,
}

// A command byte, decoded. Write is write and space or skip, Move the immediate form of both. Unlisted is a case, as the definitions and the orders have it.
#[derive(Clone, Copy)]
pub enum Command {
    Write(Motion),
    Move(Motion),
    Controls(Control),
    Loads(Load),
    Unlisted,
}

#[derive(Clone, Copy)]
pub enum Control {
    NoOp,
    SenseIo,
    Initialize,
    Clear,
    Block,
    Allow,
    Select(u8),
}

#[derive(Clone, Copy)]
pub enum Load {
    Fcb,
    TranslateTable,
    CopyModification,
    OverlaySequence,
    CopyNumber,
}

#[tactic(auto, unfolding(crate::specs::Core::started))]
pub fn is_started(sheet: Sheet) -> bool
    ensures { result ≡ started sheet }
{
    sheet.line != 1 || sheet.written
}
