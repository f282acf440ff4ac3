// Document 01, "Commands": a byte decoded, and what the refusals ask of a command.
ghost use Rattle.std.specs.Prelude.{◌≡◌, cond, leb};
ghost use Rattle.numbers.specs.Sizes.{legend_size};
ghost use Rattle.movement.specs.declared.Motion.TheVariants.{Skip};
ghost use Rattle.calls.specs.declared.Command.TheVariants.{Write, Move, Unlisted};
ghost use Rattle.calls.specs.Commands.{nnnn, skips, decode, traits_of, is_unlisted, is_load};

use calls::{Command, Control, Load};
use movement::Motion;
use numbers::Stores;

// A skip: 1nnnn and three low bits, nnnn from 1 to 12.
fn is_skip(byte: u8, low: u8) -> bool
    ensures { result ≡ skips byte low }
{
    (byte / 128 == 1) & (byte % 8 == low) & (1..=12).contains(&(byte / 8 % 16))
}

// What a byte that is not listed by itself is: a skip, or no command.
fn skip_of(byte: u8) -> Command
    ensures { result ≡ cond (skips byte 1) (Write (Skip (nnnn byte))) (cond (skips byte 3) (Move (Skip (nnnn byte))) Unlisted) }
{
    let channel = byte / 8 % 16;
    if is_skip(byte, 1) {
        Command::Write(Motion::Skip(channel))
    } else if is_skip(byte, 3) {
        Command::Move(Motion::Skip(channel))
    } else {
        Command::Unlisted
    }
}

// No byte that is listed by itself is a skip, so those bytes come first: one jump on the byte.
#[tactic(auto, unfolding(calls::specs::Commands::codes, calls::specs::Commands::look_up, calls::specs::Commands::decode))]
pub fn decode(byte: u8) -> Command
    ensures { result ≡ decode byte }
{
    match byte {
        0x01 => Command::Write(Motion::Space(0)),
        0x09 => Command::Write(Motion::Space(1)),
        0x11 => Command::Write(Motion::Space(2)),
        0x19 => Command::Write(Motion::Space(3)),
        0x0B => Command::Move(Motion::Space(1)),
        0x13 => Command::Move(Motion::Space(2)),
        0x1B => Command::Move(Motion::Space(3)),
        0x03 => Command::Controls(Control::NoOp),
        0x04 => Command::Controls(Control::SenseIo),
        0x37 => Command::Controls(Control::Initialize),
        0x87 => Command::Controls(Control::Clear),
        0x73 => Command::Controls(Control::Block),
        0x7B => Command::Controls(Control::Allow),
        0x47 => Command::Controls(Control::Select(0)),
        0x57 => Command::Controls(Control::Select(1)),
        0x67 => Command::Controls(Control::Select(2)),
        0x77 => Command::Controls(Control::Select(3)),
        0x63 => Command::Loads(Load::Fcb),
        0x83 => Command::Loads(Load::TranslateTable),
        0x35 => Command::Loads(Load::CopyModification),
        0x43 => Command::Loads(Load::OverlaySequence),
        0x23 => Command::Loads(Load::CopyNumber),
        _ => skip_of(byte),
    }
}

// What the refusals ask of a command: whether it is not listed, is quiet, replies, is a load.
#[tactic(auto, unfolding(calls::specs::Commands::traits_of, calls::specs::Commands::control_traits))]
pub(crate) fn is_quiet(command: Command) -> bool
    ensures { result ≡ (traits_of command).quiet }
{
    matches!(command, Command::Controls(Control::NoOp | Control::SenseIo))
}

#[tactic(auto, unfolding(calls::specs::Commands::traits_of, calls::specs::Commands::control_traits))]
pub(crate) fn replies(command: Command) -> bool
    ensures { result ≡ (traits_of command).replies }
{
    matches!(command, Command::Controls(Control::SenseIo))
}

pub(crate) fn is_load(command: Command) -> bool
    ensures { result ≡ is_load command }
{
    matches!(command, Command::Loads(load))
}

pub(crate) fn is_unlisted(command: Command) -> bool
    ensures { result ≡ is_unlisted command }
{
    matches!(command, Command::Unlisted)
}

// The byte count that a load check can show. A longer record is refused before its load checks it.
pub fn shown_count(n: usize) -> u16
    ensures { result ≡ cond (leb n legend_size) n 0 }
{
    if n <= Stores::LEGEND_BYTES {
        n as u16
    } else {
        0
    }
}
