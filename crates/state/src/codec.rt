// docs/STATE.md: the state's bytes, and back.
ghost use Rattle.std.specs.Prelude.{◌≡◌, ◌++◌, take, drop, leb, is_some, IfSome};
ghost use Rattle.seq.specs.Words.{all};
ghost use Rattle.printer.specs.Layout.{pairs_at, fcb_at, sheet_at, channel_at};
ghost use Rattle.state.specs.State.{front_bytes, sheet_bytes, small_bytes, counter_bytes, printer_bytes, byte_at, flag_places, readable, state_at, printer_at};
ghost use Rattle.state.specs.State.{OwnSheet, SameArrays, OwnCounters};

use crate::Bytes;
use calls::{Fixed, Sheet, State};
use copies::Copies;
use counters::Counters;
use form::Forms;
use line::Slots;
use numbers::{Answer, Sense};
use printer::{Printer, Step};

// Each flag is 0 or 1. Tested without a branch, as every call asks it.
fn flags_ok(s: &Bytes) -> bool
    ensures { result ≡ all (λ n. leb (byte_at s.now n) 1) flag_places }
{
    (s[Printer::SKIP_AT] <= 1)
        & (s[Printer::BLOCKED_AT] <= 1)
        & (s[Printer::LOADED_AT] <= 1)
        & (s[Printer::LOADED_AT + 1] <= 1)
        & (s[Printer::LOADED_AT + 2] <= 1)
        & (s[Printer::LOADED_AT + 3] <= 1)
        & (s[Printer::WRITTEN_AT] <= 1)
        & (s[Printer::WAITING_AT] <= 1)
        & (s[Printer::DUE_AT] <= 1)
}

// A state's bytes, where they stand for a printer.
#[tactic(auto, unfolding(crate::specs::State::readable, seq::specs::Words::every))]
pub(crate) fn readable(s: &[u8]) -> Option<&Bytes>
    ensures variant { is_some result ≡ readable s.now }
    ensures same { IfSome result (λ bytes. bytes.now ≡ s.now) }
{
    let bytes = s.as_array()?;
    flags_ok(bytes).then_some(bytes)
}

// What Start fixed, and the sheet: all that the order of a command's refusals asks of a state.
#[tactic(auto, unfolding(crate::specs::State::state_at))]
pub fn fixed(s: &Bytes) -> Fixed
    ensures { result ≡ (state_at s.now).fixed }
{
    Fixed {
        length: u16::from_be_bytes([s[Printer::LENGTH_AT], s[Printer::LENGTH_AT + 1]]),
        pitches: *s[Printer::PITCHES_AT..Printer::SKIP_AT].as_array().unwrap(),
        old: s[Printer::SKIP_AT] == 1,
    }
}

#[tactic(auto, unfolding(crate::specs::State::state_at))]
pub fn sheet(s: &Bytes) -> Sheet
    ensures { result ≡ (state_at s.now).sheet }
{
    Sheet {
        line: s[Printer::SHEET_AT],
        written: s[Printer::WRITTEN_AT] == 1,
        waiting: s[Printer::WAITING_AT] == 1,
        due: s[Printer::DUE_AT] == 1,
    }
}

#[tactic(auto, unfolding(crate::specs::State::state_at))]
fn forms(s: &Bytes) -> Forms
    ensures { result ≡ (state_at s.now).forms }
{
    Forms {
        fcb: *s[Printer::FCB_AT..Printer::CHANNEL_AT].as_array().unwrap(),
        count: s[Printer::FCB_COUNT_AT],
    }
}

#[tactic(auto, unfolding(crate::specs::State::state_at))]
fn slots(s: &Bytes) -> Slots
    ensures { result ≡ (state_at s.now).slots }
{
    Slots {
        loaded: [
            s[Printer::LOADED_AT] == 1,
            s[Printer::LOADED_AT + 1] == 1,
            s[Printer::LOADED_AT + 2] == 1,
            s[Printer::LOADED_AT + 3] == 1,
        ],
        selected: s[Printer::SELECTED_AT],
    }
}

#[tactic(auto, unfolding(crate::specs::State::state_at))]
fn copies(s: &Bytes) -> Copies
    ensures { result ≡ (state_at s.now).copies }
{
    Copies {
        pairs: *s[Printer::PAIRS_AT..Printer::FCB_AT].as_array().unwrap(),
        count: s[Printer::PAIR_COUNT_AT],
        reference: s[Printer::REFERENCE_AT],
    }
}

#[tactic(auto, unfolding(crate::specs::State::sense_at))]
fn sense(s: &Bytes) -> Sense
    ensures { result ≡ (printer_at s.now).sense }
{
    Sense {
        b0: s[Printer::SENSE0_AT],
        b1: s[Printer::SENSE0_AT + 1],
        b2: s[Printer::SENSE0_AT + 2],
        b22: s[Printer::SENSE0_AT + 3],
        b23: s[Printer::SENSE0_AT + 4],
    }
}

#[tactic(auto, unfolding(crate::specs::State::state_at))]
pub(crate) fn counters(s: &Bytes) -> Counters
    ensures { result ≡ (state_at s.now).counters }
{
    Counters {
        channel: u16::from_be_bytes([s[Printer::CHANNEL_AT], s[Printer::CHANNEL_AT + 1]]),
        transfer: u16::from_be_bytes([s[Printer::TRANSFER_AT], s[Printer::TRANSFER_AT + 1]]),
        fuser: u16::from_be_bytes([s[Printer::FUSER_AT], s[Printer::FUSER_AT + 1]]),
        stacker: u16::from_be_bytes([s[Printer::STACKER_AT], s[Printer::STACKER_AT + 1]]),
    }
}

// The printer that bytes stand for.
#[tactic(auto, unfolding(crate::specs::State::state_at))]
pub fn decode(s: &Bytes) -> Printer
    ensures { result ≡ printer_at s.now }
{
    let state = State {
        fixed: fixed(s),
        blocked: s[Printer::BLOCKED_AT] == 1,
        forms: forms(s),
        slots: slots(s),
        copies: copies(s),
        sheet: sheet(s),
        counters: counters(s),
    };
    Printer {
        state,
        sense: sense(s),
    }
}

fn front_bytes(state: State) -> [u8; Printer::SHEET_AT]
    ensures { result ≡ front_bytes state }
{
    let [high, low] = state.fixed.length.to_be_bytes();
    let pitches = state.fixed.pitches;
    let slots = state.slots;
    [
        high,
        low,
        pitches[0],
        pitches[1],
        pitches[2],
        pitches[3],
        u8::from(state.fixed.old),
        u8::from(state.blocked),
        state.forms.count,
        u8::from(slots.loaded[0]),
        u8::from(slots.loaded[1]),
        u8::from(slots.loaded[2]),
        u8::from(slots.loaded[3]),
        slots.selected,
        state.copies.count,
        state.copies.reference,
    ]
}

// The bytes of the sheet and the sense, over their places.
fn lay_sheet(sheet: Sheet, sense: Sense, s: &mut Bytes)
    ensures { s.new ≡ take sheet_at s.old ++ (sheet_bytes sheet sense ++ drop pairs_at s.old) }
{
    let bytes = [
        sheet.line,
        u8::from(sheet.written),
        u8::from(sheet.waiting),
        u8::from(sheet.due),
        sense.b0,
        sense.b1,
        sense.b2,
        sense.b22,
        sense.b23,
    ];
    s[Printer::SHEET_AT..Printer::PAIRS_AT].copy_from_slice(&bytes);
}

// The bytes of all but the arrays and the counters.
fn lay_small(p: Printer, s: &mut Bytes)
    ensures { s.new ≡ small_bytes p.state p.sense ++ drop pairs_at s.old }
{
    let state = p.state;
    s[..Printer::SHEET_AT].copy_from_slice(&front_bytes(state));
    lay_sheet(state.sheet, p.sense, s);
}

// The bytes of each array.
fn lay_pairs(copies: Copies, s: &mut Bytes)
    ensures { s.new ≡ take pairs_at s.old ++ (copies.pairs ++ drop fcb_at s.old) }
{
    s[Printer::PAIRS_AT..Printer::FCB_AT].copy_from_slice(&copies.pairs);
}

fn lay_fcb(forms: Forms, s: &mut Bytes)
    ensures { s.new ≡ take fcb_at s.old ++ (forms.fcb ++ drop channel_at s.old) }
{
    s[Printer::FCB_AT..Printer::CHANNEL_AT].copy_from_slice(&forms.fcb);
}

// The bytes of the counters.
fn lay_counters(counters: Counters, s: &mut Bytes)
    ensures { s.new ≡ take channel_at s.old ++ counter_bytes counters }
{
    let bytes = [
        counters.channel.to_be_bytes(),
        counters.transfer.to_be_bytes(),
        counters.fuser.to_be_bytes(),
        counters.stacker.to_be_bytes(),
    ];
    s[Printer::CHANNEL_AT..].copy_from_slice(bytes.as_flattened());
}

// A step's printer back into the state. Four functions, as each command puts back what it can change and the compiler leaves out all else: here no more
// than the sheet and the sense, nine bytes.
pub fn put_sheet(step: Step, s: &mut Bytes) -> Answer
    requires { OwnSheet step.printer s.old }
    ensures answer { result ≡ step.answer }
    ensures state { s.new ≡ printer_bytes step.printer }
{
    let p = step.printer;
    lay_sheet(p.state.sheet, p.sense, s);
    step.answer
}

// Where neither its arrays nor its counters can have changed.
pub fn put_small(step: Step, s: &mut Bytes) -> Answer
    requires { SameArrays step.printer s.old }
    ensures answer { result ≡ step.answer }
    ensures state { s.new ≡ printer_bytes step.printer }
{
    lay_small(step.printer, s);
    step.answer
}

// Where its counters alone can have changed: eight bytes.
pub fn put_counters(step: Step, s: &mut Bytes) -> Answer
    requires { OwnCounters step.printer s.old }
    ensures answer { result ≡ step.answer }
    ensures state { s.new ≡ printer_bytes step.printer }
{
    let p = step.printer;
    lay_counters(p.state.counters, s);
    step.answer
}

// And where any field can have changed.
pub fn put_all(step: Step, s: &mut Bytes) -> Answer
    ensures answer { result ≡ step.answer }
    ensures state { s.new ≡ printer_bytes step.printer }
{
    let p = step.printer;
    let state = p.state;
    lay_counters(state.counters, s);
    lay_fcb(state.forms, s);
    lay_pairs(state.copies, s);
    lay_small(p, s);
    step.answer
}
