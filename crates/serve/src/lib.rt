// A call on the state's bytes: judged, refused or done by a method of the printer that the bytes stand for, and what that can have changed put back. The
// printer is decoded and put back in the arm of each command, and nowhere before: so the compiler leaves out what the command does not use.
#![tactic(auto)]

ghost use Rattle.std.specs.Prelude.{◌≡◌, true, List, [], ◌∷◌, ℕ};
ghost use Rattle.paper.specs.Feet.{sent};
ghost use Rattle.calls.specs.Core.{Stores, stores_of};
ghost use Rattle.calls.specs.Commands.{issued};
ghost use Rattle.calls.specs.Contents.{core_ok};
ghost use Rattle.calls.specs.Effects.{refused, do_move, do_write, do_load, do_control, do_command};
ghost use Rattle.calls.specs.Calls.{command, compose, release, tally, step};
ghost use Rattle.calls.specs.Start.{start_outcome};
ghost use Rattle.printer.specs.Premises.{Fit, Writes};
ghost use Rattle.state.specs.State.{state_at, core_at, world_at};
ghost use Rattle.state.specs.Host.{called, left, shown, call_bytes, start_bytes, told, feet_told};
ghost use Rattle.serve.specs.Served.{Readable, Judged, Accepts, Asks, AsksLoad, AsksControl, Served};

use calls::{Asked, Command, Control, Load};
use counters::Tally;
use form::Layout;
use movement::Motion;
use numbers::{Answer, Refusal};
use printer::Printer;
use refusals::{commands, order};
use state::{Bytes, answer, codec, judge};

// Write, then space or skip.
fn write(
    form: Layout,
    motion: Motion,
    sent: &[u8],
    state: &mut Bytes,
    page: &mut [u8],
    tables: &[u8],
) -> Answer
    requires { Asks state.old (Writes (state_at state.old) form sent.now page.old tables.now) }
    ensures { (b l : List ℕ) → Served (λ k. do_write k motion sent.now)
        state.old (stores_of page.old l tables.now) b result
        state.new (stores_of page.new l tables.now) b }
{
    codec::put_sheet(
        codec::decode(state).write(form, motion, sent, page, tables),
        state,
    )
}

// The immediate commands.
fn move_on(form: Layout, motion: Motion, state: &mut Bytes) -> Answer
    requires { Asks state.old (Fit (state_at state.old) form) }
    ensures { (b : List ℕ) (m : Stores) → Served (λ k. do_move k motion) state.old m b result state.new m b }
{
    codec::put_sheet(codec::decode(state).move_on(form, motion), state)
}

// The five loads.
fn load(load: Load, sent: &[u8], state: &mut Bytes, legends: &mut [u8], tables: &mut [u8]) -> Answer
    requires { AsksLoad state.old load sent.now legends.old tables.old }
    ensures { (b p : List ℕ) → Served (λ k. do_load k load sent.now)
        state.old (stores_of p legends.old tables.old) b result
        state.new (stores_of p legends.new tables.new) b }
{
    match load {
        Load::Fcb => codec::put_all(codec::decode(state).load_fcb(sent), state),
        Load::TranslateTable => codec::put_small(
            codec::decode(state).load_table(sent, tables),
            state,
        ),
        Load::CopyModification => {
            codec::put_small(
                codec::decode(state).load_legends(sent, legends, tables),
                state,
            )
        }
        Load::OverlaySequence => codec::put_all(codec::decode(state).load_sequence(sent), state),
        Load::CopyNumber => codec::put_small(codec::decode(state).load_number(sent), state),
    }
}

// The control commands. No-Op changes nothing.
fn control(
    control: Control,
    reply: &mut [u8],
    state: &mut Bytes,
    legends: &mut [u8],
    tables: &mut [u8],
) -> Answer
    requires { AsksControl state.old control reply.old legends.old tables.old }
    ensures { (p : List ℕ) → Served (λ k. do_control k control)
        state.old (stores_of p legends.old tables.old) reply.old result
        state.new (stores_of p legends.new tables.new) reply.new }
{
    match control {
        Control::NoOp => codec::decode(state).no_op().answer,
        Control::SenseIo => codec::put_sheet(codec::decode(state).sense_io(reply), state),
        Control::Initialize => codec::put_all(
            codec::decode(state).initialize(legends, tables),
            state,
        ),
        Control::Clear => codec::put_sheet(codec::decode(state).clear(), state),
        Control::Block => codec::put_small(codec::decode(state).block(), state),
        Control::Allow => codec::put_small(codec::decode(state).allow(), state),
        Control::Select(slot) => codec::put_small(codec::decode(state).select(slot), state),
    }
}

// A refused call tells it, and puts back the sense.
fn refuse(refusal: Refusal, count: u16, state: &mut Bytes) -> Answer
    requires { Readable state.old }
    ensures { (b : List ℕ) (m : Stores) → Served (λ k. refused k count refusal) state.old m b result state.new m b }
{
    codec::put_sheet(codec::decode(state).refuse(refusal, count), state)
}

// An accepted command.
fn perform(
    form: Layout,
    command: Command,
    sent: &[u8],
    reply: &mut [u8],
    state: &mut Bytes,
    page: &mut [u8],
    legends: &mut [u8],
    tables: &mut [u8],
) -> Answer
    requires { (b : ℕ) → Accepts state.old (stores_of page.old legends.old tables.old) form command (issued b sent.now reply.old) }
    ensures { (b : ℕ) → Served (λ k. do_command k command (issued b sent.now reply.old))
        state.old (stores_of page.old legends.old tables.old) reply.old result
        state.new (stores_of page.new legends.new tables.new) reply.new }
{
    match command {
        Command::Write(motion) => write(form, motion, sent, state, page, tables),
        Command::Move(motion) => move_on(form, motion, state),
        Command::Controls(which) => control(which, reply, state, legends, tables),
        Command::Loads(which) => load(which, sent, state, legends, tables),
        Command::Unlisted => refuse(Refusal::NotListed, 0, state),
    }
}

// A command on bytes that were judged good.
fn obey(
    form: Layout,
    byte: u8,
    sent: &[u8],
    reply: &mut [u8],
    state: &mut Bytes,
    page: &mut [u8],
    legends: &mut [u8],
    tables: &mut [u8],
) -> Answer
    requires { Judged state.old (stores_of page.old legends.old tables.old) form }
    ensures { left result reply.new state.new (stores_of page.new legends.new tables.new)
        ≡ shown (step (world_at state.old (stores_of page.old legends.old tables.old))
        (command (issued byte sent.now reply.old))) }
{
    let command = commands::decode(byte);
    let fixed = codec::fixed(state);
    let sheet = codec::sheet(state);
    match order::command_refusal(fixed, sheet, command, sent, reply) {
        Ok(()) => perform(form, command, sent, reply, state, page, legends, tables),
        Err(refusal) => refuse(refusal, commands::shown_count(sent.len()), state),
    }
}

pub fn command(
    byte: u8,
    sent: &[u8],
    reply: &mut [u8],
    state: &mut [u8],
    page: &mut [u8],
    legends: &mut [u8],
    tables: &mut [u8],
) -> u64
    ensures { called result reply.new state.new (stores_of page.new legends.new tables.new)
        ≡ call_bytes state.old (stores_of page.old legends.old tables.old)
        (command (issued byte sent.now reply.old)) }
{
    let Some(form) = judge::judge(state, page, legends, tables) else {
        return answer::unread();
    };
    let state = state.as_mut_array().unwrap();
    answer::pack(obey(form, byte, sent, reply, state, page, legends, tables))
}

// The copy with this index, from 1, of the page that waits. It changes nothing but the output.
fn copy_page(
    form: Layout,
    copy: u32,
    out: &mut [u8],
    state: &Bytes,
    page: &[u8],
    legends: &[u8],
    tables: &[u8],
) -> Answer
    requires { Judged state.now (stores_of page.now legends.now tables.now) form }
    ensures { let m = stores_of page.now legends.now tables.now in
        left result out.new state.now m ≡ shown (step (world_at state.now m) (compose copy out.old)) }
{
    let p = codec::decode(state);
    match order::compose_refusal(p.state, form, copy, out) {
        Ok(()) => p.compose(form, copy as u16, out, page, legends).answer,
        Err(refusal) => p.refuse(refusal, 0).answer,
    }
}

pub fn compose(
    copy: u32,
    out: &mut [u8],
    state: &[u8],
    page: &[u8],
    legends: &[u8],
    tables: &[u8],
) -> u64
    ensures { let m = stores_of page.now legends.now tables.now in
        called result out.new state.now m ≡ call_bytes state.now m (compose copy out.old) }
{
    let Some(form) = judge::judge(state, page, legends, tables) else {
        return answer::unread();
    };
    let state = state.as_array().unwrap();
    answer::pack(copy_page(form, copy, out, state, page, legends, tables))
}

// The page that waits is done with. A refused Release puts nothing back: its refusals keep the sense.
fn release_page(
    form: Layout,
    state: &mut Bytes,
    page: &mut [u8],
    legends: &mut [u8],
    tables: &mut [u8],
) -> Answer
    requires { Judged state.old (stores_of page.old legends.old tables.old) form }
    ensures { left result [] state.new (stores_of page.new legends.new tables.new)
        ≡ shown (step (world_at state.old (stores_of page.old legends.old tables.old)) release) }
{
    let p = codec::decode(state);
    match order::release_refusal(p.state) {
        Ok(()) => codec::put_all(p.release(page, legends, tables), state),
        Err(refusal) => p.refuse(refusal, 0).answer,
    }
}

pub fn release(state: &mut [u8], page: &mut [u8], legends: &mut [u8], tables: &mut [u8]) -> u64
    ensures { called result [] state.new (stores_of page.new legends.new tables.new)
        ≡ call_bytes state.old (stores_of page.old legends.old tables.old) release }
{
    let Some(form) = judge::judge(state, page, legends, tables) else {
        return answer::unread();
    };
    let state = state.as_mut_array().unwrap();
    answer::pack(release_page(form, state, page, legends, tables))
}

// A report, a cancel or a restart, on bytes that were judged good. A refused one puts nothing back: its refusal keeps the sense.
fn keep_count(which: Tally, state: &mut Bytes) -> Answer
    requires { Readable state.old }
    ensures { (m : Stores) → core_ok (core_at state.old m) ≡ true
        → left result [] state.new m ≡ shown (step (world_at state.old m) (tally which)) }
{
    let p = codec::decode(state);
    match order::tally_refusal(p.state.counters, which) {
        Ok(()) => codec::put_counters(p.tally(which), state),
        Err(refusal) => p.refuse(refusal, 0).answer,
    }
}

// In each of its five callers: as a function of its own it adds a frame to the stack of four.
#[inline(always)]
pub fn tally(which: Tally, state: &mut [u8], page: &[u8], legends: &[u8], tables: &[u8]) -> u64
    ensures { let m = stores_of page.now legends.now tables.now in
        called result [] state.new m ≡ call_bytes state.old m (tally which) }
{
    let Some(_) = judge::judge(state, page, legends, tables) else {
        return answer::unread();
    };
    let state = state.as_mut_array().unwrap();
    answer::pack(keep_count(which, state))
}

// A Start on a state with room for one.
fn begin(
    asked: Asked,
    state: &mut Bytes,
    page: &mut [u8],
    legends: &mut [u8],
    tables: &mut [u8],
) -> Answer
    ensures { left result [] state.new (stores_of page.new legends.new tables.new)
        ≡ shown (start_outcome asked
        (stores_of page.old legends.old tables.old)) }
{
    let sized = judge::sizes_ok(page, legends, tables);
    match order::start_refusal(sized, asked) {
        Ok(()) => codec::put_all(Printer::NONE.start(asked, page, legends, tables), state),
        Err(refusal) => codec::put_all(Printer::NONE.refuse(refusal, 0), state),
    }
}

pub fn start(
    asked: Asked,
    state: &mut [u8],
    page: &mut [u8],
    legends: &mut [u8],
    tables: &mut [u8],
) -> u64
    ensures { called result [] state.new (stores_of page.new legends.new tables.new)
        ≡ start_bytes asked state.old
        (stores_of page.old legends.old tables.old) }
{
    let Some(state) = state.as_mut_array() else {
        return answer::unread();
    };
    answer::pack(begin(asked, state, page, legends, tables))
}

// Feet of paper: no printer is asked.
pub fn feet(initial: u16, last: u16, copies: u32, form: u32, feet: &mut f64) -> u64
    ensures { told result feet.new ≡ feet_told (sent initial last copies form) }
{
    let paper = paper::used(initial, last, copies, form);
    let refusal = paper.refusal;
    *feet = paper.feet;
    answer::number_only(refusal)
}
