// The printer for a C host: the calls on numbers and lent bytes. None asks anything of its caller, and the contract of each is one equation that
// fixes the packed answer and every lent byte, or the lent double.
#![tactic(auto)]

ghost use Rattle.std.specs.Prelude.{◌≡◌, [], ◌∷◌};
ghost use Rattle.counters.specs.declared.Tally.TheVariants.{Transferred, Fused, Stacked, Cancel, Restart};
ghost use Rattle.paper.specs.Feet.{sent};
ghost use Rattle.calls.specs.Core.{stores_of};
ghost use Rattle.calls.specs.Commands.{issued};
ghost use Rattle.calls.specs.Calls.{command, compose, release, tally};
ghost use Rattle.calls.specs.Start.{asked};
ghost use Rattle.state.specs.Host.{called, call_bytes, start_bytes, told, feet_told};

use calls::Asked;
use counters::Tally;

pub fn trestlepip_start(
    form: u32,
    pitch0: u32,
    pitch1: u32,
    pitch2: u32,
    pitch3: u32,
    skip: u32,
    state: &mut [u8],
    page: &mut [u8],
    legends: &mut [u8],
    tables: &mut [u8],
) -> u64
    ensures { called result [] state.new (stores_of page.new legends.new tables.new)
        ≡ start_bytes (asked form (pitch0 ∷ pitch1 ∷ pitch2 ∷ pitch3 ∷ []) skip) state.old
        (stores_of page.old legends.old tables.old) }
{
    let asked = Asked {
        length: form,
        pitches: [pitch0, pitch1, pitch2, pitch3],
        skip,
    };
    serve::start(asked, state, page, legends, tables)
}

pub fn trestlepip_command(
    byte: u8,
    sent: &[u8],
    reply: &mut [u8],
    state: &mut [u8],
    page: &mut [u8],
    legends: &mut [u8],
    tables: &mut [u8],
) -> u64
    ensures { called result reply.new state.new (stores_of page.new legends.new tables.new)
        ≡ call_bytes state.old (stores_of page.old legends.old tables.old)
        (command (issued byte sent.now reply.old)) }
{
    serve::command(byte, sent, reply, state, page, legends, tables)
}

// The stores are only read.
pub fn trestlepip_compose(
    copy: u32,
    out: &mut [u8],
    state: &[u8],
    page: &[u8],
    legends: &[u8],
    tables: &[u8],
) -> u64
    ensures { let m = stores_of page.now legends.now tables.now in
        called result out.new state.now m ≡ call_bytes state.now m (compose copy out.old) }
{
    serve::compose(copy, out, state, page, legends, tables)
}

pub fn trestlepip_release(
    state: &mut [u8],
    page: &mut [u8],
    legends: &mut [u8],
    tables: &mut [u8],
) -> u64
    ensures { called result [] state.new (stores_of page.new legends.new tables.new)
        ≡ call_bytes state.old (stores_of page.old legends.old tables.old) release }
{
    serve::release(state, page, legends, tables)
}

// A page passed the transfer station.
pub fn trestlepip_transferred(state: &mut [u8], page: &[u8], legends: &[u8], tables: &[u8]) -> u64
    ensures { let m = stores_of page.now legends.now tables.now in
        called result [] state.new m ≡ call_bytes state.old m (tally Transferred) }
{
    serve::tally(Tally::Transferred, state, page, legends, tables)
}

// A page passed the fuser.
pub fn trestlepip_fused(state: &mut [u8], page: &[u8], legends: &[u8], tables: &[u8]) -> u64
    ensures { let m = stores_of page.now legends.now tables.now in
        called result [] state.new m ≡ call_bytes state.old m (tally Fused) }
{
    serve::tally(Tally::Fused, state, page, legends, tables)
}

// A page came to the stacker.
pub fn trestlepip_stacked(state: &mut [u8], page: &[u8], legends: &[u8], tables: &[u8]) -> u64
    ensures { let m = stores_of page.now legends.now tables.now in
        called result [] state.new m ≡ call_bytes state.old m (tally Stacked) }
{
    serve::tally(Tally::Stacked, state, page, legends, tables)
}

// Pages that have not passed transfer are given up.
pub fn trestlepip_cancel(state: &mut [u8], page: &[u8], legends: &[u8], tables: &[u8]) -> u64
    ensures { let m = stores_of page.now legends.now tables.now in
        called result [] state.new m ≡ call_bytes state.old m (tally Cancel) }
{
    serve::tally(Tally::Cancel, state, page, legends, tables)
}

// Pages that are not stacked are given up.
pub fn trestlepip_restart(state: &mut [u8], page: &[u8], legends: &[u8], tables: &[u8]) -> u64
    ensures { let m = stores_of page.now legends.now tables.now in
        called result [] state.new m ≡ call_bytes state.old m (tally Restart) }
{
    serve::tally(Tally::Restart, state, page, legends, tables)
}

// Feet of paper for a transmission. No store is lent.
pub fn trestlepip_feet(initial: u16, last: u16, copies: u32, form: u32, feet: &mut f64) -> u64
    ensures { told result feet.new ≡ feet_told (sent initial last copies form) }
{
    serve::feet(initial, last, copies, form, feet)
}
