// Document 01, "Numbers", 9: what is lent, judged as it lies there, before anything of it is decoded.
ghost use Rattle.std.specs.Prelude.{◌≡◌, ◌&&◌, length, is_some, IfSome};
ghost use Rattle.printer.specs.Layout.{state_size};
ghost use Rattle.form.specs.Form.{form_ok, forms_in_range};
ghost use Rattle.counters.specs.Counters.{counters_ok};
ghost use Rattle.calls.specs.Core.{stores_of, sizes_ok, laid_out};
ghost use Rattle.calls.specs.Contents.{due_ok, written_ok};
ghost use Rattle.state.specs.State.{state_at};
ghost use Rattle.state.specs.Contents.{fields_ok, copies_ok, forms_line_ok, state_ok, sound_bytes};

use crate::{Bytes, codec};
use form::{Judged, Layout};
use printer::Printer;

// The sizes of the stores, which are all that Start asks of them.
#[tactic(auto, unfolding(calls::specs::Core::sizes_ok, seq::specs::Words::every))]
pub fn sizes_ok(page: &[u8], legends: &[u8], tables: &[u8]) -> bool
    ensures { result ≡ sizes_ok (stores_of page.now legends.now tables.now) }
{
    page.len() == Printer::PAGE_BYTES
        && legends.len() == Printer::LEGEND_BYTES
        && tables.len() == Printer::TABLE_BYTES
}

fn fixed_ok(s: &Bytes) -> bool
    ensures { result ≡ form_ok (state_at s.now).fixed.length (state_at s.now).fixed.pitches }
{
    let fixed = codec::fixed(s);
    form::fcb::form_ok(u32::from(fixed.length), fixed.pitches.map(u32::from))
}

#[tactic(auto, unfolding(calls::specs::Contents::due_ok, calls::specs::Contents::written_ok))]
fn sheet_ok(s: &Bytes) -> bool
    ensures { result ≡ (due_ok (state_at s.now).sheet && written_ok (state_at s.now).sheet) }
{
    let sheet = codec::sheet(s);
    (!sheet.due | sheet.waiting) & !(sheet.written & sheet.waiting)
}

fn counters_ok(s: &Bytes) -> bool
    ensures { result ≡ counters_ok (state_at s.now).counters }
{
    codec::counters(s).is_reachable()
}

// The form length and the pitches, which take longest, come last.
fn fields_ok(s: &Bytes) -> bool
    ensures { result ≡ fields_ok (state_at s.now) }
{
    let sheet = sheet_ok(s);
    let counters = counters_ok(s);
    let slots = (s[Printer::LOADED_AT] == 1) & (s[Printer::SELECTED_AT] <= 3);
    slots & (sheet & counters) && fixed_ok(s)
}

#[tactic(auto, unfolding(crate::specs::State::state_at, crate::specs::Contents::copies_ok))]
fn copies_ok(s: &Bytes) -> bool
    ensures { result ≡ copies_ok (state_at s.now) }
{
    copies::copies_ok(
        &s[Printer::PAIRS_AT..Printer::FCB_AT],
        s[Printer::PAIR_COUNT_AT],
        s[Printer::REFERENCE_AT],
    )
}

#[tactic(auto, unfolding(crate::specs::State::state_at))]
fn lay_out(s: &Bytes) -> Judged
    ensures range { result.range ≡ forms_in_range (state_at s.now).forms }
    ensures layout { result.layout ≡ laid_out (state_at s.now) }
{
    form::fcb::judge(
        codec::fixed(s).length,
        &s[Printer::FCB_AT..Printer::CHANNEL_AT],
        s[Printer::FCB_COUNT_AT],
    )
}

// The FCB is the state's own, judged.
fn forms_ok(s: &Bytes, fcb: Judged) -> bool
    requires range_value { fcb.range ≡ forms_in_range (state_at s.now).forms }
    requires layout_value { fcb.layout ≡ laid_out (state_at s.now) }
    ensures { result ≡ forms_line_ok (state_at s.now) }
{
    let line = u16::from(s[Printer::SHEET_AT]);
    let form = fcb.layout;
    let found = form::fcb::layout_check(codec::fixed(s).length, form);
    fcb.range & ((1 <= line) & (line <= form.lines) & found.is_ok())
}

fn judge_state(s: &Bytes) -> Option<Layout>
    ensures sound { is_some result ≡ state_ok (state_at s.now) }
    ensures form { IfSome result (λ form. form ≡ laid_out (state_at s.now)) }
{
    if !(fields_ok(s) && copies_ok(s)) {
        return None;
    }
    let fcb = lay_out(s);
    forms_ok(s, fcb).then_some(fcb.layout)
}

// Number 9, for every call but Start: the form laid out, where a printer can have what is lent. It returns at the first part that is bad; the legends and the
// page's marks, which are the longest, come last.
pub fn judge(state: &[u8], page: &[u8], legends: &[u8], tables: &[u8]) -> Option<Layout>
    ensures sound { is_some result
        ≡ sound_bytes state.now (stores_of page.now legends.now tables.now) }
    ensures size { IfSome result (λ _. length state.now ≡ state_size) }
    ensures form { IfSome result (λ form. form ≡ laid_out (state_at state.now)) }
{
    if !sizes_ok(page, legends, tables) {
        return None;
    }
    let form = judge_state(codec::readable(state)?)?;
    if !legends::legends_ok(legends) {
        return None;
    }
    line::marks::marks_ok(page).then_some(form)
}
