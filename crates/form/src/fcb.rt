// Document 01, "Form and forms control": what an FCB says, whether its load takes it, and forms control as the printer keeps it.
ghost use Rattle.std.specs.Prelude.{◌≡◌, true, not, ◌&&◌, [], ◌∷◌, ◌+◌, ◌*◌, ◌-◌, ◌/◌, ◌%◌, ◌≤◌, eqb, length, take};
ghost use Rattle.seq.specs.Words.{any, listed};
ghost use Rattle.numbers.specs.Sizes.{legend_size};
ghost use Rattle.form.specs.Form.{form_lengths, pitches_listed, form_ok, units_of, most_units, half_inch, has_channel, fcb_size};
ghost use Rattle.form.specs.Form.{layout_of, layout_check, fcb_check, forms_in_range};
ghost use Rattle.form.specs.Pass.{step_of, half_inch_most, edge_most, uniform};

use crate::{Forms, Judged, Layout};
use numbers::Cause;

const HALF_INCH: u16 = 12;

// The most lines of both edge half inches, 6 in each.
const EDGE_MOST: usize = 12;

const LAST_CHANNEL: u8 = 12;

// How many bytes a scan takes between two tests.
const BLOCK: usize = 32;

// What the bytes so far have shown: the upper half of the last one, a bad channel, another upper half, a run that ended within a half inch,
// the units in all, a channel in an edge half inch, the lines that start in the first half inch, and the printable ones.
#[derive(Clone, Copy, Default)]
struct Pass {
    upper: u8,
    channel: bool,
    other: bool,
    odd: bool,
    units: u16,
    edge: bool,
    top: u16,
    lines: u16,
}

// A spacing, both 0 where an upper half means none: the units of a line, and the lines of a half inch.
#[derive(Clone, Copy)]
struct Spacing {
    units: u16,
    lines: u16,
}

#[tactic(auto, unfolding(crate::specs::Form::units_of))]
fn spacing_of(upper: u8) -> Spacing
    ensures units { result.units ≡ units_of upper }
    ensures units_most { result.units ≤ most_units }
    ensures lines { result.lines ≡ half_inch / units_of upper }
    ensures lines_most { result.lines ≤ half_inch_most }
{
    match upper {
        0 => Spacing { units: 4, lines: 3 },
        1 => Spacing { units: 3, lines: 4 },
        3 => Spacing { units: 2, lines: 6 },
        _ => Spacing { units: 0, lines: 0 },
    }
}

// One more byte; the printable lines start before `last`. Whether a run is odd is asked only where it ends.
#[tactic(auto, unfolding(crate::specs::Pass::step_of))]
fn step(last: u16, s: Pass, b: u8) -> Pass
    requires units { s.units ≤ most_units * legend_size }
    requires top { s.top ≤ legend_size }
    requires lines { s.lines ≤ legend_size }
    ensures value { result ≡ step_of last s b }
    ensures units_most { result.units ≤ s.units + most_units }
    ensures top_most { result.top ≤ s.top + 1 }
    ensures lines_most { result.lines ≤ s.lines + 1 }
{
    let at = s.units;
    let upper = b / 16;
    let channel = b % 16;
    let n = spacing_of(upper).units;
    let odd = upper != s.upper && at % HALF_INCH != 0;
    let between = (HALF_INCH <= at) & (at < last);
    Pass {
        upper,
        channel: s.channel | (LAST_CHANNEL < channel),
        other: s.other | (n == 0),
        odd: s.odd | odd,
        units: at + n,
        edge: s.edge | (!between & (channel != 0)),
        top: s.top + u16::from(at < HALF_INCH),
        lines: s.lines + u16::from(between),
    }
}

// One pass over an FCB.
fn lay_out(form: u16, fcb: &[u8]) -> Layout
    requires { length fcb.now ≤ legend_size }
    ensures { result ≡ layout_of form fcb.now }
{
    let last = form.saturating_sub(HALF_INCH);
    let mut s = Pass::default();
    for &b in fcb {
        s = step(last, s, b);
    }
    Layout {
        channel: s.channel,
        spacing: s.other | (s.odd | (s.units % HALF_INCH != 0)),
        units: s.units,
        edge: s.edge,
        top: s.top,
        lines: s.lines,
    }
}

fn any_channel(lines: &[u8]) -> bool
    ensures { result ≡ any has_channel lines.now }
{
    let mut found = false;
    for &b in lines {
        found |= b % 16 != 0;
    }
    found
}

fn lay_out_uniform(form: u16, fcb: &[u8]) -> Layout
    requires edge_most_in_bounds { edge_most ≤ length fcb.now }
    requires fcb_len_bound { length fcb.now ≤ legend_size }
    requires fcb_value { uniform form fcb.now ≡ true }
    ensures { result ≡ layout_of form fcb.now }
{
    let top = spacing_of(fcb[0] / 16).lines;
    let k = usize::from(top);
    let last = fcb.len() - k;
    let edge = any_channel(&fcb[..k]) | any_channel(&fcb[last..]);
    Layout {
        channel: false,
        spacing: form % HALF_INCH != 0,
        units: form,
        edge,
        top,
        lines: (last - k) as u16,
    }
}

#[tactic(auto, unfolding(crate::specs::Form::layout_check, seq::specs::Words::first_or, seq::specs::Words::when))]
pub fn layout_check(form: u16, layout: Layout) -> Result<(), Cause>
    ensures { result ≡ layout_check form layout }
{
    if layout.channel {
        return Err(Cause::FcbChannel);
    }
    if layout.spacing {
        return Err(Cause::FcbSpacing);
    }
    if layout.units != form {
        return Err(Cause::FcbSum);
    }
    if layout.edge {
        return Err(Cause::FcbEdge);
    }
    Ok(())
}

#[tactic(auto, unfolding(crate::specs::Form::fcb_check))]
pub fn fcb_check(form: u16, fcb: &[u8]) -> Result<(), Cause>
    requires { length fcb.now ≤ legend_size }
    ensures { result ≡ fcb_check form fcb.now }
{
    layout_check(form, lay_out(form, fcb))
}

// Whether an FCB in its array is in range and of one spacing throughout. How far a byte lies past the first one's upper half tests both of
// its halves: that is its channel where the upper half is the same, and more than the last channel at any other.
fn is_uniform(form: u16, fcb: &[u8; Forms::FCB_BYTES], count: u8) -> bool
    ensures { result ≡ (forms_in_range (record { fcb = fcb.entry.now; count = count }) && uniform form (take count fcb.entry.now)) }
{
    let n = usize::from(count);
    if n < EDGE_MOST || Forms::FCB_BYTES < n {
        return false;
    }
    let upper = fcb[0] / 16;
    let k = spacing_of(upper).lines;
    if usize::from(HALF_INCH) * n != usize::from(k) * usize::from(form) {
        return false;
    }
    !seq::any_above_by(BLOCK, 16 * upper, LAST_CHANNEL, &fcb[..n]) & seq::zero_from(fcb, n)
}

// For any count: more bytes than there are is all there are.
#[tactic(auto, unfolding(crate::specs::Form::forms_in_range, seq::specs::Words::every))]
fn judge_mixed(form: u16, fcb: &[u8; Forms::FCB_BYTES], count: u8) -> Judged
    ensures range { result.range ≡ forms_in_range (record { fcb = fcb.entry.now; count = count }) }
    ensures layout { result.layout ≡ layout_of form (take count fcb.now) }
{
    let n = usize::from(count);
    let zero = seq::zero_from(fcb, n);
    Judged {
        range: (n <= Forms::FCB_BYTES) & zero,
        layout: lay_out(form, &fcb[..n.min(fcb.len())]),
    }
}

// One scan is enough for most.
pub fn judge(form: u16, fcb: &[u8], count: u8) -> Judged
    requires { length fcb.now ≡ fcb_size }
    ensures range { result.range ≡ forms_in_range (record { fcb = fcb.entry.now; count = count }) }
    ensures layout { result.layout ≡ layout_of form (take count fcb.now) }
{
    let fcb: &[u8; Forms::FCB_BYTES] = fcb.as_array().unwrap();
    let n = usize::from(count);
    if !is_uniform(form, fcb, count) {
        return judge_mixed(form, fcb, count);
    }
    Judged {
        range: true,
        layout: lay_out_uniform(form, &fcb[..n.min(fcb.len())]),
    }
}

#[tactic(auto, unfolding(crate::specs::Form::form_lengths))]
pub fn length_listed(form: u32) -> bool
    ensures { result ≡ listed form_lengths form }
{
    matches!(
        form,
        84 | 132 | 168 | 204 | 264 | 72 | 96 | 144 | 192 | 240 | 288
    )
}

#[tactic(auto, unfolding(crate::specs::Form::pitches_listed))]
fn pitch_listed(pitch: u32) -> bool
    ensures { result ≡ listed pitches_listed pitch }
{
    matches!(pitch, 0 | 10 | 12 | 15)
}

// Form length and pitches as Start is passed them.
#[tactic(auto, unfolding(crate::specs::Form::form_ok, crate::specs::Form::pitches_ok, seq::specs::Words::every))]
pub fn form_ok(form: u32, pitches: [u32; 4]) -> bool
    ensures { result ≡ form_ok form pitches }
{
    let [p0, p1, p2, p3] = pitches;
    let listed = pitch_listed(p0) & pitch_listed(p1) & pitch_listed(p2) & pitch_listed(p3);
    length_listed(form) & listed & (p0 != 0)
}
