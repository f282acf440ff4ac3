// Document 01, "Copies and legends": legend records, their check, the check of stored legends, and the store of a load.
#![tactic(auto)]

pub mod compose;

ghost use Rattle.std.specs.Prelude.{◌≡◌, false, ℕ, ◌+◌, ◌≤◌, ◌<◌, length, drop, Ok};
ghost use mathlib.Core.List.{List, ◌++◌, map, flatten};
ghost use Rattle.seq.specs.Words.{any, first_or};
ghost use Rattle.numbers.specs.Sizes.{legend_size, slot_size};
ghost use Rattle.numbers.specs.Numbers.{is_sound};
ghost use Rattle.line.specs.Line.{unprintable, translated, unprintable_at, told};
ghost use Rattle.line.specs.Codes.{codes, mended_codes, unprintable_codes};
ghost use Rattle.legends.specs.Legends.{head_size, head_of, segment_length, bad_head, segment_tests, segments, legend_check, legends_ok};
ghost use Rattle.legends.specs.Legends.{retext, stored_legends, unprintable_in_texts};

use line::Unprintables;
use numbers::{Cause, Stores};

// The bytes of a segment before its text.
const HEAD_BYTES: usize = 6;

// The position after the last of a line: where a segment's positions end at the latest.
const LINE_END: usize = Stores::LINE_CELLS + 1;

// The six bytes of a segment before its text.
#[derive(Clone, Copy)]
struct Head {
    first_copy: u8,
    copies: u8,
    first_line: u8,
    lines: u8,
    first_position: u8,
    positions: u8,
}

impl Head {
    // That of the segment at the front of s. By places: `first_chunk` leaves a test in the walks, which take a quarter longer over short segments.
    fn read(s: &[u8]) -> Head
        requires { head_size ≤ length s.now }
        ensures { result ≡ head_of s.now }
    {
        Head {
            first_copy: s[0],
            copies: s[1],
            first_line: s[2],
            lines: s[3],
            first_position: s[4],
            positions: s[5],
        }
    }
}

// Joined from the left: nested the other way, the tests become vector operations, for which the next segment's place has to wait.
fn bad_head(s: &[u8]) -> bool
    requires { head_size ≤ length s.now }
    ensures { result ≡ bad_head s.now }
{
    let h = Head::read(s);
    let zero = (h.first_copy == 0)
        | (h.copies == 0)
        | (h.first_line == 0)
        | (h.lines == 0)
        | (h.first_position == 0)
        | (h.positions == 0);
    let end = usize::from(h.first_position) + usize::from(h.positions);
    zero | !((2 <= end) & (end <= LINE_END))
}

// How many bytes the segment at a place of s has.
pub fn segment_length(s: &[u8], at: usize) -> usize
    requires { at + head_size ≤ length s.now }
    ensures value { result ≡ segment_length (drop at s.now) }
    ensures most { result ≤ head_size + 255 }
{
    HEAD_BYTES + usize::from(Head::read(&s[at..]).positions)
}

// What follows the segment at the front of s.
fn after_first(s: &[u8]) -> &[u8]
    requires { segment_length s.now ≤ length s.now }
    ensures rest { result.now ≡ drop (segment_length s.now) s.now }
    ensures shorter { length result.now < length s.now }
{
    &s[segment_length(s, 0)..]
}

// What the tests of the segment at the front of s find.
fn segment_check(s: &[u8]) -> Result<(), Cause>
    ensures { result ≡ first_or (Ok tt) (segment_tests s.now) }
{
    if s.len() < HEAD_BYTES {
        return Err(Cause::SegmentEnds);
    }
    if bad_head(s) {
        return Err(Cause::SegmentFields);
    }
    if s.len() < segment_length(s, 0) {
        return Err(Cause::SegmentEnds);
    }
    Ok(())
}

// What follows the sound segments at the front of s. A segment that begins with 00 is not sound, so stored legends end there too.
fn after_sound(s: &[u8]) -> &[u8]
    ensures bound { length result.now ≤ length s.now }
    ensures stops { is_sound (first_or (Ok tt) (segment_tests result.now)) ≡ false }
    ensures checked { first_or (Ok tt) (flatten (map segment_tests (segments s.now)))
        ≡ first_or (Ok tt) (flatten (map segment_tests (segments result.now))) }
    ensures stored { legends_ok s.now ≡ legends_ok result.now }
{
    let mut rest = s;
    while segment_check(rest).is_ok() {
        rest = after_first(rest);
    }
    rest
}

pub fn legend_check(sent: &[u8]) -> Result<(), Cause>
    requires { length sent.now ≤ legend_size }
    ensures { result ≡ legend_check sent.now }
{
    if sent.is_empty() {
        return Err(Cause::SegmentEnds);
    }
    let rest = after_sound(sent);
    if rest.is_empty() {
        return Ok(());
    }
    segment_check(rest)
}

pub fn legends_ok(legends: &[u8]) -> bool
    requires { length legends.now ≡ legend_size }
    ensures { result ≡ legends_ok legends.now }
{
    seq::zero_from(after_sound(legends), 0)
}

// One segment of a load looked up: its head, and the codes of its text. Says whether any of them is unprintable.
fn look_up_segment(
    to: &mut [u8],
    from: &[u8],
    pitches: [u8; 4],
    table: &[u8; Stores::SLOT_BYTES],
) -> bool
    requires to_len { (length to.old ≡ length from.now) × (head_size ≤ length from.now) }
    ensures to { to.new ≡ retext (codes table.now) from.now }
    ensures bad { result ≡ any (unprintable pitches) (codes table.now (drop head_size from.now)) }
{
    to[..HEAD_BYTES].copy_from_slice(&from[..HEAD_BYTES]);
    line::translate::codes(&mut to[HEAD_BYTES..], &from[HEAD_BYTES..], pitches, table)
}

// The text of a segment mended. Tells its unprintable positions after those that were found before it.
fn mend_segment(
    segment: &mut [u8],
    pitches: [u8; 4],
    table: &[u8; Stores::SLOT_BYTES],
    before: Unprintables,
) -> Unprintables
    requires has_head { head_size ≤ length segment.old }
    requires count_fits { before.count + length segment.old ≤ 0xFFFF }
    ensures segment { segment.new ≡ retext (mended_codes pitches table.now) segment.old }
    ensures found { (ns : List ℕ) → before ≡ told ns → result ≡ told (ns ++ unprintable_codes pitches (drop head_size segment.old)) }
{
    before.then(line::translate::mend(&mut segment[HEAD_BYTES..], pitches, table))
}

// One segment of a load: its head, and its text translated. Tells its unprintable positions after those that were found before it.
fn store_segment(
    to: &mut [u8],
    from: &[u8],
    pitches: [u8; 4],
    table: &[u8; Stores::SLOT_BYTES],
    before: Unprintables,
) -> Unprintables
    requires to_len { (length to.old ≡ length from.now) × (head_size ≤ length from.now) }
    requires count_fits { before.count + length from.now ≤ 0xFFFF }
    ensures to { to.new ≡ retext (translated pitches table.now) from.now }
    ensures found { (ns : List ℕ) → before ≡ told ns → result ≡ told (ns ++ unprintable_at pitches table.now (drop head_size from.now)) }
{
    if look_up_segment(to, from, pitches, table) {
        return mend_segment(to, pitches, table, before);
    }
    before
}

// All segments of a record that passed, and 00 after them. Tells the unprintable positions of their texts.
pub fn store_legends(
    legends: &mut [u8],
    sent: &[u8],
    pitches: [u8; 4],
    table: &[u8],
) -> Unprintables
    requires legends_len { length legends.old ≡ legend_size }
    requires sent_fits { length sent.now ≤ legend_size }
    requires sent_sound { legend_check sent.now ≡ Ok tt }
    requires table_len { length table.now ≡ slot_size }
    ensures legends { legends.new ≡ stored_legends (translated pitches table.now) sent.now }
    ensures found { result ≡ told (unprintable_in_texts (unprintable_at pitches table.now) sent.now) }
{
    let table = table.as_array().unwrap();
    // One place serves both slices, and each segment says how far it goes.
    let mut found = Unprintables::NONE;
    let mut at = 0;
    while at < sent.len() {
        let end = at + segment_length(sent, at);
        found = store_segment(&mut legends[at..end], &sent[at..end], pitches, table, found);
        at = end;
    }
    legends[sent.len()..].fill(0);
    found
}
