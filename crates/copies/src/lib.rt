// Document 01, "Copies and legends": the loads of translate table, overlay sequence and copy number, and the copies of a page.
#![tactic(auto)]

ghost use Rattle.std.specs.Prelude.{◌≡◌, ◌+◌, ◌-◌, ◌/◌, ◌%◌, ◌<◌, ◌≤◌, not, ◌&&◌, ◌||◌, ltb, length, take, map, if◌then◌else◌, ◌==◌, nat_eq, nat_lt};
ghost use Rattle.seq.specs.Words.{any, zero_from};
ghost use Rattle.numbers.specs.Numbers.{is_sound};
ghost use Rattle.copies.specs.Copies.{pair_size, most_copies, table_check, pairs_of, copies_of, whole_pairs, bad_pair, pair_of, sequence_check};
ghost use Rattle.copies.specs.Copies.{mark_in, number_check, copies_in_range};

use numbers::{Cause, Stores};

// A printer's overlay sequence, its bytes with 00 after them and how many they are; and the copy number of copy 1.
#[derive(Clone, Copy)]
pub struct Copies {
    pub pairs: [u8; Copies::PAIR_BYTES],
    pub count: u8,
    pub reference: u8,
}

impl Copies {
    // The longest overlay sequence: 8 pairs.
    pub const PAIR_BYTES: usize = 16;

    // The copies that a sequence may ask for.
    pub const MOST_COPIES: u16 = 255;

    // One copy with mark 0, and reference 1.
    pub const START: Copies = Copies {
        pairs: [1, 0, 0, 0, 0, 0, 0, 0, 0, 0, 0, 0, 0, 0, 0, 0],
        count: 2,
        reference: 1,
    };
}

#[tactic(auto, unfolding(crate::specs::Copies::table_check, seq::specs::Words::first_or, seq::specs::Words::when))]
pub fn table_check(sent: &[u8]) -> Result<(), Cause>
    ensures { result ≡ table_check sent.now }
{
    if sent.len() < Stores::SLOT_BYTES {
        return Err(Cause::TableShort);
    }
    Ok(())
}

// Whether n bytes are 1 to 8 whole pairs.
fn whole_pairs(n: usize) -> bool
    ensures { result ≡ whole_pairs n }
{
    (n % 2 == 0) & (1..=8).contains(&(n / 2))
}

// An odd last byte is no pair.
fn pairs_in(bytes: &[u8]) -> &[[u8; 2]]
    ensures pairs { map pair_of result.now ≡ pairs_of bytes.now }
    ensures len { length result.now ≡ length bytes.now / 2 }
{
    let (pairs, _) = bytes.as_chunks::<2>();
    pairs
}

fn any_bad_pair(bytes: &[u8]) -> bool
    ensures { result ≡ any bad_pair (pairs_of bytes.now) }
{
    let mut bad = false;
    for &[copies, mark] in pairs_in(bytes) {
        bad |= (copies == 0) | (1 < mark);
    }
    bad
}

#[tactic(auto, unfolding(crate::specs::Copies::copies_of))]
fn total_copies(bytes: &[u8]) -> u16
    requires { length bytes.now ≤ pair_size }
    ensures { result ≡ copies_of bytes.now }
{
    let mut total = 0;
    for &[copies, _] in pairs_in(bytes) {
        total += u16::from(copies);
    }
    total
}

// The mark of the pair that copy k falls to. `left` is k counted from the pair that is next.
fn mark_in(k: u16, bytes: &[u8]) -> u8
    ensures { result ≡ mark_in k (pairs_of bytes.now) }
{
    let mut left = k;
    for &[copies, mark] in pairs_in(bytes) {
        let copies = u16::from(copies);
        if left <= copies {
            return mark;
        }
        left -= copies;
    }
    0
}

#[tactic(auto, unfolding(crate::specs::Copies::sequence_check, seq::specs::Words::first_or, seq::specs::Words::when))]
pub fn sequence_check(sent: &[u8]) -> Result<(), Cause>
    ensures { result ≡ sequence_check sent.now }
{
    if !whole_pairs(sent.len()) {
        return Err(Cause::SequencePairs);
    }
    if any_bad_pair(sent) | (Copies::MOST_COPIES < total_copies(sent)) {
        return Err(Cause::SequenceCounts);
    }
    Ok(())
}

#[tactic(auto, unfolding(crate::specs::Copies::number_check, seq::specs::Words::first_or, seq::specs::Words::when))]
pub fn number_check(sent: &[u8]) -> Result<(), Cause>
    ensures { result ≡ number_check sent.now }
{
    match sent {
        [n] if *n != 0 => Ok(()),
        _ => Err(Cause::NumberRecord),
    }
}

// Whether byte b may not stand at place k. A byte below the least allowed value wraps to a large one, so one comparison tests both ends.
fn is_loose(count: u8, k: u8, b: u8) -> bool
    requires { k < pair_size }
    ensures { count ≤ pair_size → result ≡ (if ltb k count then (if nat_eq (k % 2) 0 then (b == 0) else nat_lt 1 b) else not (b == 0)) }
{
    let within = 127 < k.wrapping_sub(count);
    let copies = k % 2 == 0;
    // the least that may stand here, and how much more than that
    let (least, more) = match (within, copies) {
        (true, true) => (1, 254),
        (true, false) => (0, 1),
        (false, _) => (0, 0),
    };
    more < b.wrapping_sub(least)
}

// Every place whatever the count is: so the loop has no branch and a known length.
fn any_loose(count: u8, pairs: &[u8; Copies::PAIR_BYTES]) -> bool
    ensures { count ≤ pair_size → count % 2 ≡ 0
        → result ≡ (any bad_pair (pairs_of (take count pairs.now)) || not (zero_from count pairs.now)) }
{
    let mut found = false;
    for (k, &b) in pairs.iter().enumerate() {
        found |= is_loose(count, k as u8, b);
    }
    found
}

// Whether a stored sequence and reference are such as loads leave. Where no byte is loose, those after the count add no copies.
pub fn copies_ok(pairs: &[u8], count: u8, reference: u8) -> bool
    requires { length pairs.now ≡ pair_size }
    ensures { result ≡ (copies_in_range (record { pairs = pairs.entry.now; count = count; reference = reference })
        && is_sound (sequence_check (take count pairs.entry.now))) }
{
    let pairs: &[u8; Copies::PAIR_BYTES] = pairs.as_array().unwrap();
    let whole = whole_pairs(usize::from(count));
    let loose = any_loose(count, pairs);
    let copies = total_copies(pairs);
    whole & (1 <= reference) & !loose & (copies <= Copies::MOST_COPIES)
}

// The copies of a page: how many, and the number and mark of copy k.
pub fn copy_count(pairs: &[u8], count: u8) -> u16
    requires { length pairs.now ≡ pair_size }
    ensures { result ≡ copies_of (take count pairs.now) }
{
    total_copies(&pairs[..usize::from(count).min(pairs.len())])
}

pub fn copy_number(reference: u8, k: u16) -> u16
    requires le_k { 1 ≤ k }
    requires k_le_most_copies { k ≤ most_copies }
    ensures { result ≡ reference + k - 1 }
{
    u16::from(reference) + k - 1
}

pub fn copy_mark(pairs: &[u8], count: u8, k: u16) -> u8
    ensures { result ≡ mark_in k (pairs_of (take count pairs.now)) }
{
    mark_in(k, &pairs[..usize::from(count).min(pairs.len())])
}
