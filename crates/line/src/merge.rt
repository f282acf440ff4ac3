// Document 01, "Writing a line": a later write on a line merges with the old cells, cell by cell, straight on the line (T-06).
ghost use Rattle.std.specs.Prelude.{◌≡◌, ◌+◌, ◌*◌, ◌≤◌, ◌<◌, length, replicate};
ghost use Rattle.numbers.specs.Sizes.{line_width, cell_bytes};
ghost use Rattle.line.specs.Cells.{cells_in, stored};
ghost use Rattle.line.specs.Line.{stand_in, translated, unprintable_at, told, line_codes};
ghost use Rattle.line.specs.Line.{is_blank, is_underscore, merge_cell, collides, merge_line, any_collides};
ghost use Rattle.line.specs.Straight.{cell_from, put_cell, found_of};

use crate::{Found, Line, Table, Unprintables, translate};
use numbers::Stores;

fn is_blank(code: u8) -> bool
    ensures { result ≡ is_blank code }
{
    code % 64 == 0
}

fn is_underscore(code: u8) -> bool
    ensures { result ≡ is_underscore code }
{
    code % 64 == 0x2D
}

// The merge rules on the cell at `at`. The old code is read before anything is set, and only what changes is set. Says whether the two collide.
fn merge_at(cells: &mut [u8], at: usize, new: u8) -> bool
    requires { at + 1 < length cells.old }
    ensures cells { cells.new ≡ put_cell at (merge_cell (cell_from at cells.old) new) cells.old }
    ensures clash { result ≡ collides (cell_from at cells.old) new }
{
    let old = cells[at];
    if is_blank(new) {
        return false;
    }
    if is_blank(old) {
        cells[at] = new;
        return false;
    }
    if is_underscore(new) {
        if is_underscore(old) {
            return false;
        }
        cells[at + 1] = 1;
        return false;
    }
    if is_underscore(old) {
        cells[at] = new;
        cells[at + 1] = 1;
        return false;
    }
    old != new
}

// The unprintable positions of a record.
fn tell(sent: &[u8], pitches: [u8; 4], table: &Table) -> Unprintables
    requires { length sent.now ≤ line_width }
    ensures { result ≡ told (unprintable_at pitches table.now sent.now) }
{
    let mut told = Unprintables::NONE;
    for (i, &byte) in sent.iter().enumerate() {
        if translate::is_bad(pitches, translate::entry(table, byte)) {
            told = told.with(i);
        }
    }
    told
}

// Merges the record's codes, each with the stand-in in its place where it is unprintable.
fn merge_record(cells: &mut [u8], sent: &[u8], pitches: [u8; 4], other: u8, table: &Table) -> Found
    requires cells_len { length cells.old ≡ cell_bytes * length sent.now }
    requires sent_len_bound { length sent.now ≤ line_width }
    requires other_value { other ≡ stand_in pitches table.now }
    ensures cells { cells.new
        ≡ stored (merge_line (cells_in cells.old) (translated pitches table.now sent.now)) }
    ensures found { let t = table.now in let s = sent.now in
        result ≡ found_of (unprintable_at pitches t s) (any_collides (cells_in cells.old) (translated pitches t s)) }
{
    let mut bad = false;
    let mut clash = false;
    for (i, &byte) in sent.iter().enumerate() {
        let code = translate::entry(table, byte);
        let stands = translate::is_bad(pitches, code);
        bad |= stands;
        let new = if stands { other } else { code };
        clash |= merge_at(cells, 2 * i, new);
    }
    let unprintables = if bad {
        tell(sent, pitches, table)
    } else {
        Unprintables::NONE
    };
    Found {
        unprintables,
        collision: clash,
    }
}

// Merges one code into so many cells. A blank changes none.
fn merge_fill(cells: &mut [u8], count: usize, code: u8) -> bool
    requires { length cells.old ≡ cell_bytes * count }
    ensures cells { cells.new ≡ stored (merge_line (cells_in cells.old) (replicate count code)) }
    ensures clash { result ≡ any_collides (cells_in cells.old) (replicate count code) }
{
    if is_blank(code) {
        return false;
    }
    let mut clash = false;
    for i in 0..count {
        clash |= merge_at(cells, 2 * i, code);
    }
    clash
}

// The record's codes are merged, and the stand-in after them.
pub fn merge_line(cells: &mut Line, sent: &[u8], pitches: [u8; 4], table: &Table) -> Found
    requires { length sent.now ≤ line_width }
    ensures cells { cells.new
        ≡ stored (merge_line (cells_in cells.old) (line_codes pitches table.now sent.now)) }
    ensures found { let t = table.now in let s = sent.now in
        result ≡ found_of (unprintable_at pitches t s) (any_collides (cells_in cells.old) (line_codes pitches t s)) }
{
    let n = sent.len();
    let end = 2 * n;
    let other = translate::stand_in(pitches, table);
    let found = merge_record(&mut cells[0..end], sent, pitches, other, table);
    let clash = merge_fill(
        &mut cells[end..Stores::LINE_BYTES],
        Stores::LINE_CELLS - n,
        other,
    );
    Found {
        collision: found.collision | clash,
        ..found
    }
}
