// Document 01, "Writing a line": the first write on a line, straight to its cells (T-06).
ghost use Rattle.std.specs.Prelude.{◌≡◌, ◌≤◌, length, replicate};
ghost use Rattle.numbers.specs.Sizes.{line_width};
ghost use Rattle.line.specs.Line.{unprintable_at, told, line_codes};
ghost use Rattle.line.specs.Straight.{plain};

use crate::{Line, Table, Unprintables, translate};
use numbers::Stores;

// One code in every cell of a line, and no mark.
fn fill(cells: &mut Line, code: u8)
    ensures { cells.new ≡ plain (replicate line_width code) }
{
    for i in 0..Stores::LINE_CELLS {
        let at = 2 * i;
        cells[at] = code;
        cells[at + 1] = 0;
    }
}

// The stand-in in every cell, and the record's codes over the front. Only where one of these may be unprintable are they looked through.
pub fn set_line(cells: &mut Line, sent: &[u8], pitches: [u8; 4], table: &Table) -> Unprintables
    requires { length sent.now ≤ line_width }
    ensures cells { cells.new ≡ plain (line_codes pitches table.now sent.now) }
    ensures found { result ≡ told (unprintable_at pitches table.now sent.now) }
{
    let end = 2 * sent.len();
    let other = translate::stand_in(pitches, table);
    fill(cells, other);
    let top = translate::look_up::<2>(&mut cells[0..end], sent, table);
    if top | !translate::fitted(pitches) {
        translate::mend_each::<2>(&mut cells[0..end], pitches, other)
    } else {
        Unprintables::NONE
    }
}
