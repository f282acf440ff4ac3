// Document 01, "Copies and legends": composing a copy, the page's lines, with the segments of the legends over them in their order.
ghost use Rattle.std.specs.Prelude.{◌≡◌, true, false, [], ◌∷◌, ◌++◌, map, ◌+◌, ◌*◌, ◌-◌, ◌≤◌, length, get_or, drop};
ghost use Rattle.numbers.specs.Sizes.{line_width, line_bytes, page_lines, page_size};
ghost use Rattle.line.specs.Cells.{stored, cells_in};
ghost use Rattle.legends.specs.Legends.{segment_of, segment_length, bad_head, stored_segments, legends_ok, copy_from, composed};

use crate::{HEAD_BYTES, Head, after_first, segment_length};
use numbers::Stores;

// The text of the segment at the front of these legends, as a part of them.
pub fn text(legends: &[u8]) -> &[u8]
    requires { segment_length legends.now ≤ length legends.now }
    ensures { result.now ≡ (segment_of legends.now).text }
{
    &legends[HEAD_BYTES..segment_length(legends, 0)]
}

// Paints a text into the rows from `first` on and before `end`, in each from a place on, all counted from 0: what a segment of copy 0 alone shows.
fn paint_rows(out: &mut [u8], text: &[u8], first: usize, end: usize, place: usize)
    requires rows_fit { line_bytes * end ≤ length out.old }
    requires text_fits { place + length text.now ≤ line_width }
    ensures { cells_in out.new ≡ copy_from (record {
      first_copy = 0;
      copies = 1;
      first_line = first + 1;
      lines = end - first;
      first_position = place + 1;
      positions = length text.now;
      text = text.now;
    } ∷ []) 0 0 (cells_in out.old) }
{
    let n = Stores::CELL_BYTES * text.len();
    for row in first..end {
        let at = Stores::CELL_BYTES * (row * Stores::LINE_CELLS + place);
        line::cells::set(&mut out[at..at + n], text);
    }
}

// Paints the segment at the front of these legends over the lines of a copy.
fn paint(out: &mut [u8], legends: &[u8], number: usize, lines: usize)
    requires head_sound { bad_head legends.now ≡ false }
    requires text_fits { segment_length legends.now ≤ length legends.now }
    requires out_len { length out.old ≡ line_bytes * lines }
    ensures { cells_in out.new ≡ copy_from (segment_of legends.now ∷ []) number 0 (cells_in out.old) }
{
    let head = Head::read(legends);
    let first = usize::from(head.first_copy);
    if number < first || first + usize::from(head.copies) <= number {
        return;
    }
    let row = usize::from(head.first_line) - 1;
    let end = (row + usize::from(head.lines)).min(lines);
    let place = usize::from(head.first_position) - 1;
    paint_rows(out, text(legends), row, end, place);
}

// Paints the segments of stored legends, each over those before it. They end at a 00, or with the store.
fn paint_all(out: &mut [u8], legends: &[u8], number: usize, lines: usize)
    requires legends_sound { legends_ok legends.now ≡ true }
    requires out_len { length out.old ≡ line_bytes * lines }
    ensures { cells_in out.new
        ≡ copy_from (map segment_of (stored_segments legends.now)) number 0 (cells_in out.old) }
{
    let mut rest = legends;
    while !rest.is_empty() && rest[0] != 0 {
        paint(out, rest, number, lines);
        rest = after_first(rest);
    }
}

// The page's lines, and the segments over them.
fn compose_in(out: &mut [u8], page: &[u8], legends: &[u8], number: usize, lines: u8)
    requires legends_sound { legends_ok legends.now ≡ true }
    requires page_len { length page.now ≡ line_bytes * lines }
    requires out_len { length out.old ≡ line_bytes * lines }
    ensures { out.new
        ≡ stored (copy_from (map segment_of (stored_segments legends.now)) number 0 (cells_in page.now)) }
{
    out.copy_from_slice(page);
    paint_all(out, legends, number, usize::from(lines));
}

// The composed copy with this number into the output; bytes after its lines keep their values.
pub fn compose(out: &mut [u8], page: &[u8], legends: &[u8], number: u16, lines: u8)
    requires legends_sound { legends_ok legends.now ≡ true }
    requires lines_fit { lines ≤ page_lines }
    requires page_fits { line_bytes * lines ≤ length page.now }
    requires out_fits { line_bytes * lines ≤ length out.old }
    ensures { out.new
        ≡ composed page.now legends.now lines number ++ drop (line_bytes * lines) out.old }
{
    let end = Stores::LINE_BYTES * usize::from(lines);
    compose_in(
        &mut out[..end],
        &page[..end],
        legends,
        usize::from(number),
        lines,
    );
}
