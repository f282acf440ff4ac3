// Document 01, "Writing a line"; T-03's cells.
#![tactic(auto)]

pub mod cells;
mod first;
pub mod marks;
mod merge;
pub mod tables;
pub mod translate;

ghost use Rattle.std.specs.Prelude.{◌≡◌, ◌&&◌, List, [], ◌∷◌, ◌++◌, ℕ, ◌+◌, ◌<◌, ◌≤◌, length};
ghost use Rattle.numbers.specs.Sizes.{line_width, line_bytes, page_lines, page_size, table_size};
ghost use Rattle.line.specs.Cells.{stored, cells_in};
ghost use Rattle.line.specs.Line.{serving, unprintable_at, told, line_codes, any_collides, cells_after, line_at, page_written};
ghost use Rattle.line.specs.Line.{line_causes, or_unmatched, cause_byte};
ghost use Rattle.line.specs.Straight.{found_of};

use numbers::Stores;

// The codes of the 256 bytes, and the cells of a line.
pub type Table = [u8; Stores::SLOT_BYTES];

type Line = [u8; Stores::LINE_BYTES];

// A stored cell: its code, and its rule mark, 0 or 1.
#[derive(Clone, Copy)]
pub struct Cell {
    pub code: u8,
    pub mark: u8,
}

// The four table slots: which are loaded, and which is selected. Their bytes are a lent store.
#[derive(Clone, Copy)]
pub struct Slots {
    pub loaded: [bool; 4],
    pub selected: u8,
}

impl Slots {
    // Slot 0 alone is loaded, and selected.
    pub const START: Slots = Slots {
        loaded: [true, false, false, false],
        selected: 0,
    };
}

// What is told of the unprintable positions of a text: the first of them, from 1, or 0 for none; and how many there are.
#[derive(Clone, Copy)]
pub struct Unprintables {
    pub first: u16,
    pub count: u16,
}

impl Unprintables {
    pub const NONE: Unprintables = Unprintables { first: 0, count: 0 };

    // Of this text, and then of the next.
    pub fn then(self, next: Unprintables) -> Unprintables
        requires { self.count + next.count ≤ 0xFFFF }
        ensures { (ns ms : List ℕ) → self ≡ told ns → next ≡ told ms → result ≡ told (ns ++ ms) }
    {
        if self.count == 0 {
            next
        } else {
            Unprintables {
                count: self.count + next.count,
                ..self
            }
        }
    }

    // And of one position more, counted from 0 here.
    fn with(self, i: usize) -> Unprintables
        requires few { self.count ≤ i }
        requires fits { i < 0xFFFF }
        ensures told { (ns : List ℕ) → self ≡ told ns → result ≡ told (ns ++ ((1 + i) ∷ [])) }
        ensures count { result.count ≡ self.count + 1 }
    {
        Unprintables {
            first: translate::first_of(self.first, self.count, true, i),
            count: self.count + 1,
        }
    }
}

// The causes of a data check: 80, 20, 10 and 08 of sense byte 1.
#[derive(Clone, Copy)]
pub struct Causes {
    pub unprintables: Unprintables,
    pub unloaded: bool,
    pub unmatched: bool,
    pub collision: bool,
}

impl Causes {
    pub const NONE: Causes = Causes {
        unprintables: Unprintables::NONE,
        unloaded: false,
        unmatched: false,
        collision: false,
    };
}

// What a text on a line is found to have: unprintable positions, and a collision.
#[derive(Clone, Copy)]
pub struct Found {
    pub unprintables: Unprintables,
    pub collision: bool,
}

// Writes the record on the cells of a line: a first write sets them, a later one merges. Pitches and table stay two parameters here and below: most passes
// take one of the two alone, and a clause would name each through the struct that held them.
fn put_line(cells: &mut [u8], later: bool, sent: &[u8], pitches: [u8; 4], table: &Table) -> Found
    requires cells_len { length cells.old ≡ line_bytes }
    requires sent_len_bound { length sent.now ≤ line_width }
    ensures cells { cells.new
        ≡ stored (cells_after later (cells_in cells.old) (line_codes pitches table.now sent.now)) }
    ensures found { let t = table.now in let s = sent.now in
        result ≡ found_of (unprintable_at pitches t s) (later && any_collides (cells_in cells.old) (line_codes pitches t s)) }
{
    let cells = cells.as_mut_array().unwrap();
    if later {
        merge::merge_line(cells, sent, pitches, table)
    } else {
        let unprintables = first::set_line(cells, sent, pitches, table);
        Found {
            unprintables,
            collision: false,
        }
    }
}

// Writes the record on a line of the page, counted from 1; `later`, if that was written before.
pub fn write_line(
    page: &mut [u8],
    line: u8,
    later: bool,
    sent: &[u8],
    pitches: [u8; 4],
    slots: Slots,
    tables: &[u8],
) -> Causes
    requires le_line { 1 ≤ line }
    requires line_le_page_lines { line ≤ page_lines }
    requires page_len { length page.old ≡ page_size }
    requires sent_len_bound { length sent.now ≤ line_width }
    requires selected_bound { slots.selected ≤ 3 }
    requires tables_len { length tables.now ≡ table_size }
    ensures page { page.new
        ≡ page_written later line (line_codes pitches (serving slots tables.now) sent.now) page.old }
    ensures causes { result ≡ line_causes pitches slots tables.now later (line_at line page.old) sent.now }
{
    let at = Stores::LINE_BYTES * (usize::from(line) - 1);
    let end = at + Stores::LINE_BYTES;
    let table = tables::serving(slots, tables);
    let unloaded = !tables::is_loaded(slots);
    let found = put_line(&mut page[at..end], later, sent, pitches, table);
    Causes {
        unprintables: found.unprintables,
        unloaded,
        collision: found.collision,
        ..Causes::NONE
    }
}

pub fn or_unmatched(causes: Causes, missed: bool) -> Causes
    ensures { result ≡ or_unmatched causes missed }
{
    Causes {
        unmatched: missed,
        ..causes
    }
}

// The causes as sense byte 1. Block hides two of the four.
pub fn cause_byte(blocked: bool, causes: Causes) -> u8
    ensures { result ≡ cause_byte blocked causes }
{
    let unprintable = (causes.unprintables.count != 0) & !blocked;
    let collision = causes.collision & !blocked;
    0x80 * u8::from(unprintable)
        + 0x20 * u8::from(causes.unloaded)
        + 0x10 * u8::from(causes.unmatched)
        + 0x08 * u8::from(collision)
}
