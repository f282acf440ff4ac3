// What the lines of output are made of. Numbers are decimal, bytes two hexadecimal digits.
ghost use Rattle.std.specs.Prelude.{◌≤◌, length};

use crate::stores::{Buffer, Host, UNWRITTEN};
use crate::words::Call;
use numbers::Stores;
use printer::Printer;
use std::fmt;

// The byte of the command Sense I/O.
const SENSE_IO: u8 = 0x04;

// Bytes, each after a blank.
#[derive(Clone, Copy)]
pub struct Hex<'a>(pub &'a [u8]);

impl fmt::Display for Hex<'_> {
    fn fmt<W: fmt::Write>(&self, f: &mut fmt::Formatter<W>) -> fmt::Result {
        for byte in self.0 {
            write!(f, " {byte:02X}")?;
        }
        Ok(())
    }
}

// Numbers after their names, without those that are 0.
#[derive(Clone, Copy)]
pub struct Figures<'a>(pub &'a [(&'static str, usize)]);

impl fmt::Display for Figures<'_> {
    fn fmt<W: fmt::Write>(&self, f: &mut fmt::Formatter<W>) -> fmt::Result {
        for (name, n) in self.0 {
            if *n != 0 {
                write!(f, " {name} {n}")?;
            }
        }
        Ok(())
    }
}

// A packed answer.
#[derive(Clone, Copy)]
pub struct Answer(pub u64);

impl Answer {
    fn is_accepted(self) -> bool {
        self.0 % 0x100 == 0
    }
}

impl fmt::Display for Answer {
    fn fmt<W: fmt::Write>(&self, f: &mut fmt::Formatter<W>) -> fmt::Result {
        // A `usize` has 64 bits.
        let all = self.0 as usize;
        let cause = [("cause", all / 0x4_0000 % 0x40)];
        let others = [
            ("ready", all / 0x1_0000 % 2),
            ("lines", all / 0x100_0000 % 0x100),
            ("copy", all / 0x1_0000_0000 % 0x200),
            ("mark", all / 0x2_0000 % 2),
            ("first", all / 0x200_0000_0000 % 0x100),
            ("count", all / 0x2_0000_0000_0000),
        ];
        write!(f, " | number {}{}", all % 0x100, Figures(&cause))?;
        write!(f, " status {:02X}{}", all / 0x100 % 0x100, Figures(&others))
    }
}

// Sense bytes 0, 1, 2, 22 and 23, the current line, that line's first cell, and the page counters, which are left out where all are 0.
impl fmt::Display for Host {
    fn fmt<W: fmt::Write>(&self, f: &mut fmt::Formatter<W>) -> fmt::Result {
        let state = &self.state;
        let late = Printer::SENSE0_AT + 3;
        write!(f, " | sense{}", Hex(&state[Printer::SENSE0_AT..late]))?;
        write!(f, " ..{}", Hex(&state[late..Printer::PAIRS_AT]))?;
        write!(f, " line {}", state[Printer::SHEET_AT])?;
        if let Some(cell) = self.first_cell() {
            write!(f, " cell{}", Hex(cell))?;
        }
        let pages = &state[Printer::CHANNEL_AT..Printer::STATE_BYTES];
        if pages.iter().any(|b| *b != 0) {
            write!(f, " pages{}", Hex(pages))?;
        }
        Ok(())
    }
}

impl Host {
    // The current line's first cell; a state may have a line that no page has.
    fn first_cell(&self) -> Option<&[u8]> {
        let line = usize::from(self.state[Printer::SHEET_AT]).checked_sub(1)?;
        let at = line * Stores::LINE_BYTES;
        self.page[..Stores::PAGE_BYTES].get(at..at + Stores::CELL_BYTES)
    }
}

// In how many places the two differ, as far as the shorter one goes.
fn unlike(a: &[u8], b: &[u8]) -> usize {
    let mut n = 0;
    for i in 0..a.len().min(b.len()) {
        n += usize::from(a[i] != b[i]);
    }
    n
}

// How many bytes are another than this. A sum, here and above: `filter` and `count` leave a branch for each byte, and `rows` took 1.7 times as long.
fn other_than(value: u8, bytes: &[u8]) -> usize
    ensures { result ≤ length bytes.now }
{
    let mut n = 0;
    for &b in bytes {
        n += usize::from(b != value);
    }
    n
}

// In how many bytes each store differs after a call, and how many of these are sense bytes of the state; then how many are not 00.
#[derive(Clone, Copy)]
pub struct Change<'a> {
    pub was: &'a Host,
    pub now: &'a Host,
}

impl fmt::Display for Change<'_> {
    fn fmt<W: fmt::Write>(&self, f: &mut fmt::Formatter<W>) -> fmt::Result {
        let was = self.was;
        let now = self.now;
        let sense = &now.state[Printer::SENSE0_AT..Printer::PAIRS_AT];
        let was_sense = &was.state[Printer::SENSE0_AT..Printer::PAIRS_AT];
        let changed = [
            ("state", unlike(&now.state, &was.state)),
            ("sense", unlike(sense, was_sense)),
            ("page", unlike(&now.page, &was.page)),
            ("legends", unlike(&now.legends, &was.legends)),
            ("tables", unlike(&now.tables, &was.tables)),
        ];
        let filled = [
            ("state", other_than(0, &now.state[..Printer::STATE_BYTES])),
            ("page", other_than(0, &now.page[..Stores::PAGE_BYTES])),
            (
                "legends",
                other_than(0, &now.legends[..Stores::LEGEND_BYTES]),
            ),
            ("tables", other_than(0, &now.tables[..Stores::TABLE_BYTES])),
        ];
        write!(f, " | changed{}", Figures(&changed))?;
        write!(f, " | filled{}", Figures(&filled))
    }
}

// What a call wrote into the buffer. Of an accepted copy: the first line's first and last cell, how many bytes are not 00, and how many are not the
// page's. Of an accepted Sense: bytes 0 to 3, 22 and 23.
#[derive(Clone, Copy)]
pub struct Written<'a> {
    pub call: Call<'a>,
    pub answer: Answer,
    pub buffer: &'a Buffer,
    pub page: &'a [u8],
}

impl fmt::Display for Written<'_> {
    fn fmt<W: fmt::Write>(&self, f: &mut fmt::Formatter<W>) -> fmt::Result {
        let buffer = self.buffer;
        let n = other_than(UNWRITTEN, buffer);
        write!(f, "{}", Figures(&[("| buffer", n)]))?;
        if !self.answer.is_accepted() {
            return Ok(());
        }
        match self.call {
            Call::Compose { .. } => {
                let copy = &buffer[..n];
                let last = Stores::LINE_BYTES - Stores::CELL_BYTES..Stores::LINE_BYTES;
                write!(f, " cell 1{}", Hex(&buffer[..Stores::CELL_BYTES]))?;
                write!(f, " cell {}{}", Stores::LINE_CELLS, Hex(&buffer[last]))?;
                let figures = [
                    ("filled", other_than(0, copy)),
                    ("unlike", unlike(copy, self.page)),
                ];
                write!(f, "{}", Figures(&figures))
            }
            Call::Command { byte: SENSE_IO, .. } => {
                write!(f, " reply{} ..{}", Hex(&buffer[..4]), Hex(&buffer[22..24]))
            }
            _ => Ok(()),
        }
    }
}

// The bytes of a double; one that is no number has none of its own.
#[derive(Clone, Copy)]
pub struct Feet(pub f64);

impl fmt::Display for Feet {
    fn fmt<W: fmt::Write>(&self, f: &mut fmt::Formatter<W>) -> fmt::Result {
        if self.0.is_nan() {
            return write!(f, " feet none");
        }
        write!(f, " feet{}", Hex(&self.0.to_bits().to_be_bytes()))
    }
}
