// A printer's lent stores, how much of each is lent, and a byte put into one.
ghost use Rattle.std.specs.Prelude.{◌≤◌, IfSome};
ghost use Rattle.script.specs.declared.stores.TheConstants.{STATE_ROOM, PAGE_ROOM, LEGEND_ROOM, TABLE_ROOM, BUFFER_ROOM};

use crate::words::{Poke, Sizes};
use numbers::Stores;
use printer::Printer;

// Each store has room for one byte more than it is to have, and the buffer for one more than a page, so that too much can be lent.
pub const STATE_ROOM: usize = Printer::STATE_BYTES + 1;

pub const PAGE_ROOM: usize = Stores::PAGE_BYTES + 1;

pub const LEGEND_ROOM: usize = Stores::LEGEND_BYTES + 1;

pub const TABLE_ROOM: usize = Stores::TABLE_BYTES + 1;

pub const BUFFER_ROOM: usize = Stores::PAGE_BYTES + 1;

pub type Buffer = [u8; BUFFER_ROOM];

// What the buffer is full of before a call: no code and no mark is FF, so that every byte of a copy differs from it.
pub const UNWRITTEN: u8 = 0xFF;

// The stores of a host, which it lends to the printer.
#[derive(Clone, Copy)]
pub struct Host {
    pub state: [u8; STATE_ROOM],
    pub page: [u8; PAGE_ROOM],
    pub legends: [u8; LEGEND_ROOM],
    pub tables: [u8; TABLE_ROOM],
}

// How many bytes are lent of each store and of the buffer.
#[derive(Clone, Copy)]
pub struct Lent {
    pub state: usize,
    pub page: usize,
    pub legends: usize,
    pub tables: usize,
    pub buffer: usize,
    ghost state_fits: { state ≤ STATE_ROOM },
    ghost page_fits: { page ≤ PAGE_ROOM },
    ghost legends_fit: { legends ≤ LEGEND_ROOM },
    ghost tables_fit: { tables ≤ TABLE_ROOM },
    ghost buffer_fits: { buffer ≤ BUFFER_ROOM },
}

// A size that a line gives, of which 0 is the usual one; none where it is beyond the room.
fn size(given: u16, usual: usize, room: usize) -> Option<usize>
    requires { usual ≤ room }
    ensures { IfSome result (λ n. n ≤ room) }
{
    if given == 0 {
        return Some(usual);
    }
    Some(usize::from(given)).filter(|n| *n <= room)
}

impl Host {
    // Bytes that no Start leaves.
    pub fn new() -> Host {
        Host {
            state: [4; STATE_ROOM],
            page: [5; PAGE_ROOM],
            legends: [6; LEGEND_ROOM],
            tables: [7; TABLE_ROOM],
        }
    }

    // None where the store ends before the place.
    pub fn poke(&mut self, poke: Poke) -> Option<()> {
        match poke {
            Poke::State { at, value } => *self.state.get_mut(usize::from(at))? = value,
            Poke::Legends { at, value } => *self.legends.get_mut(usize::from(at))? = value,
            Poke::Page { at, value } => *self.page.get_mut(usize::from(at))? = value,
        }
        Some(())
    }
}

impl Lent {
    pub const USUAL: Lent = Lent {
        state: Printer::STATE_BYTES,
        page: Stores::PAGE_BYTES,
        legends: Stores::LEGEND_BYTES,
        tables: Stores::TABLE_BYTES,
        buffer: Stores::PAGE_BYTES,
    };

    // None where there is no room for so much of a store.
    pub fn resized(self, sizes: Sizes) -> Option<Lent> {
        let usual = Lent::USUAL;
        Some(Lent {
            state: size(sizes.state, usual.state, STATE_ROOM)?,
            page: size(sizes.page, usual.page, PAGE_ROOM)?,
            legends: size(sizes.legends, usual.legends, LEGEND_ROOM)?,
            tables: size(sizes.tables, usual.tables, TABLE_ROOM)?,
            buffer: self.buffer,
        })
    }

    // The same for the buffer, of which 0 is 0.
    pub fn with_buffer(self, size: u16) -> Option<Lent> {
        let buffer = usize::from(size);
        if buffer > BUFFER_ROOM {
            return None;
        }
        Some(Lent {
            state: self.state,
            page: self.page,
            legends: self.legends,
            tables: self.tables,
            buffer,
        })
    }
}
