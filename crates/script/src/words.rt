// A line of the script read: what it asks for, and the bytes that it gives.
ghost use Rattle.std.specs.Prelude.{◌<◌, IfSome};

use numbers::Stores;

// Room for a command's byte and a record that is one byte longer than a load takes.
pub const GIVEN_ROOM: usize = 1 + Stores::LEGEND_BYTES + 1;

// A line that can be read. Comments, and what sets bytes or sizes, call nothing.
#[derive(Clone, Copy)]
pub enum Line<'a> {
    Comment,
    Poke(Poke),
    Sizes(Sizes),
    BufferSize(u16),
    Call(Call<'a>),
}

// A byte for a place of a store.
#[derive(Clone, Copy)]
pub enum Poke {
    State { at: u8, value: u8 },
    Legends { at: u16, value: u8 },
    Page { at: u16, value: u8 },
}

// How many bytes of each store to lend.
#[derive(Clone, Copy)]
pub struct Sizes {
    pub state: u16,
    pub page: u16,
    pub legends: u16,
    pub tables: u16,
}

#[derive(Clone, Copy)]
pub enum Call<'a> {
    Start {
        form: u16,
        pitches: [u8; 4],
        skip: u8,
    },
    Compose {
        copy: u16,
    },
    Release,
    Transferred,
    Fused,
    Stacked,
    Cancel,
    Restart,
    Feet {
        initial: u16,
        last: u16,
        copies: u32,
        form: u32,
    },
    Command {
        byte: u8,
        record: &'a [u8],
    },
}

// The part of a text without the mark that ends it, which its last part may lack.
pub fn unmarked(part: &[u8], mark: u8) -> &[u8] {
    part.strip_suffix(&[mark]).unwrap_or(part)
}

// Capital letters alone: the library's digits would be the small ones too.
fn digit(letter: u8) -> Option<u8>
    ensures { IfSome result (λ d. d < 16) }
{
    match letter {
        b'0'..=b'9' => Some(letter - b'0'),
        b'A'..=b'F' => Some(letter - b'A' + 10),
        _ => None,
    }
}

// A hexadecimal number, up to FFFF.
fn number(digits: &[u8]) -> Option<u16> {
    if digits.is_empty() {
        return None;
    }
    let mut value = 0u16;
    for &next in digits {
        value = value.checked_mul(16)? + u16::from(digit(next)?);
    }
    Some(value)
}

fn byte(high: u8, low: u8) -> Option<u8> {
    Some(digit(high)? * 16 + digit(low)?)
}

// A word's byte, and how often it stands: the number after its star, or once.
fn repeated(word: &[u8]) -> Option<(u8, u16)> {
    match word {
        [high, low] => Some((byte(*high, *low)?, 1)),
        [high, low, b'*', times @ ..] => Some((byte(*high, *low)?, number(times)?)),
        _ => None,
    }
}

// The bytes of these words, none where one cannot be read or the room is too small.
fn bytes<'a>(words: &[u8], room: &'a mut [u8]) -> Option<&'a [u8]> {
    let mut end = 0;
    for word in words.split_inclusive(|mark| *mark == b' ') {
        let (value, times) = repeated(unmarked(word, b' '))?;
        let start = end;
        end += usize::from(times);
        room.get_mut(start..end)?.fill(value);
    }
    Some(&room[..end])
}

// Whether the letter is known, and has as many bytes as it should.
fn lettered(letter: u8, given: &[u8]) -> Option<Line<'_>> {
    let line = match (letter, given) {
        (b'S', &[f0, f1, p0, p1, p2, p3, skip]) => Line::Call(Call::Start {
            form: u16::from_be_bytes([f0, f1]),
            pitches: [p0, p1, p2, p3],
            skip,
        }),
        (b'C', &[c0, c1]) => Line::Call(Call::Compose {
            copy: u16::from_be_bytes([c0, c1]),
        }),
        (b'R', []) => Line::Call(Call::Release),
        (b'T', []) => Line::Call(Call::Transferred),
        (b'U', []) => Line::Call(Call::Fused),
        (b'K', []) => Line::Call(Call::Stacked),
        (b'X', []) => Line::Call(Call::Cancel),
        (b'N', []) => Line::Call(Call::Restart),
        (b'F', &[i0, i1, l0, l1, c0, c1, c2, c3, f0, f1, f2, f3]) => Line::Call(Call::Feet {
            initial: u16::from_be_bytes([i0, i1]),
            last: u16::from_be_bytes([l0, l1]),
            copies: u32::from_be_bytes([c0, c1, c2, c3]),
            form: u32::from_be_bytes([f0, f1, f2, f3]),
        }),
        (b'P', &[at, value]) => Line::Poke(Poke::State { at, value }),
        (b'G', &[a0, a1, value]) => Line::Poke(Poke::Legends {
            at: u16::from_be_bytes([a0, a1]),
            value,
        }),
        (b'M', &[a0, a1, value]) => Line::Poke(Poke::Page {
            at: u16::from_be_bytes([a0, a1]),
            value,
        }),
        (b'L', &[s0, s1, p0, p1, l0, l1, t0, t1]) => Line::Sizes(Sizes {
            state: u16::from_be_bytes([s0, s1]),
            page: u16::from_be_bytes([p0, p1]),
            legends: u16::from_be_bytes([l0, l1]),
            tables: u16::from_be_bytes([t0, t1]),
        }),
        (b'B', &[b0, b1]) => Line::BufferSize(u16::from_be_bytes([b0, b1])),
        _ => return None,
    };
    Some(line)
}

impl<'a> Line<'a> {
    // None where the line cannot be read. What it gives is put into the room.
    pub fn read(line: &[u8], room: &'a mut [u8]) -> Option<Line<'a>> {
        match line {
            [b'#'] | [b'#', b' ', ..] => Some(Line::Comment),
            [letter] => lettered(*letter, &[]),
            [letter, b' ', words @ ..] => lettered(*letter, bytes(words, room)?),
            words => {
                let (&byte, record) = bytes(words, room)?.split_first()?;
                Some(Line::Call(Call::Command { byte, record }))
            }
        }
    }
}
