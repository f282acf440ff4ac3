// T-03: the marks of a page, judged.
ghost use Rattle.std.specs.Prelude.{◌≡◌, ◌+◌, ◌*◌, ◌≤◌, length};
ghost use Rattle.seq.specs.Words.{any};
ghost use Rattle.line.specs.Cells.{cells_in, marks_ok};
ghost use Rattle.line.specs.Scan.{bad_mark, bad_word};

// A block, of so many cells.
const BLOCK_BYTES: usize = 1024;

const BLOCK_CELLS: usize = 512;

// Two cells as one number, which the compiler loads as one.
fn word(code0: u8, mark0: u8, code1: u8, mark1: u8) -> u32
    ensures { result ≡ code0 + 0x100 * mark0 + 0x10000 * code1 + 0x1000000 * mark1 }
{
    u32::from_le_bytes([code0, mark0, code1, mark1])
}

// Whether one of a word's two marks is above 1.
fn is_bad(word: u32) -> bool
    ensures { result ≡ bad_word word }
{
    (0x1FF < word % 0x10000) | (0x1FFFFFF < word)
}

// All words of a block put together by `|`, with no branch: one test then sees a high bit of any mark.
fn any_bad(block: &[u8; BLOCK_BYTES]) -> bool
    ensures { result ≡ any bad_mark (cells_in block.now) }
{
    let mut seen: u32 = 0;
    for k in 0..BLOCK_BYTES / 4 {
        let i = 4 * k;
        seen |= word(block[i], block[i + 1], block[i + 2], block[i + 3]);
    }
    is_bad(seen)
}

// Goes from the last block to the first, so that the page's front, which a write or a copy reads next, is what the cache has read last. It ends at the
// first block with a mark above 1; the one at the front goes again over cells of the one behind it.
pub fn marks_ok(page: &[u8]) -> bool
    requires { 1024 ≤ length page.now }
    ensures { result ≡ marks_ok page.now }
{
    let cells = page.len() / 2;
    for turn in 0..cells / BLOCK_CELLS {
        let at = 2 * (cells - BLOCK_CELLS * (turn + 1));
        if any_bad(page[at..at + BLOCK_BYTES].as_array().unwrap()) {
            return false;
        }
    }
    !any_bad(page.first_chunk().unwrap())
}
