// T-03: cells in a store, code then mark.
ghost use Rattle.std.specs.Prelude.{◌≡◌, map, ◌*◌, length};
ghost use Rattle.numbers.specs.Sizes.{cell_bytes};
ghost use Rattle.line.specs.Cells.{unruled, stored};

// Sets cells to codes without a mark. By places, here and where a line is filled: a fill of chunks was tried, and its proof did not close.
pub fn set(cells: &mut [u8], new: &[u8])
    requires { length cells.old ≡ cell_bytes * length new.now }
    ensures { cells.new ≡ stored (map unruled new.now) }
{
    for (i, &code) in new.iter().enumerate() {
        let at = 2 * i;
        cells[at] = code;
        cells[at + 1] = 0;
    }
}
