// The sizes and the state's fields, by their names in include/trestlepip.h.
ghost use Rattle.std.specs.Prelude.{◌≤◌};

use counters::Counters;
use numbers::Stores;
use printer::Printer;
use std::io;

const SIZES: [(&str, usize); 9] = [
    ("STATE_BYTES", Printer::STATE_BYTES),
    ("PAGE_BYTES", Printer::PAGE_BYTES),
    ("LEGEND_BYTES", Printer::LEGEND_BYTES),
    ("TABLE_BYTES", Printer::TABLE_BYTES),
    ("LINE_CELLS", Stores::LINE_CELLS),
    ("CELL_BYTES", Stores::CELL_BYTES),
    ("LINE_BYTES", Stores::LINE_BYTES),
    ("SENSE_BYTES", Printer::SENSE_BYTES),
    ("MOST_PAGES", Counters::MOST_PAGES as usize),
];

// A field, from its place to the next one's, which is not before it.
#[derive(Clone, Copy)]
struct Field {
    name: &'static str,
    at: usize,
    next: usize,
    ghost in_order: { at ≤ next },
}

fn place(name: &'static str, at: usize, next: usize) -> Field
    requires { at ≤ next }
{
    Field { name, at, next }
}

// The fields in their order.
fn fields() -> [Field; 24] {
    [
        place("FORM", Printer::LENGTH_AT, Printer::PITCHES_AT),
        place("PITCH", Printer::PITCHES_AT, Printer::SKIP_AT),
        place("SKIP", Printer::SKIP_AT, Printer::BLOCKED_AT),
        place("BLOCK", Printer::BLOCKED_AT, Printer::FCB_COUNT_AT),
        place("FCB_COUNT", Printer::FCB_COUNT_AT, Printer::LOADED_AT),
        place("LOADED", Printer::LOADED_AT, Printer::SELECTED_AT),
        place("SELECTED", Printer::SELECTED_AT, Printer::PAIR_COUNT_AT),
        place(
            "SEQUENCE_COUNT",
            Printer::PAIR_COUNT_AT,
            Printer::REFERENCE_AT,
        ),
        place("COPY_NUMBER", Printer::REFERENCE_AT, Printer::SHEET_AT),
        place("LINE", Printer::SHEET_AT, Printer::WRITTEN_AT),
        place("WRITTEN", Printer::WRITTEN_AT, Printer::WAITING_AT),
        place("WAITING", Printer::WAITING_AT, Printer::DUE_AT),
        place("RESET_DUE", Printer::DUE_AT, Printer::SENSE0_AT),
        place("SENSE_0", Printer::SENSE0_AT, Printer::SENSE0_AT + 1),
        place("SENSE_1", Printer::SENSE0_AT + 1, Printer::SENSE0_AT + 2),
        place("SENSE_2", Printer::SENSE0_AT + 2, Printer::SENSE0_AT + 3),
        place("SENSE_22", Printer::SENSE0_AT + 3, Printer::SENSE0_AT + 4),
        place("SENSE_23", Printer::SENSE0_AT + 4, Printer::PAIRS_AT),
        place("SEQUENCE", Printer::PAIRS_AT, Printer::FCB_AT),
        place("FCB", Printer::FCB_AT, Printer::CHANNEL_AT),
        place("CHANNEL_PAGE", Printer::CHANNEL_AT, Printer::TRANSFER_AT),
        place("TRANSFER_PAGE", Printer::TRANSFER_AT, Printer::FUSER_AT),
        place("FUSER_PAGE", Printer::FUSER_AT, Printer::STACKER_AT),
        place("STACKER_PAGE", Printer::STACKER_AT, Printer::STATE_BYTES),
    ]
}

pub fn sizes(rt: &impl Print) -> io::Result<()> {
    rt.println("# size: what the header names, and how many; part: a size that it does not name")?;
    for (name, n) in SIZES {
        println!(rt; "size {name} {n}")?;
    }
    println!(rt; "part SLOT_BYTES {}", Stores::SLOT_BYTES)
}

pub fn places(rt: &impl Print) -> io::Result<()> {
    rt.println("# place: a field of the state, its first byte, and how many it has")?;
    for field in fields() {
        println!(rt;
            "place {} {} {}",
            field.name,
            field.at,
            field.next - field.at
        )?;
    }
    Ok(())
}
