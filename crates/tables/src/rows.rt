// The rows of the table of numbers, by their names in include/trestlepip.h.
ghost use Rattle.std.specs.List.{Contains};
ghost use Rattle.numbers.specs.declared.Refusal.{Refusal};

use numbers::{Cause, Refusal, SenseStep};
use script::show::Hex;
use std::{fmt, io};

// A byte count whose two bytes differ from each other and from 00.
const COUNT: u16 = 0x1234;

// The names of a number and of its cause.
#[derive(Clone, Copy)]
struct Names(Refusal);

// The sense bytes that a row sets.
#[derive(Clone, Copy)]
struct After(SenseStep);

fn cause_name(cause: Cause) -> &'static str {
    match cause {
        Cause::FcbChannel => "FCB_CHANNEL",
        Cause::FcbSpacing => "FCB_SPACING",
        Cause::FcbSum => "FCB_SUM",
        Cause::FcbEdge => "FCB_EDGE",
        Cause::TableShort => "TABLE_SHORT",
        Cause::SequencePairs => "SEQUENCE_PAIRS",
        Cause::SequenceCounts => "SEQUENCE_COUNTS",
        Cause::NumberRecord => "NUMBER_RECORD",
        Cause::SegmentEnds => "SEGMENT_ENDS",
        Cause::SegmentFields => "SEGMENT_FIELDS",
    }
}

impl fmt::Display for Names {
    fn fmt<W: fmt::Write>(&self, f: &mut fmt::Formatter<W>) -> fmt::Result {
        let number = match self.0 {
            Refusal::LoadCheck(cause) => return write!(f, "LOAD_CHECK {}", cause_name(cause)),
            Refusal::Accepted => "ACCEPTED",
            Refusal::NotListed => "NOT_LISTED",
            Refusal::BadRecord => "BAD_RECORD",
            Refusal::PageWaiting => "PAGE_WAITING",
            Refusal::PageStarted => "PAGE_STARTED",
            Refusal::NoPage => "NO_PAGE",
            Refusal::BadIndex => "BAD_INDEX",
            Refusal::TooShort => "TOO_SHORT",
            Refusal::BadStore => "BAD_STORE",
            Refusal::BadForm => "BAD_FORM",
            Refusal::TwoPages => "TWO_PAGES",
            Refusal::NoneBetween => "NONE_BETWEEN",
            Refusal::MostBetween => "MOST_BETWEEN",
            Refusal::BadPaper => "BAD_PAPER",
        };
        write!(f, "{number} NO_CAUSE")
    }
}

impl fmt::Display for After {
    fn fmt<W: fmt::Write>(&self, f: &mut fmt::Formatter<W>) -> fmt::Result {
        match self.0 {
            SenseStep::Keep => write!(f, " kept"),
            SenseStep::Anew(s) => write!(f, "{}", Hex(&[s.b0, s.b1, s.b2, s.b22, s.b23])),
            SenseStep::NoSense => write!(f, " none"),
        }
    }
}

// Every refusal, in the order of the numbers and causes: none is left out.
fn all() -> [Refusal; 24]
    ensures { (x : Refusal) → Contains result x }
{
    [
        Refusal::Accepted,
        Refusal::NotListed,
        Refusal::BadRecord,
        Refusal::LoadCheck(Cause::FcbChannel),
        Refusal::LoadCheck(Cause::FcbSpacing),
        Refusal::LoadCheck(Cause::FcbSum),
        Refusal::LoadCheck(Cause::FcbEdge),
        Refusal::LoadCheck(Cause::TableShort),
        Refusal::LoadCheck(Cause::SequencePairs),
        Refusal::LoadCheck(Cause::SequenceCounts),
        Refusal::LoadCheck(Cause::NumberRecord),
        Refusal::LoadCheck(Cause::SegmentEnds),
        Refusal::LoadCheck(Cause::SegmentFields),
        Refusal::PageWaiting,
        Refusal::PageStarted,
        Refusal::NoPage,
        Refusal::BadIndex,
        Refusal::TooShort,
        Refusal::BadStore,
        Refusal::BadForm,
        Refusal::TwoPages,
        Refusal::NoneBetween,
        Refusal::MostBetween,
        Refusal::BadPaper,
    ]
}

fn tell(rt: &impl Print, refusal: Refusal) -> io::Result<()> {
    let row = refusal.row(COUNT);
    println!(rt;
        "row {} {} {} {:02X}{}",
        Names(refusal),
        row.number,
        row.cause,
        row.status,
        After(row.sense)
    )
}

pub fn rows(rt: &impl Print) -> io::Result<()> {
    rt.println(
        "# row: the names of a number and of its cause, both as numbers, the status, \
         and sense bytes 0, 1, 2, 22, 23 for a record of 4660 (1234 hexadecimal) bytes",
    )?;
    for refusal in all() {
        tell(rt, refusal)?;
    }
    Ok(())
}
