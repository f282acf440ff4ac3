// Document 01, "Numbers": the refusals and their causes, the answer and the sense; and the table's row for each refusal.
#![tactic(auto)]

ghost use Rattle.std.specs.Prelude.{◌≡◌};
ghost use Rattle.numbers.specs.Numbers.{sense3, sense_after, row_with, row_telling, check_row, causing, sum_caused, cause_of, row_of, is_accepted, only};

// The lent stores. Their bytes are the host's; their sizes, and a line's, stand here.
#[derive(Clone, Copy)]
pub struct Stores {}

impl Stores {
    // A cell is two bytes, its code and its rule mark.
    pub const CELL_BYTES: usize = 2;

    pub const LINE_CELLS: usize = 204;

    pub const LINE_BYTES: usize = Stores::CELL_BYTES * Stores::LINE_CELLS;

    pub const PAGE_BYTES: usize = 132 * Stores::LINE_BYTES;

    // A load record has at most as many bytes as the legends.
    pub const LEGEND_BYTES: usize = 8192;

    pub const SLOT_BYTES: usize = 256;

    pub const TABLE_BYTES: usize = 4 * Stores::SLOT_BYTES;
}

// The rows of the paper's table of numbers, T-02's two, and T-04's. Accepted, row 0, is no refusal: the answer holds an enum by document 01, and `row_of` and
// the theorems are over all its rows. Orders answer a Result.
#[derive(Clone, Copy)]
pub enum Refusal {
    Accepted,
    NotListed,
    BadRecord,
    LoadCheck(Cause),
    PageWaiting,
    PageStarted,
    NoPage,
    BadIndex,
    TooShort,
    BadStore,
    BadForm,
    TwoPages,
    NoneBetween,
    MostBetween,
    BadPaper,
}

// Which cause of its load's order a load check found first.
#[derive(Clone, Copy)]
pub enum Cause {
    FcbChannel,
    FcbSpacing,
    FcbSum,
    FcbEdge,
    TableShort,
    SequencePairs,
    SequenceCounts,
    NumberRecord,
    SegmentEnds,
    SegmentFields,
}

#[derive(Clone, Copy)]
pub struct Answer {
    pub refusal: Refusal,
    pub status: u8,
    pub ready: bool,
    pub lines: u8,
    pub copy: u16,
    pub mark: u8,
    // Of a write or a legend load: the first unprintable position, from 1, or 0 for none, as the C interface packs it; and how many there are.
    pub first: u16,
    pub count: u16,
}

// The table's last column: the sense is kept or set anew; or there is none, as a refused Start leaves no printer.
#[derive(Clone, Copy)]
pub enum SenseStep {
    Keep,
    Anew(Sense),
    NoSense,
}

// A row of the table, with the number by which a packed answer names the cause of a load check, 0 of every other.
#[derive(Clone, Copy)]
pub struct Row {
    pub number: u8,
    pub status: u8,
    pub sense: SenseStep,
    pub cause: u8,
}

// What a load check shows of its cause: the number by which a packed answer names it, and its sense.
#[derive(Clone, Copy)]
pub struct Caused {
    pub number: u8,
    pub sense: Sense,
}

// The sense bytes that a printer keeps. Byte 3 is computed when Sense asks, and all others are 00.
#[derive(Clone, Copy)]
pub struct Sense {
    pub b0: u8,
    pub b1: u8,
    pub b2: u8,
    pub b22: u8,
    pub b23: u8,
}

impl Sense {
    // How many bytes Sense replies.
    pub const REPLY_BYTES: usize = 24;

    pub const CLEAR: Sense = Sense {
        b0: 0,
        b1: 0,
        b2: 0,
        b22: 0,
        b23: 0,
    };

    // What a row makes of it.
    pub fn after(self, step: SenseStep) -> Sense
        ensures { result ≡ sense_after self step }
    {
        match step {
            SenseStep::Keep => self,
            SenseStep::Anew(sense) => sense,
            SenseStep::NoSense => sense3(0, 0, 0),
        }
    }
}

// Sense bytes 0, 1 and 2, the others 00.
pub fn sense3(b0: u8, b1: u8, b2: u8) -> Sense
    ensures { result ≡ sense3 b0 b1 b2 }
{
    Sense {
        b0,
        b1,
        b2,
        ..Sense::CLEAR
    }
}

impl Answer {
    // No page ready, no lines moved, no copy, nothing unprintable.
    pub fn only(refusal: Refusal, status: u8) -> Answer
        ensures { result ≡ only refusal status }
    {
        Answer {
            refusal,
            status,
            ready: false,
            lines: 0,
            copy: 0,
            mark: 0,
            first: 0,
            count: 0,
        }
    }
}

// A row that names no cause.
fn row_with(number: u8, status: u8, sense: SenseStep) -> Row
    ensures { result ≡ row_with number status sense }
{
    Row {
        number,
        status,
        sense,
        cause: 0,
    }
}

// A row with something to tell: unit check, and sense bytes 0 and 1.
fn row_telling(number: u8, b0: u8, b1: u8) -> Row
    ensures { result ≡ row_telling number b0 b1 }
{
    row_with(number, 0x0E, SenseStep::Anew(sense3(b0, b1, 0)))
}

// The row of a load check.
fn check_row(caused: Caused) -> Row
    ensures { result ≡ check_row caused }
{
    Row {
        cause: caused.number,
        ..row_with(3, 0x0E, SenseStep::Anew(caused.sense))
    }
}

// A load check's sense is 02 and its cause.
fn causing(number: u8, b1: u8, b2: u8) -> Caused
    ensures { result ≡ causing number b1 b2 }
{
    Caused {
        number,
        sense: sense3(0x02, b1, b2),
    }
}

// The sum of an FCB shows the record's byte count.
fn sum_caused(count: u16) -> Caused
    ensures { result ≡ sum_caused count }
{
    let [b22, b23] = count.to_be_bytes();
    Caused {
        number: 3,
        sense: Sense {
            b22,
            b23,
            ..sense3(0x02, 0x08, 0)
        },
    }
}

impl Cause {
    // What it shows; `count` is the record's byte count.
    #[tactic(auto, unfolding(crate::specs::Numbers::cause_of))]
    fn shows(self, count: u16) -> Caused
        ensures { result ≡ cause_of count self }
    {
        match self {
            Cause::FcbChannel => causing(1, 0x10, 0),
            Cause::FcbSpacing => causing(2, 0x40, 0),
            Cause::FcbSum => sum_caused(count),
            Cause::FcbEdge => causing(4, 0x20, 0),
            Cause::TableShort => causing(5, 0x80, 0),
            Cause::SequencePairs => causing(6, 0x80, 0),
            Cause::SequenceCounts => causing(7, 0, 0x10),
            Cause::NumberRecord => causing(8, 0x80, 0),
            Cause::SegmentEnds => causing(9, 0x80, 0),
            Cause::SegmentFields => causing(10, 0, 0x20),
        }
    }
}

impl Refusal {
    // Its row; `count` is the record's byte count.
    #[tactic(auto, unfolding(crate::specs::Numbers::row_of))]
    pub fn row(self, count: u16) -> Row
        ensures { result ≡ row_of count self }
    {
        match self {
            Refusal::Accepted => row_with(0, 0x0C, SenseStep::Keep),
            Refusal::NotListed => row_telling(1, 0x80, 0x80),
            Refusal::BadRecord => row_with(2, 0, SenseStep::Keep),
            Refusal::LoadCheck(cause) => check_row(cause.shows(count)),
            Refusal::PageWaiting => row_with(4, 0x10, SenseStep::Keep),
            Refusal::PageStarted => row_telling(5, 0x02, 0),
            Refusal::NoPage => row_with(6, 0, SenseStep::Keep),
            Refusal::BadIndex => row_with(7, 0, SenseStep::Keep),
            Refusal::TooShort => row_with(8, 0, SenseStep::Keep),
            Refusal::BadStore => row_with(9, 0, SenseStep::Keep),
            Refusal::BadForm => row_with(10, 0, SenseStep::NoSense),
            Refusal::TwoPages => row_with(11, 0, SenseStep::Keep),
            Refusal::NoneBetween => row_with(12, 0, SenseStep::Keep),
            Refusal::MostBetween => row_with(13, 0, SenseStep::Keep),
            Refusal::BadPaper => row_with(16, 0, SenseStep::Keep),
        }
    }

    #[tactic(auto, unfolding(crate::specs::Numbers::is_accepted))]
    pub fn is_accepted(self) -> bool
        ensures { result ≡ is_accepted self }
    {
        self.row(0).number == 0
    }
}
