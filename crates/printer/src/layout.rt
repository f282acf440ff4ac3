// The sizes of what a printer is lent, and docs/STATE.md: where each field stands in the state's bytes, as specs/Layout has it.
use crate::Printer;
use copies::Copies;
use form::Forms;
use numbers::{Sense, Stores};

impl Printer {
    pub const PAGE_BYTES: usize = Stores::PAGE_BYTES;

    pub const LEGEND_BYTES: usize = Stores::LEGEND_BYTES;

    pub const TABLE_BYTES: usize = Stores::TABLE_BYTES;

    pub const SENSE_BYTES: usize = Sense::REPLY_BYTES;

    pub const LENGTH_AT: usize = 0;

    pub const PITCHES_AT: usize = Printer::LENGTH_AT + 2;

    pub const SKIP_AT: usize = Printer::PITCHES_AT + 4;

    pub const BLOCKED_AT: usize = Printer::SKIP_AT + 1;

    pub const FCB_COUNT_AT: usize = Printer::BLOCKED_AT + 1;

    pub const LOADED_AT: usize = Printer::FCB_COUNT_AT + 1;

    pub const SELECTED_AT: usize = Printer::LOADED_AT + 4;

    pub const PAIR_COUNT_AT: usize = Printer::SELECTED_AT + 1;

    pub const REFERENCE_AT: usize = Printer::PAIR_COUNT_AT + 1;

    pub const SHEET_AT: usize = Printer::REFERENCE_AT + 1;

    pub const WRITTEN_AT: usize = Printer::SHEET_AT + 1;

    pub const WAITING_AT: usize = Printer::WRITTEN_AT + 1;

    pub const DUE_AT: usize = Printer::WAITING_AT + 1;

    pub const SENSE0_AT: usize = Printer::DUE_AT + 1;

    pub const PAIRS_AT: usize = Printer::SENSE0_AT + 5;

    pub const FCB_AT: usize = Printer::PAIRS_AT + Copies::PAIR_BYTES;

    pub const CHANNEL_AT: usize = Printer::FCB_AT + Forms::FCB_BYTES;

    pub const TRANSFER_AT: usize = Printer::CHANNEL_AT + 2;

    pub const FUSER_AT: usize = Printer::TRANSFER_AT + 2;

    pub const STACKER_AT: usize = Printer::FUSER_AT + 2;

    pub const STATE_BYTES: usize = Printer::STACKER_AT + 2;
}
