// What Start and a reset leave, and no printer.
ghost use Rattle.std.specs.Prelude.{◌≡◌, true, []};
ghost use Rattle.seq.specs.Words.{listed};
ghost use Rattle.numbers.specs.declared.Refusal.TheVariants.{Accepted};
ghost use Rattle.numbers.specs.Numbers.{only};
ghost use Rattle.form.specs.Form.{form_lengths, start_fcb, forms_of};
ghost use Rattle.calls.specs.Core.{stores_of};
ghost use Rattle.calls.specs.Reset.{blank_sheet, reset_state};
ghost use Rattle.calls.specs.Start.{start_world};
ghost use Rattle.calls.specs.Premises.{Startable};
ghost use Rattle.printer.specs.Worlds.{outcome};

use crate::{Printer, Step};
use calls::{Asked, Fixed, Sheet, State};
use copies::Copies;
use counters::Counters;
use form::Forms;
use line::Slots;
use numbers::Sense;

// A sheet with nothing written and nothing waiting.
#[tactic(auto, unfolding(calls::specs::Reset::blank_sheet))]
pub(crate) fn blank_sheet(line: u8) -> Sheet
    ensures { result ≡ blank_sheet line }
{
    Sheet {
        line,
        written: false,
        waiting: false,
        due: false,
    }
}

impl Printer {
    // What a refused Start hands back: all zeros, which no other call takes.
    pub const NONE: Printer = Printer {
        state: State {
            fixed: Fixed {
                length: 0,
                pitches: [0; 4],
                old: false,
            },
            blocked: false,
            forms: Forms {
                fcb: [0; Forms::FCB_BYTES],
                count: 0,
            },
            slots: Slots {
                loaded: [false; 4],
                selected: 0,
            },
            copies: Copies {
                pairs: [0; Copies::PAIR_BYTES],
                count: 0,
                reference: 0,
            },
            sheet: Sheet {
                line: 0,
                written: false,
                waiting: false,
                due: false,
            },
            counters: Counters::START,
        },
        sense: Sense::CLEAR,
    };

    // The starting FCB of a listed form: 6 lines per inch, with channel 1 at line 1.
    fn start_fcb(length: u16) -> Forms
        requires { listed form_lengths length ≡ true }
        ensures { result ≡ forms_of (start_fcb length) }
    {
        let mut fcb = [0; Forms::FCB_BYTES];
        fcb[3] = 1;
        Forms {
            fcb,
            count: (length / 4) as u8,
        }
    }

    // The starting state on a listed form, which a reset puts back; the check switch and the counters stay.
    #[tactic(auto, unfolding(calls::specs::Reset::reset_state, line::specs::Line::start_slots, copies::specs::Copies::start_copies, seq::specs::Words::padded))]
    pub(crate) fn start_state(fixed: Fixed, blocked: bool, counters: Counters) -> State
        requires { listed form_lengths fixed.length ≡ true }
        ensures { result ≡ reset_state fixed (record { blocked = blocked; counters = counters }) }
    {
        State {
            fixed,
            blocked,
            forms: Printer::start_fcb(fixed.length),
            slots: Slots::START,
            copies: Copies::START,
            sheet: blank_sheet(1),
            counters,
        }
    }

    // All as a reset leaves it, with the page empty, the checks allowed, the sense clear and the counters at zero, whatever
    // printer there was.
    pub fn start(
        mut self,
        asked: Asked,
        page: &mut [u8],
        legends: &mut [u8],
        tables: &mut [u8],
    ) -> Step
        requires { Startable asked (stores_of page.old legends.old tables.old) }
        ensures { outcome result [] (stores_of page.new legends.new tables.new)
            ≡ record { answer = only Accepted 0; buffer = []; world = start_world asked } }
    {
        let [p0, p1, p2, p3] = asked.pitches;
        let fixed = Fixed {
            length: asked.length as u16,
            pitches: [p0 as u8, p1 as u8, p2 as u8, p3 as u8],
            old: asked.skip == Fixed::OLD_WAY,
        };
        page.fill(0);
        legends.fill(0);
        line::tables::start_tables(tables);
        self.state = Printer::start_state(fixed, false, Counters::START);
        self.sense = Sense::CLEAR;
        self.accepted(0)
    }
}
