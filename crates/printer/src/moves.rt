// What a refused command tells, and what writes and immediate commands do: document 01, "Numbers", "Movement", "Writing a line". Each method takes the
// stores that it reads or changes, and answers for any others.
ghost use Rattle.std.specs.Prelude.{◌≡◌, cond, ◌&&◌, List, ℕ};
ghost use Rattle.numbers.specs.declared.Refusal.TheVariants.{Accepted};
ghost use Rattle.movement.specs.Movement.{is_there, still, to_top};
ghost use Rattle.numbers.specs.Numbers.{only};
ghost use Rattle.line.specs.Line.{no_causes};
ghost use Rattle.calls.specs.Core.{Stores, stores_of, lines_now};
ghost use Rattle.calls.specs.Effects.{refused, done, moved_sheet, moved_core, move_of, do_move, do_write, standing};
ghost use Rattle.printer.specs.Worlds.{Did};
ghost use Rattle.printer.specs.Premises.{Fit, Writes};

use crate::{Printer, Step};
use calls::Sheet;
use form::Layout;
use line::Causes;
use movement::{Motion, Moved};
use numbers::{Answer, Refusal, Sense};

#[tactic(auto, unfolding(calls::specs::Effects::moved_sheet))]
fn moved_sheet(due: bool, sheet: Sheet, moved: Moved) -> Sheet
    ensures { result ≡ moved_sheet due sheet moved }
{
    if moved.pages == 0 {
        Sheet {
            line: moved.line,
            written: sheet.written & (moved.lines == 0),
            ..sheet
        }
    } else {
        Sheet {
            line: moved.line,
            written: false,
            waiting: true,
            due,
        }
    }
}

impl Printer {
    #[tactic(auto, unfolding(calls::specs::Effects::refused))]
    pub fn refuse(mut self, refusal: Refusal, count: u16) -> Step
        ensures { (m : Stores) → Did self m result m (λ k. refused k count refusal) }
    {
        let row = refusal.row(count);
        self.sense = self.sense.after(row.sense);
        Step {
            printer: self,
            answer: Answer::only(refusal, row.status),
        }
    }

    // Accepted, with nothing to tell but a status.
    pub(crate) fn accepted(self, status: u8) -> Step
        ensures { result ≡ record { printer = self; answer = only Accepted status } }
    {
        Step {
            printer: self,
            answer: Answer::only(Refusal::Accepted, status),
        }
    }

    // Accepted, with the sense set anew by its causes and its movement.
    #[tactic(auto, unfolding(calls::specs::Effects::done, numbers::specs::Numbers::row_of))]
    fn finish(mut self, causes: Causes, moved: Moved) -> Step
        ensures { (m : Stores) → Did self m result m (λ k. done k causes moved) }
    {
        let b1 = line::cause_byte(self.state.blocked, causes);
        let check = b1 != 0;
        let b0 = 0x08 * u8::from(check) + u8::from(moved.nine);
        let status = 0x0C + 0x02 * u8::from(check | moved.nine) + u8::from(moved.twelve);
        self.sense = Sense {
            b0,
            b1,
            ..Sense::CLEAR
        };
        Step {
            printer: self,
            answer: Answer {
                ready: moved.pages != 0,
                lines: moved.lines,
                first: causes.unprintables.first,
                count: causes.unprintables.count,
                ..Answer::only(Refusal::Accepted, status)
            },
        }
    }

    // Accepted, with nothing moved.
    pub(crate) fn stand(self, causes: Causes) -> Step
        ensures { (m : Stores) → Did self m result m (λ k. done k causes (standing k)) }
    {
        self.finish(causes, Moved::still(self.state.sheet.line))
    }

    // The page is completed; its Release is to reset where `due` says so.
    #[tactic(auto, unfolding(movement::specs::Movement::to_top, line::specs::Line::no_causes))]
    pub(crate) fn complete(mut self, due: bool) -> Step
        ensures { (m : Stores) → Did self m result m (λ k. done (moved_core due k to_top) no_causes to_top) }
    {
        self.state.sheet = moved_sheet(due, self.state.sheet, Moved::TOP);
        self.finish(Causes::NONE, Moved::TOP)
    }

    // The movement of a command that may stand, or may not. A local is lent, as a field would lay the whole printer into memory.
    fn move_of(self, form: Layout, may: bool, motion: Motion) -> Moved
        requires { Fit self.state form }
        ensures { let line = self.state.sheet.line in
            result ≡ cond (may && is_there (lines_now self.state) line motion) (still line) (move_of self.state motion) }
    {
        let fcb = self.state.forms.fcb;
        let line = self.state.sheet.line;
        movement::move_form(&fcb, form.top, form.lines, line, may, motion)
    }

    // The immediate commands. In the new way one may stand, unless the line is written on.
    #[tactic(auto, unfolding(calls::specs::Effects::do_move, calls::specs::Effects::at_once, calls::specs::Effects::stands, line::specs::Line::no_causes))]
    pub fn move_on(mut self, form: Layout, motion: Motion) -> Step
        requires { Fit self.state form }
        ensures { (m : Stores) → Did self m result m (λ k. do_move k motion) }
    {
        let may = !self.state.fixed.old & !self.state.sheet.written;
        let moved = self.move_of(form, may, motion);
        self.state.sheet = moved_sheet(false, self.state.sheet, moved);
        self.finish(line::or_unmatched(Causes::NONE, moved.missed), moved)
    }

    // Write, then space or skip.
    pub fn write(
        mut self,
        form: Layout,
        motion: Motion,
        sent: &[u8],
        page: &mut [u8],
        tables: &[u8],
    ) -> Step
        requires { Writes self.state form sent.now page.old tables.now }
        ensures { (l : List ℕ) → Did self (stores_of page.old l tables.now) result
            (stores_of page.new l tables.now) (λ k. do_write k motion sent.now) }
    {
        let sheet = self.state.sheet;
        let found = line::write_line(
            page,
            sheet.line,
            sheet.written,
            sent,
            self.state.fixed.pitches,
            self.state.slots,
            tables,
        );
        let moved = self.move_of(form, false, motion);
        let written = Sheet {
            written: true,
            ..sheet
        };
        self.state.sheet = moved_sheet(false, written, moved);
        self.finish(line::or_unmatched(found, moved.missed), moved)
    }
}
