// What accepted calls of Compose and Release do with the page that waits, and what the calls of the stations, a cancel and a restart count.
ghost use Rattle.std.specs.Prelude.{◌≡◌, List, ℕ};
ghost use Rattle.copies.specs.Copies.{copy_mark};
ghost use Rattle.calls.specs.Core.{Stores, stores_of};
ghost use Rattle.calls.specs.Calls.{do_compose, do_release, do_tally, outcome_of};
ghost use Rattle.printer.specs.Worlds.{core_of, outcome, Did};
ghost use Rattle.printer.specs.Premises.{Composes, Releases};

use crate::{Printer, Step, starting};
use counters::{Tally, lending};
use form::Layout;
use numbers::{Answer, Refusal};

impl Printer {
    // The overlay mark of a copy.
    #[tactic(auto, unfolding(copies::specs::Copies::copy_mark))]
    fn mark_of(self, copy: u16) -> u8
        ensures { result ≡ copy_mark self.state.copies copy }
    {
        let pairs = self.state.copies.pairs;
        copies::copy_mark(&pairs, self.state.copies.count, copy)
    }

    // The copy's number and mark, and its cells over the front of the output.
    pub fn compose(
        mut self,
        form: Layout,
        copy: u16,
        out: &mut [u8],
        page: &[u8],
        legends: &[u8],
    ) -> Step
        requires { Composes self.state form copy out.old page.now legends.now }
        ensures { (t : List ℕ) → let m = stores_of page.now legends.now t in
            outcome result out.new m ≡ outcome_of self.sense out.old (do_compose (core_of self m) copy) }
    {
        let number = copies::copy_number(self.state.copies.reference, copy);
        let mark = self.mark_of(copy);
        legends::compose::compose(out, page, legends, number, form.lines as u8);
        Step {
            printer: self,
            answer: Answer {
                copy: number,
                mark,
                ..Answer::only(Refusal::Accepted, 0)
            },
        }
    }

    // The page is counted, and empty again; a reset that was due is done. Both ways meet (T-06).
    pub fn release(mut self, page: &mut [u8], legends: &mut [u8], tables: &mut [u8]) -> Step
        requires { Releases self.state page.old legends.old tables.old }
        ensures { Did self (stores_of page.old legends.old tables.old) result
            (stores_of page.new legends.new tables.new) do_release }
    {
        let sheet = self.state.sheet;
        page.fill(0);
        self.state.sheet = starting::blank_sheet(sheet.line);
        self.state.counters = self.state.counters.counted();
        if sheet.due {
            self = self.reset(legends, tables);
        }
        self.accepted(0)
    }

    // A report, a cancel or a restart changes the counters alone.
    #[tactic(auto, unfolding(calls::specs::Calls::tallying, calls::specs::Calls::do_tally))]
    pub fn tally(mut self, tally: Tally) -> Step
        ensures { (m : Stores) → Did self m result m (λ k. do_tally k tally) }
    {
        self.state.counters = lending::tally(self.state.counters, tally);
        self.accepted(0)
    }
}
