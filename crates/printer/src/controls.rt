// The control commands: document 01, "Movement" and "Reset and sense".
ghost use Rattle.std.specs.Prelude.{◌≡◌, List, ℕ, ◌≤◌, length};
ghost use Rattle.numbers.specs.Sizes.{sense_size};
ghost use Rattle.calls.specs.declared.Control.TheVariants.{NoOp, SenseIo, Initialize, Clear, Block, Allow, Select};
ghost use Rattle.calls.specs.Core.{Stores, stores_of};
ghost use Rattle.calls.specs.Reset.{reset, byte3, sense_bytes};
ghost use Rattle.calls.specs.Effects.{do_control};
ghost use Rattle.calls.specs.Calls.{outcome_of};
ghost use Rattle.printer.specs.Worlds.{core_of, outcome, Did};
ghost use Rattle.printer.specs.Premises.{Resets};

use crate::{Printer, Step};
use calls::State;
use line::Causes;
use numbers::Sense;

impl Printer {
    #[tactic(auto, unfolding(calls::specs::Reset::byte3))]
    fn byte3(self) -> u8
        ensures { result ≡ byte3 self.state }
    {
        let sheet = self.state.sheet;
        let idle = !calls::is_started(sheet) & !sheet.waiting;
        0x80 + 0x40 * u8::from(idle) + 0x20 * u8::from(self.state.blocked)
    }

    #[tactic(auto, unfolding(calls::specs::Reset::sense_bytes))]
    fn sense_bytes(self) -> [u8; Printer::SENSE_BYTES]
        ensures { result ≡ sense_bytes self.state self.sense }
    {
        let Sense {
            b0,
            b1,
            b2,
            b22,
            b23,
        } = self.sense;
        let b3 = self.byte3();
        [
            b0, b1, b2, b3, 0, 0, 0, 0, 0, 0, 0, 0, 0, 0, 0, 0, 0, 0, 0, 0, 0, 0, b22, b23,
        ]
    }

    // Accepted, with status 0C alone and the sense left as it is.
    #[tactic(auto, unfolding(calls::specs::Effects::do_control, numbers::specs::Numbers::row_of))]
    pub fn no_op(mut self) -> Step
        ensures { (m : Stores) → Did self m result m (λ k. do_control k NoOp) }
    {
        self.accepted(0x0C)
    }

    // Replies the sense, then clears it.
    pub fn sense_io(mut self, reply: &mut [u8]) -> Step
        requires { sense_size ≤ length reply.old }
        ensures { (m : Stores) → outcome result reply.new m
            ≡ outcome_of self.sense reply.old (do_control (core_of self m) SenseIo) }
    {
        reply[..Printer::SENSE_BYTES].copy_from_slice(&self.sense_bytes());
        self.sense = Sense::CLEAR;
        self.no_op()
    }

    // All but the page, the check switch and the counters as Start leaves it.
    pub(crate) fn reset(mut self, legends: &mut [u8], tables: &mut [u8]) -> Printer
        requires { Resets self.state legends.old tables.old }
        ensures core { (p : List ℕ) → core_of result (stores_of p legends.new tables.new)
            ≡ reset (core_of self (stores_of p legends.old tables.old)) }
        ensures sense { result.sense ≡ self.sense }
    {
        legends.fill(0);
        line::tables::start_tables(tables);
        let State {
            fixed,
            blocked,
            counters,
            ..
        } = self.state;
        self.state = Printer::start_state(fixed, blocked, counters);
        self
    }

    pub fn initialize(mut self, legends: &mut [u8], tables: &mut [u8]) -> Step
        requires { Resets self.state legends.old tables.old }
        ensures { (p : List ℕ) → Did self (stores_of p legends.old tables.old) result
            (stores_of p legends.new tables.new) (λ k. do_control k Initialize) }
    {
        if calls::is_started(self.state.sheet) {
            self.complete(true)
        } else {
            self.reset(legends, tables).stand(Causes::NONE)
        }
    }

    pub fn clear(mut self) -> Step
        ensures { (m : Stores) → Did self m result m (λ k. do_control k Clear) }
    {
        if !calls::is_started(self.state.sheet) {
            return self.stand(Causes::NONE);
        }
        self.complete(false)
    }

    #[tactic(auto, unfolding(calls::specs::Effects::do_control, line::specs::Line::no_causes))]
    pub fn block(mut self) -> Step
        ensures { (m : Stores) → Did self m result m (λ k. do_control k Block) }
    {
        self.state.blocked = true;
        self.stand(Causes::NONE)
    }

    #[tactic(auto, unfolding(calls::specs::Effects::do_control, line::specs::Line::no_causes))]
    pub fn allow(mut self) -> Step
        ensures { (m : Stores) → Did self m result m (λ k. do_control k Allow) }
    {
        self.state.blocked = false;
        self.stand(Causes::NONE)
    }

    #[tactic(auto, unfolding(calls::specs::Effects::do_control, calls::specs::Effects::slot_selected, line::specs::Line::no_causes))]
    pub fn select(mut self, slot: u8) -> Step
        ensures { (m : Stores) → Did self m result m (λ k. do_control k (Select slot)) }
    {
        self.state.slots.selected = slot;
        self.stand(Causes::NONE)
    }
}
