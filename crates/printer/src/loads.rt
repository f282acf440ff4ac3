// The five loads: document 01, "Form and forms control" and "Copies and legends". A load's record has passed its check before it comes here.
ghost use Rattle.std.specs.Prelude.{◌≡◌, List, ℕ, ◌≤◌, length};
ghost use Rattle.form.specs.Form.{fcb_size};
ghost use Rattle.copies.specs.Copies.{pair_size};
ghost use Rattle.calls.specs.declared.Load.TheVariants.{Fcb, TranslateTable, CopyModification, OverlaySequence, CopyNumber};
ghost use Rattle.calls.specs.Core.{Stores, stores_of};
ghost use Rattle.calls.specs.Effects.{slot_loaded, do_load};
ghost use Rattle.printer.specs.Worlds.{Did};
ghost use Rattle.printer.specs.Premises.{LoadsTable, LoadsLegends};

use crate::{Printer, Step};
use form::Forms;
use line::{Causes, Slots};

// The slots are taken out, as an index into the printer's own would lay the whole printer into memory.
#[tactic(auto, unfolding(calls::specs::Effects::slot_loaded))]
fn slot_loaded(mut slots: Slots) -> Slots
    requires { slots.selected ≤ 3 }
    ensures { result ≡ slot_loaded slots }
{
    slots.loaded[usize::from(slots.selected)] = true;
    slots
}

impl Printer {
    pub fn load_fcb(mut self, sent: &[u8]) -> Step
        requires { length sent.now ≤ fcb_size }
        ensures { (m : Stores) → Did self m result m (λ k. do_load k Fcb sent.now) }
    {
        self.state.forms = Forms {
            fcb: seq::padded(sent),
            count: sent.len() as u8,
        };
        self.state.sheet.line = 1;
        self.stand(Causes::NONE)
    }

    #[tactic(auto, unfolding(calls::specs::Effects::do_load, calls::specs::Effects::loaded, calls::specs::Effects::load_causes, line::specs::Line::no_causes))]
    pub fn load_table(mut self, sent: &[u8], tables: &mut [u8]) -> Step
        requires { LoadsTable self.state sent.now tables.old }
        ensures { (p l : List ℕ) → Did self (stores_of p l tables.old) result (stores_of p l tables.new)
            (λ k. do_load k TranslateTable sent.now) }
    {
        line::tables::load_slot(tables, self.state.slots.selected, sent);
        self.state.slots = slot_loaded(self.state.slots);
        self.stand(Causes::NONE)
    }

    // Its text is translated by the table that serves, and checked as a first write is.
    pub fn load_legends(mut self, sent: &[u8], legends: &mut [u8], tables: &[u8]) -> Step
        requires { LoadsLegends self.state sent.now legends.old tables.now }
        ensures { (p : List ℕ) → Did self (stores_of p legends.old tables.now) result
            (stores_of p legends.new tables.now) (λ k. do_load k CopyModification sent.now) }
    {
        let slots = self.state.slots;
        let table = line::tables::serving(slots, tables);
        let causes = Causes {
            unprintables: legends::store_legends(legends, sent, self.state.fixed.pitches, table),
            unloaded: !line::tables::is_loaded(slots),
            ..Causes::NONE
        };
        self.stand(causes)
    }

    pub fn load_sequence(mut self, sent: &[u8]) -> Step
        requires { length sent.now ≤ pair_size }
        ensures { (m : Stores) → Did self m result m (λ k. do_load k OverlaySequence sent.now) }
    {
        self.state.copies.pairs = seq::padded(sent);
        self.state.copies.count = sent.len() as u8;
        self.stand(Causes::NONE)
    }

    pub fn load_number(mut self, sent: &[u8]) -> Step
        requires { 1 ≤ length sent.now }
        ensures { (m : Stores) → Did self m result m (λ k. do_load k CopyNumber sent.now) }
    {
        self.state.copies.reference = sent[0];
        self.stand(Causes::NONE)
    }
}
