// Document 02, T-02, "Page identifiers": the four counters by value, `stations`, which changes them in place, and `lending`, which lends them to it.
#![tactic(auto)]

ghost use Rattle.std.specs.Prelude.{◌≡◌};
ghost use Rattle.counters.specs.Counters.{next, between, counted, transferred, fused, stacked, cancelled, restarted, none_between, most_between, counters_ok};

pub mod lending;
pub mod stations;

// The pages counted at each place of the paper path; after FFFF comes 0000.
#[derive(Clone, Copy)]
pub struct Counters {
    pub channel: u16,
    pub transfer: u16,
    pub fuser: u16,
    pub stacker: u16,
}

// The calls by which the spooler keeps the counters: a report for each station, a cancel, a restart.
#[derive(Clone, Copy)]
pub enum Tally {
    Transferred,
    Fused,
    Stacked,
    Cancel,
    Restart,
}

// One page more.
fn next(count: u16) -> u16
    ensures { result ≡ next count }
{
    count.wrapping_add(1)
}

// The pages between two counters, of which the second is the later on the paper path.
pub fn between(count: u16, later: u16) -> u16
    ensures { result ≡ between count later }
{
    count.wrapping_sub(later)
}

impl Counters {
    pub const START: Counters = Counters {
        channel: 0,
        transfer: 0,
        fuser: 0,
        stacker: 0,
    };

    // As many pages may be between channel and stacker.
    pub const MOST_PAGES: u16 = 32767;

    // A Release counts its page.
    #[tactic(auto, unfolding(crate::specs::Counters::counted))]
    pub fn counted(self) -> Counters
        ensures { result ≡ counted self }
    {
        Counters {
            channel: next(self.channel),
            ..self
        }
    }

    #[tactic(auto, unfolding(crate::specs::Counters::transferred))]
    pub fn transferred(self) -> Counters
        ensures { result ≡ transferred self }
    {
        Counters {
            transfer: next(self.transfer),
            ..self
        }
    }

    #[tactic(auto, unfolding(crate::specs::Counters::fused))]
    pub fn fused(self) -> Counters
        ensures { result ≡ fused self }
    {
        Counters {
            fuser: next(self.fuser),
            ..self
        }
    }

    #[tactic(auto, unfolding(crate::specs::Counters::stacked))]
    pub fn stacked(self) -> Counters
        ensures { result ≡ stacked self }
    {
        Counters {
            stacker: next(self.stacker),
            ..self
        }
    }

    #[tactic(auto, unfolding(crate::specs::Counters::cancelled))]
    pub fn cancelled(self) -> Counters
        ensures { result ≡ cancelled self }
    {
        Counters {
            channel: self.transfer,
            ..self
        }
    }

    #[tactic(auto, unfolding(crate::specs::Counters::restarted))]
    pub fn restarted(self) -> Counters
        ensures { result ≡ restarted self }
    {
        Counters {
            channel: self.stacker,
            transfer: self.stacker,
            fuser: self.stacker,
            ..self
        }
    }

    // Whether the counter that a report is for equals the one before it.
    #[tactic(auto, unfolding(crate::specs::Counters::none_between))]
    pub fn none_between(self, tally: Tally) -> bool
        ensures { result ≡ none_between tally self }
    {
        match tally {
            Tally::Transferred => self.transfer == self.channel,
            Tally::Fused => self.fuser == self.transfer,
            Tally::Stacked => self.stacker == self.fuser,
            Tally::Cancel | Tally::Restart => false,
        }
    }

    pub fn most_between(self) -> bool
        ensures { result ≡ most_between self }
    {
        between(self.channel, self.stacker) == Counters::MOST_PAGES
    }

    // Whether calls can lead to these counters.
    #[tactic(auto, unfolding(crate::specs::Counters::counters_ok, seq::specs::Words::every))]
    pub fn is_reachable(self) -> bool
        ensures { result ≡ counters_ok self }
    {
        let channel = between(self.channel, self.stacker);
        let transfer = between(self.transfer, self.stacker);
        let fuser = between(self.fuser, self.stacker);
        fuser <= transfer && transfer <= channel && channel <= Counters::MOST_PAGES
    }
}
