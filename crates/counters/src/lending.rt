// Counters lent to the call that a tally names, and handed back.
ghost use Rattle.std.specs.Prelude.{◌≡◌};
ghost use Rattle.counters.specs.Counters.{tallied};

use crate::{Counters, Tally, stations};

#[tactic(auto, unfolding(crate::specs::Counters::tallied))]
pub fn tally(mut counters: Counters, tally: Tally) -> Counters
    ensures { result ≡ tallied tally counters }
{
    match tally {
        Tally::Transferred => stations::transferred(&mut counters),
        Tally::Fused => stations::fused(&mut counters),
        Tally::Stacked => stations::stacked(&mut counters),
        Tally::Cancel => stations::cancel(&mut counters),
        Tally::Restart => stations::restart(&mut counters),
    }
    counters
}
