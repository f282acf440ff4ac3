// The calls of the stations, a cancel and a restart, each on counters that are lent and changed in place: a form that document 02 names, so one function
// each, though they differ in a method alone.
ghost use Rattle.std.specs.Prelude.{◌≡◌};
ghost use Rattle.counters.specs.Counters.{transferred, fused, stacked, cancelled, restarted};

use crate::Counters;

pub fn transferred(counters: &mut Counters)
    ensures { counters.new ≡ transferred counters.old }
{
    *counters = counters.transferred();
}

pub fn fused(counters: &mut Counters)
    ensures { counters.new ≡ fused counters.old }
{
    *counters = counters.fused();
}

pub fn stacked(counters: &mut Counters)
    ensures { counters.new ≡ stacked counters.old }
{
    *counters = counters.stacked();
}

pub fn cancel(counters: &mut Counters)
    ensures { counters.new ≡ cancelled counters.old }
{
    *counters = counters.cancelled();
}

pub fn restart(counters: &mut Counters)
    ensures { counters.new ≡ restarted counters.old }
{
    *counters = counters.restarted();
}
