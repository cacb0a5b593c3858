//! The closing steps.
ghost use Rattle.std.specs.Prelude.{◌≡◌, true, false, Some, None};
ghost use Rattle.ha_whole.specs.Whole.{IsFull, Lawful, is_quiet};
ghost use Rattle.bus_turn.specs.declared.fault.BusFault.{BusFault};
ghost use Rattle.ha_worker.specs.Closing.{Closed};

use bus_turn::Bus;
use ha_io::{Keeper, Sink};
use ha_whole::Core;
use std::alloc::Global;

/// The closing steps, which come after the last worker has ended: steps of worker 0, whether source 0 is rested or not, until no run can go
/// on. A first fault of the bus ends it. The trace's sink may keep their lines, since the end line comes behind them.
pub fn close<C: Core, K: Sink, Q: Keeper>(alloc: Global, bus: &mut Bus<C, K, Q>)
    requires free { bus.old.first ≡ None }
    requires lawful { Lawful bus.old.journal bus.old.records }
    ensures closed { Closed bus.old bus.new }
    ensures owes { bus.new.first ≡ Some BusFault.Full → IsFull bus.new.journal × (is_quiet bus.new.records bus.new.journal ≡ false) }
    ensures quiet { bus.new.first ≡ None → is_quiet bus.new.records bus.new.journal ≡ true }
{
    'steps: while !bus.quiet() {
        bus.step(alloc, 0, true);
        if bus.first().is_some() {
            return;
        }
    }
}
