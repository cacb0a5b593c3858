//! The rule of the channel, and what each step tells the pass that makes it.
use crate::hand::Hand;
use crate::seal::Sealed;
use crossbeam_channel::protocol::{Join, Lesson, Outcome, Protocol, Split};
use ha_io::{Keeper, Sink};
use ha_whole::Core;

/// The rule of the channel.
pub struct Law;

impl<C: Core + Drop, K: Sink, Q: Keeper> Protocol<Sealed<C, K, Q>, Hand> for Law {
    ghost use Rattle.bus_pass.specs.Journal.{IsRestless};
    ghost use Rattle.bus_pass.specs.Message.{first_in, journal_in, origin_in};
    ghost use Rattle.bus_pass.specs.Rule.{Kept, opening};

    ghost holds = { Kept IsRestless journal_in first_in origin_in };

    ghost first = { opening };
}

/// A pass takes the bus.
pub struct Takes;

impl<C: Core + Drop, K: Sink, Q: Keeper> Outcome<Sealed<C, K, Q>, Hand> for Takes {
    ghost use Rattle.std.specs.Prelude.{◌≡◌};
    ghost use Rattle.bus_pass.specs.Journal.{IsRestless};
    ghost use Rattle.bus_pass.specs.Origins.{origin_of};
    ghost use Rattle.bus_pass.specs.Rule.{Tells, took};

    ghost then = { λ v m w. (w ≡ took v m.0.journal m.0.first (origin_of m.0)) × Tells IsRestless v m.0.journal m.0.first (origin_of m.0) };
}

impl<C: Core + Drop, K: Sink, Q: Keeper> Lesson<Sealed<C, K, Q>, Hand> for Takes {
    ghost fact = { λ v items. Unit {0} };
}

/// A pass gives the bus.
pub struct Gives;

impl<C: Core + Drop, K: Sink, Q: Keeper> Outcome<Sealed<C, K, Q>, Hand> for Gives {
    ghost use Rattle.std.specs.Prelude.{◌≡◌};
    ghost use Rattle.bus_pass.specs.Origins.{origin_of};
    ghost use Rattle.bus_pass.specs.Rule.{gave};

    ghost then = { λ v m w. w ≡ gave v m.0.journal m.1 m.0.first (origin_of m.0) };
}

impl<C: Core + Drop, K: Sink, Q: Keeper> Lesson<Sealed<C, K, Q>, Hand> for Gives {
    ghost fact = { λ v items. Unit {0} };
}

/// A pass for one worker more; and what it knows goes back to the first.
pub struct Parts;

impl Split<Hand> for Parts {
    ghost use Rattle.bus_pass.specs.Rule.{child, parent};

    ghost left = { parent };

    ghost right = { child };
}

impl Join<Hand> for Parts {
    ghost use Rattle.bus_pass.specs.Rule.{both, spent};

    ghost both = { both };

    ghost spent = { spent };
}
