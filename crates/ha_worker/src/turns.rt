//! The turns of a worker: in each it takes the bus, puts what it has at hand, and gives it back.
ghost use Rattle.std.specs.Prelude.{◌≡◌, None, IfSome, IsSome};
ghost use Rattle.crossbeam_channel.specs.Claims.{view};
ghost use Rattle.bus_pass.specs.Turns.{IsPassOf};
ghost use Rattle.ha_worker.specs.Puts.{NoLine};
ghost use Rattle.ha_worker.specs.Views.{Holds, IsOne};

use bus_pass::{Held, Pass, Read, Turn};
use ha_io::{Keeper, Sink};
use ha_whole::Core;
use std::sync::Wait;

/// Takes the bus where it keeps no first fault. Else it goes back as it is, and nothing comes.
pub(crate) fn take_open<C: Core + Drop, K: Sink, Q: Keeper, W: Wait>(
    rt: &W,
    turn: &Turn<C, K, Q>,
    pass: &mut Pass<C, K, Q>,
    id: u32,
) -> Option<Held<C, K, Q>>
    requires turn { IsPassOf turn.now pass.old }
    requires one { IsOne id (view pass.old) }
    ensures turn { IsPassOf turn.now pass.new }
    ensures lines { NoLine (view pass.old) (view pass.new) }
    ensures some { IfSome result (λ bus. Holds id bus (view pass.new) × (bus.first ≡ None)) }
    ensures none { result ≡ None → IsOne id (view pass.new) × IsSome (view pass.new).noted }
{
    let _ = id;
    let bus = turn.take(rt, pass);
    if bus.first().is_some() {
        turn.give(rt, pass, bus, Read::nothing());
        return None;
    }
    Some(bus)
}
