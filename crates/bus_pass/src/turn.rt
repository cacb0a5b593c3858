//! The turn.
ghost use Rattle.std.specs.Prelude.{◌≡◌, ◌∷◌, [], true, false, None, Some, IfOk, IfErr};
ghost use Rattle.crossbeam_channel.specs.Claims.{view};
ghost use Rattle.ha_journal.specs.declared.entry.Entry.{Entry};
ghost use Rattle.ha_whole.specs.Whole.{Running};
ghost use Rattle.bus_pass.specs.Turns.{IsPassOf};
ghost use Rattle.bus_pass.specs.Puts.{MayPut};
ghost use Rattle.bus_pass.specs.Journal.{IsRestless};
ghost use Rattle.bus_pass.specs.Origins.{IsStored, origin_of};
ghost use Rattle.bus_pass.specs.Reads.{prepared_in};
ghost use Rattle.bus_pass.specs.Rule.{MayGive, StandsForAll, Tells, both, child, gave, hand, opening, parent, took};

use crate::hand::Hand;
use crate::held::Held;
use crate::read::Read;
use crate::seal::Sealed;
use crate::steps::{Gives, Law, Parts, Takes};
use bus_turn::Bus;
use crossbeam_channel::{RuledReceiver, RuledSender, bounded_with};
use ha_io::{Keeper, Sink};
use ha_whole::Core;
use std::alloc::Global;
use std::snapshot::Snapshot;
use std::sync::{Mutex, MutexGuard, Wait};

/// A token of no bytes in which a thread carries what it knows of the turn.
pub type Pass<C, K, Q> = crossbeam_channel::Pass<Sealed<C, K, Q>, Hand>;

/// The two ends of a channel, and the lock that a worker holds while it puts what it has at hand.
#[derive(Drop)]
pub struct Ends<S, R> {
    to: S,
    from: R,
    floor: Mutex<()>,
}

/// The turn: a channel that holds the bus, or nothing while one pass holds it.
pub type Turn<C, K, Q> = Ends<
    RuledSender<Sealed<C, K, Q>, Hand, Law>,
    RuledReceiver<Sealed<C, K, Q>, Hand, Law>,
>;

impl<C: Core + Drop, K: Sink, Q: Keeper> Turn<C, K, Q> {
    /// A turn whose channel holds the bus, whose journal is the boot alone, and the first pass. Where memory runs out, the bus comes back.
    pub fn make<W: Wait>(
        rt: &W,
        alloc: Global,
        bus: Bus<C, K, Q>,
    ) -> Result<(Turn<C, K, Q>, Pass<C, K, Q>), Bus<C, K, Q>>
        requires boot { (boot : Entry) × (bus.journal ≡ boot ∷ []) }
        requires stored { IsStored bus }
        ensures turn { IfOk result (λ r. IsPassOf r.0 r.1) }
        ensures view { IfOk result (λ r. view r.1 ≡ hand true 0 [] None bus.first [] (Some (origin_of bus))) }
        ensures back { IfErr result (λ b. b ≡ bus) }
    {
        let held = match Held::make(alloc, bus) {
            Ok(held) => held,
            Err(bus) => return Err(bus),
        };
        let _ = held.first();
        let Ok((to, from, mut pass)) = bounded_with::<Sealed<C, K, Q>, Hand, Law, Global>(alloc, 1)
        else {
            return Err(held.into_bus());
        };
        let turn = Ends {
            to,
            from,
            floor: Mutex::new(()),
        };
        turn.put_first(rt, &mut pass, held);
        Ok((turn, pass))
    }

    /// Puts the bus into the channel for the first time.
    fn put_first<W: Wait>(&self, rt: &W, pass: &mut Pass<C, K, Q>, bus: Held<C, K, Q>)
        requires turn { IsPassOf self.now pass.old }
        requires opening { view pass.old ≡ opening }
        requires boot { (boot : Entry) × (bus.journal ≡ boot ∷ []) }
        requires running { Running bus.journal bus.records }
        requires stored { IsStored bus }
        ensures turn { IsPassOf self.now pass.new }
        ensures gave { view pass.new ≡ hand true 0 [] None bus.first [] (Some (origin_of bus)) }
    {
        let _ = bus.first();
        let nothing = Read::nothing();
        self.send(rt, pass, Sealed::close(bus, Snapshot::of(&nothing)));
    }

    /// Puts a message into the channel, as soon as there is room for it.
    fn send<W: Wait>(&self, rt: &W, pass: &mut Pass<C, K, Q>, mut message: Sealed<C, K, Q>)
        requires turn { IsPassOf self.now pass.old }
        requires may { MayPut (view pass.old) message }
        ensures turn { IsPassOf self.now pass.new }
        ensures gave { view pass.new ≡ gave (view pass.old) message.0.journal message.1 message.0.first (origin_of message.0) }
    {
        for _ in rt.forever() {
            match self.to.send_as::<Gives, W>(rt, pass, message) {
                Ok(()) => return,
                Err(refused) => message = refused.into_inner(),
            }
        }
        unreachable!()
    }

    /// Takes the bus, as soon as the channel holds it.
    #[inline(always)]
    pub fn take<W: Wait>(&self, rt: &W, pass: &mut Pass<C, K, Q>) -> Held<C, K, Q>
        requires turn { IsPassOf self.now pass.old }
        requires idle { (view pass.old).taken ≡ None }
        ensures turn { IsPassOf self.now pass.new }
        ensures took { view pass.new ≡ took (view pass.old) result.journal result.first (origin_of result) }
        ensures tells { Tells IsRestless (view pass.old) result.journal result.first (origin_of result) }
        ensures running { Running result.journal result.records }
        ensures stored { IsStored result }
    {
        self.receive(rt, pass).open()
    }

    /// Takes the message out of the channel.
    fn receive<W: Wait>(&self, rt: &W, pass: &mut Pass<C, K, Q>) -> Sealed<C, K, Q>
        requires turn { IsPassOf self.now pass.old }
        ensures turn { IsPassOf self.now pass.new }
        ensures took { view pass.new ≡ took (view pass.old) result.0.journal result.0.first (origin_of result.0) }
        ensures tells { Tells IsRestless (view pass.old) result.0.journal result.0.first (origin_of result.0) }
    {
        for _ in rt.forever() {
            if let Ok(m) = self.from.recv_as::<Takes, W>(rt, pass) {
                return m;
            }
        }
        unreachable!()
    }

    /// Gives the bus back, with entries of the pass's worker more or with none. `read` is what was read for them.
    #[inline(always)]
    pub fn give<W: Wait>(&self, rt: &W, pass: &mut Pass<C, K, Q>, bus: Held<C, K, Q>, read: Read)
        requires turn { IsPassOf self.now pass.old }
        requires may { MayGive IsRestless (view pass.old) bus.journal (prepared_in C.Prepare.reads read) bus.first (origin_of bus) }
        requires running { Running bus.journal bus.records }
        requires stored { IsStored bus }
        ensures turn { IsPassOf self.now pass.new }
        ensures gave { view pass.new ≡ gave (view pass.old) bus.journal (prepared_in C.Prepare.reads read) bus.first (origin_of bus) }
    {
        self.send(rt, pass, Sealed::close(bus, Snapshot::of(&read)));
    }

    /// A pass for the next worker.
    pub fn split(&self, pass: &mut Pass<C, K, Q>, worker: u32) -> Pass<C, K, Q>
        requires turn { IsPassOf self.now pass.old }
        requires first { (view pass.old).first ≡ true }
        requires next { worker ≡ (view pass.old).made }
        ensures turn { IsPassOf self.now pass.new × IsPassOf self.now result }
        ensures views { (view pass.new ≡ parent (view pass.old)) × (view result ≡ child (view pass.old)) }
    {
        let _ = worker;
        self.to.another::<Parts>(pass)
    }

    /// Takes what another pass knows into this one.
    pub fn join(&self, pass: &mut Pass<C, K, Q>, other: Pass<C, K, Q>)
        requires turn { IsPassOf self.now pass.old × IsPassOf self.now other }
        requires idle { ((view pass.old).taken ≡ None) × ((view other).taken ≡ None) }
        requires later { (view other).first ≡ false }
        ensures turn { IsPassOf self.now pass.new }
        ensures view { view pass.new ≡ both (view pass.old) (view other) }
    {
        self.to.absorb::<Parts>(pass, other);
    }

    /// Ends the turn, and gives the bus back.
    pub fn close<W: Wait>(self, rt: &W, mut pass: Pass<C, K, Q>) -> Bus<C, K, Q>
        requires turn { IsPassOf self pass }
        requires idle { (view pass).taken ≡ None }
        requires all { StandsForAll (view pass) }
        ensures tells { Tells IsRestless (view pass) result.journal result.first (origin_of result) }
        ensures running { Running result.journal result.records }
        ensures stored { IsStored result }
    {
        self.take(rt, &mut pass).into_bus()
    }

    /// Waits until no other worker has the floor. A worker has it while it takes the bus, puts what it has at hand and gives it back, and
    /// neither while it reads its source nor at the gate: the others then sleep here, and not at the channel.
    pub fn floor<W: Wait>(&self, rt: &W) -> MutexGuard<'_, ()> {
        self.floor.lock(rt)
    }
}
