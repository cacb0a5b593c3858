//! A worker and its work.
ghost use Rattle.std.specs.Prelude.{◌≡◌, ◌<◌, ◌≤◌, ◌∷◌, [], false, None, length, map, IfOk, IfErr, OnOk, OnErr, Option};
ghost use Rattle.std.specs.Prelude.{option_to_list, IfSome, IsSome};
ghost use Rattle.crossbeam_channel.specs.Claims.{view};
ghost use Rattle.ha_config.specs.declared.config.Config.{Config as Configuration};
ghost use Rattle.ha_config.specs.Words.{Text};
ghost use Rattle.ha_journal.specs.Commands.{IsFair, put_as};
ghost use Rattle.ha_config.specs.Fair.{prepared, shuts_source};
ghost use Rattle.ha_journal.specs.Journal.{Journal};
ghost use Rattle.ha_text.specs.Lines.{lines_of, whole_lines};
ghost use Rattle.bus_pass.specs.Turns.{IsPassOf};
ghost use Rattle.ha_worker.specs.Courses.{cmd_read, most_bytes, source_of};
ghost use Rattle.ha_worker.specs.Ends.{ended_by, Halts, Notes};
ghost use Rattle.ha_worker.specs.Views.{IsFresh, Sits, Takes};
ghost use Rattle.ha_worker.specs.Puts.{NoLine, PutAll, PutSome};
ghost use Rattle.ha_worker.specs.Read.{AreOpen};
ghost use Rattle.ha_worker.specs.Taken.{AtBound, Fed, FedSome, TookAll, course_of, rest_by};
ghost use Rattle.ha_worker.specs.Worked.{Worked};

use crate::end::WorkerEnd;
use crate::ending::Ending;
use crate::halt::Halt;
use crate::lines::read_lines;
use crate::pieces::{NoPiece, has_more, pull};
use crate::puts::{put_all, put_held};
use crate::turns::take_open;
use bus_pass::{Pass, Read, Turn};
use flow_line::read_cmd;
use ha_config::Cmd;
use ha_io::{Gate, Keeper, Sink, Source};
use ha_text::LineCut;
use ha_whole::Core;
use std::alloc::Global;
use std::collections::VecDeque;
use std::snapshot::Snapshot;
use std::sync::Wait;

/// The bytes that one read asks for at most.
const PIECE: usize = 65_536;

/// The bytes that a source may give. It is a function so that proofs do not compute with it.
#[tactic(auto, unfolding(crate::specs::Courses::most_bytes))]
fn most_bytes() -> usize
    ensures { result ≡ most_bytes }
{
    67_108_864
}

/// How the reading of a source ended that has given as many bytes as it may.
fn read_past<S: Source>(source: &mut S) -> Ending
    ensures bound { let s = source_of S.faults S.left S.name in AtBound (course_of result) (s source.old) (s source.new) }
    ensures never_falls { S.faults source.old ≤ S.faults source.new }
    ensures same_name { S.name source.new ≡ S.name source.old }
{
    match has_more(source) {
        Ok(true) => Ending::Exceeds,
        Ok(false) => Ending::Ends,
        Err(_) => Ending::Fails,
    }
}

/// How a worker ends whose source ended so.
fn ended(ending: Ending) -> WorkerEnd
    ensures { result ≡ ended_by ending }
{
    match ending {
        Ending::Ends => WorkerEnd::Ended,
        Ending::Fails => WorkerEnd::Lost,
        Ending::Exceeds => WorkerEnd::TooLong,
    }
}

/// The worker of a source.
#[derive(Drop)]
pub struct Worker<S: Source, C: Core + Drop, K: Sink, Q: Keeper> {
    /// The source that it reads.
    pub source: S,
    /// The number of its source, from 0 to 15.
    pub id: u32,
    /// The number of its next line.
    pub next: u64,
    /// What it knows of the turn.
    pub pass: Pass<C, K, Q>,
    /// How it ended.
    pub end: Option<WorkerEnd>,
}

impl<S: Source, C: Core + Drop, K: Sink, Q: Keeper> Worker<S, C, K, Q> {
    /// Reads its source to its end and puts each line, in order. A piece of at most 65,536 bytes is read, with the commands of its lines,
    /// and the gate is called for each of them, while others may hold the bus. Then it waits for the floor, takes the bus, and puts all of
    /// them before it gives it back: a step, where its source is not rested, else the next line. What the last one began is stepped before
    /// that too. A failed read puts Lost, more than 67,108,864 bytes put TooLong; a begun line is then dropped. A first fault of the bus
    /// ends it, and so does want of memory, of which it tells the bus.
    pub fn work<W: Wait, G: Gate>(
        &mut self,
        rt: &W,
        alloc: Global,
        turn: &Turn<C, K, Q>,
        gate: &G,
    ) -> WorkerEnd
        requires turn { IsPassOf turn.now self.old.pass }
        requires fresh { IsFresh self.old.id (view self.old.pass) }
        requires known { self.old.id < 16 }
        requires begins { (self.old.next ≡ 0) × (self.old.end ≡ None) }
        ensures turn { IsPassOf turn.now self.new.pass }
        ensures same { (self.new.id ≡ self.old.id) × (self.new.end ≡ self.old.end) }
        ensures sits { Sits self.new.next self.old.id (view self.new.pass) }
        ensures worked { let s = source_of S.faults S.left S.name in
            Worked C.Prepare.reads self.old.id result (view self.new.pass) (s self.old.source) (s self.new.source) }
    {
        let mut cut = LineCut::make(alloc);
        let Ok(mut buffer) = Vec::from_elem(alloc, 0u8, PIECE) else {
            return self.halted(rt, turn, Halt::Memory);
        };
        let ending = match self.feed(rt, alloc, turn, gate, buffer.as_mut_slice(), &mut cut) {
            Ok(ending) => ending,
            Err(halt) => return self.halted(rt, turn, halt),
        };
        match self.finish(rt, alloc, turn, gate, &mut cut, ending) {
            Ok(_) => ended(ending),
            Err(halt) => self.halted(rt, turn, halt),
        }
    }

    /// Reads the source piece by piece, and puts each whole line, with the steps that it begins, before the next piece is asked for. One
    /// list serves for the commands of all pieces, so that its memory is taken once.
    fn feed<W: Wait, G: Gate>(
        &mut self,
        rt: &W,
        alloc: Global,
        turn: &Turn<C, K, Q>,
        gate: &G,
        buffer: &mut [u8],
        cut: &mut LineCut,
    ) -> Result<Ending, Halt>
        requires turn { IsPassOf turn.now self.old.pass }
        requires known { self.old.id < 16 }
        requires takes { Takes self.old.next self.old.id (view self.old.pass) }
        requires fresh { cut.old ≡ [] }
        requires buffer { 0 < length buffer.old }
        ensures turn { IsPassOf turn.now self.new.pass }
        ensures same { (self.new.id ≡ self.old.id) × (self.new.end ≡ self.old.end) }
        ensures sits { Sits self.new.next self.old.id (view self.new.pass) }
        ensures ok { let s = source_of S.faults S.left S.name in
            IfOk result (λ ending. Fed C.Prepare.reads self.old.id (course_of ending) (view self.old.pass) (view self.new.pass) cut.new (s self.old.source) (s self.new.source)) }
        ensures takes { OnOk result (Takes self.new.next self.old.id (view self.new.pass)) }
        ensures some { let s = source_of S.faults S.left S.name in
            OnErr result (FedSome C.Prepare.reads self.old.id (view self.old.pass) (view self.new.pass) (s self.old.source) (s self.new.source)) }
        ensures halt { IfErr result (λ halt. Halts halt (view self.new.pass).noted) }
    {
        let mut cmds = VecDeque::new(alloc);
        let mut room = most_bytes();
        'pieces: while room > 0 {
            match pull(&mut self.source, buffer, room, cut) {
                Ok(count) => {
                    if count == 0 {
                        return Ok(Ending::Ends);
                    }
                    room -= count;
                }
                Err(NoPiece::Failed) => return Ok(Ending::Fails),
                Err(NoPiece::Memory) => return Err(Halt::Memory),
            }
            match self.put_piece(rt, alloc, turn, gate, cut, &mut cmds) {
                Ok(()) => {}
                Err(halt) => return Err(halt),
            }
        }
        Ok(read_past(&mut self.source))
    }

    /// Reads the commands of all whole lines that are held into this list, which is empty, passes the gate with each of them, and puts
    /// them, with the steps that they begin. The list is then empty again, and keeps its memory; after an error it holds what was not put.
    fn put_piece<W: Wait, G: Gate>(
        &mut self,
        rt: &W,
        alloc: Global,
        turn: &Turn<C, K, Q>,
        gate: &G,
        cut: &mut LineCut,
        cmds: &mut VecDeque<Cmd>,
    ) -> Result<(), Halt>
        requires turn { IsPassOf turn.now self.old.pass }
        requires known { self.old.id < 16 }
        requires takes { Takes self.old.next self.old.id (view self.old.pass) }
        requires empty { cmds.old.items ≡ [] }
        ensures turn { IsPassOf turn.now self.new.pass }
        ensures same { (self.new.id ≡ self.old.id) × (self.new.source ≡ self.old.source) × (self.new.end ≡ self.old.end) }
        ensures sits { Sits self.new.next self.old.id (view self.new.pass) }
        ensures ok { OnOk result (TookAll C.Prepare.reads self.old.id cut.old cut.new (view self.old.pass) (view self.new.pass)) }
        ensures takes { OnOk result (Takes self.new.next self.old.id (view self.new.pass)) }
        ensures some { OnErr result (PutSome self.old.id (map (cmd_read C.Prepare.reads) (whole_lines cut.old)) (view self.old.pass) (view self.new.pass)) }
        ensures empty { OnOk result (cmds.new.items ≡ []) }
        ensures halt { IfErr result (λ halt. Halts halt (view self.new.pass).noted) }
    {
        let Ok(()) = read_lines(alloc, cut, cmds) else {
            return Err(Halt::Memory);
        };
        if cmds.is_empty() {
            return Ok(());
        }
        self.pass_gate(gate, cmds.len());
        self.put_read(rt, alloc, turn, cmds)
    }

    /// Passes the gate with so many lines.
    fn pass_gate<G: Gate>(&self, gate: &G, count: usize) {
        for at in 0..count {
            gate.before(self.id, self.next.saturating_add(at as u64));
        }
    }

    /// Puts the lines with these commands, and the steps that they begin, in one turn while it has the floor.
    fn put_read<W: Wait>(
        &mut self,
        rt: &W,
        alloc: Global,
        turn: &Turn<C, K, Q>,
        cmds: &mut VecDeque<Cmd>,
    ) -> Result<(), Halt>
        requires turn { IsPassOf turn.now self.old.pass }
        requires known { self.old.id < 16 }
        requires takes { Takes self.old.next self.old.id (view self.old.pass) }
        requires open { AreOpen cmds.old.items }
        ensures turn { IsPassOf turn.now self.new.pass }
        ensures same { (self.new.id ≡ self.old.id) × (self.new.source ≡ self.old.source) × (self.new.end ≡ self.old.end) }
        ensures sits { Sits self.new.next self.old.id (view self.new.pass) }
        ensures ok { OnOk result (PutAll self.old.id (map (prepared C.Prepare.reads) cmds.old.items) (view self.old.pass) (view self.new.pass)) }
        ensures takes { OnOk result (Takes self.new.next self.old.id (view self.new.pass)) }
        ensures some { OnErr result (PutSome self.old.id (map (prepared C.Prepare.reads) cmds.old.items) (view self.old.pass) (view self.new.pass)) }
        ensures empty { OnOk result (cmds.new.items ≡ []) }
        ensures halt { IfErr result (λ halt. Halts halt (view self.new.pass).noted) }
    {
        let _floor = turn.floor(rt);
        let from = self.next;
        let read = Snapshot::of(cmds);
        let Some(mut bus) = take_open(rt, turn, &mut self.pass, self.id) else {
            return Err(Halt::Stopped);
        };
        let done = put_all(alloc, &mut bus, self.id, &mut self.next, cmds);
        turn.give(rt, &mut self.pass, bus, Read::many(from, self.next, read));
        if !done {
            return Err(Halt::Stopped);
        }
        Ok(())
    }

    /// Puts a line with the command that is held, in one turn while it has the floor.
    fn put_one<W: Wait>(
        &mut self,
        rt: &W,
        alloc: Global,
        turn: &Turn<C, K, Q>,
        held: &mut Option<Cmd>,
    ) -> Result<(), Halt>
        requires turn { IsPassOf turn.now self.old.pass }
        requires known { self.old.id < 16 }
        requires takes { Takes self.old.next self.old.id (view self.old.pass) }
        requires held { IsSome held.old }
        requires fair { IfSome held.old (λ cmd. (read : Text → Option Configuration) (j : Journal) → IsFair j (put_as j (prepared read cmd))) }
        ensures turn { IsPassOf turn.now self.new.pass }
        ensures same { (self.new.id ≡ self.old.id) × (self.new.source ≡ self.old.source) × (self.new.end ≡ self.old.end) }
        ensures sits { Sits self.new.next self.old.id (view self.new.pass) }
        ensures ok { OnOk result (PutAll self.old.id (map (prepared C.Prepare.reads) (option_to_list held.old)) (view self.old.pass) (view self.new.pass)) }
        ensures takes { OnOk result (IfSome held.old (λ cmd.
            shuts_source cmd ≡ false → Takes self.new.next self.old.id (view self.new.pass))) }
        ensures some { OnErr result (PutSome self.old.id (map (prepared C.Prepare.reads) (option_to_list held.old)) (view self.old.pass) (view self.new.pass)) }
        ensures halt { IfErr result (λ halt. Halts halt (view self.new.pass).noted) }
    {
        let _floor = turn.floor(rt);
        let from = self.next;
        let read = Snapshot::of(held);
        let Some(mut bus) = take_open(rt, turn, &mut self.pass, self.id) else {
            return Err(Halt::Stopped);
        };
        let done = put_held(alloc, &mut bus, self.id, &mut self.next, held);
        turn.give(rt, &mut self.pass, bus, Read::one(from, self.next, read));
        if !done {
            return Err(Halt::Stopped);
        }
        Ok(())
    }

    /// Puts one line that was read, behind the gate.
    fn put_line<W: Wait, G: Gate>(
        &mut self,
        rt: &W,
        alloc: Global,
        turn: &Turn<C, K, Q>,
        gate: &G,
        line: &[u8],
    ) -> Result<(), Halt>
        requires turn { IsPassOf turn.now self.old.pass }
        requires known { self.old.id < 16 }
        requires takes { Takes self.old.next self.old.id (view self.old.pass) }
        ensures turn { IsPassOf turn.now self.new.pass }
        ensures same { (self.new.id ≡ self.old.id) × (self.new.source ≡ self.old.source) × (self.new.end ≡ self.old.end) }
        ensures sits { Sits self.new.next self.old.id (view self.new.pass) }
        ensures ok { OnOk result (PutAll self.old.id (cmd_read C.Prepare.reads line.now ∷ []) (view self.old.pass) (view self.new.pass)) }
        ensures takes { OnOk result (Takes self.new.next self.old.id (view self.new.pass)) }
        ensures some { OnErr result (PutSome self.old.id (cmd_read C.Prepare.reads line.now ∷ []) (view self.old.pass) (view self.new.pass)) }
        ensures halt { IfErr result (λ halt. Halts halt (view self.new.pass).noted) }
    {
        match read_cmd(alloc, line) {
            Ok(cmd) => self.put_cmd(rt, alloc, turn, gate, cmd),
            Err(_) => Err(Halt::Memory),
        }
    }

    /// Puts a line with this command, behind the gate.
    fn put_cmd<W: Wait, G: Gate>(
        &mut self,
        rt: &W,
        alloc: Global,
        turn: &Turn<C, K, Q>,
        gate: &G,
        cmd: Cmd,
    ) -> Result<(), Halt>
        requires turn { IsPassOf turn.now self.old.pass }
        requires known { self.old.id < 16 }
        requires takes { Takes self.old.next self.old.id (view self.old.pass) }
        requires fair { (read : Text → Option Configuration) (j : Journal) → IsFair j (put_as j (prepared read cmd)) }
        ensures turn { IsPassOf turn.now self.new.pass }
        ensures same { (self.new.id ≡ self.old.id) × (self.new.source ≡ self.old.source) × (self.new.end ≡ self.old.end) }
        ensures sits { Sits self.new.next self.old.id (view self.new.pass) }
        ensures ok { OnOk result (PutAll self.old.id (prepared C.Prepare.reads cmd ∷ []) (view self.old.pass) (view self.new.pass)) }
        ensures takes { OnOk result (shuts_source cmd ≡ false → Takes self.new.next self.old.id (view self.new.pass)) }
        ensures some { OnErr result (PutSome self.old.id (prepared C.Prepare.reads cmd ∷ []) (view self.old.pass) (view self.new.pass)) }
        ensures halt { IfErr result (λ halt. Halts halt (view self.new.pass).noted) }
    {
        gate.before(self.id, self.next);
        let mut held = Some(cmd);
        self.put_one(rt, alloc, turn, &mut held)
    }

    /// Puts the last line, which no line feed ends, where there is one.
    fn put_last<W: Wait, G: Gate>(
        &mut self,
        rt: &W,
        alloc: Global,
        turn: &Turn<C, K, Q>,
        gate: &G,
        cut: &mut LineCut,
    ) -> Result<(), Halt>
        requires turn { IsPassOf turn.now self.old.pass }
        requires known { self.old.id < 16 }
        requires takes { Takes self.old.next self.old.id (view self.old.pass) }
        requires none { whole_lines cut.old ≡ [] }
        ensures turn { IsPassOf turn.now self.new.pass }
        ensures same { (self.new.id ≡ self.old.id) × (self.new.source ≡ self.old.source) × (self.new.end ≡ self.old.end) }
        ensures sits { Sits self.new.next self.old.id (view self.new.pass) }
        ensures ok { OnOk result (PutAll self.old.id (map (cmd_read C.Prepare.reads) (lines_of cut.old)) (view self.old.pass) (view self.new.pass)) }
        ensures some { OnErr result (PutSome self.old.id (map (cmd_read C.Prepare.reads) (lines_of cut.old)) (view self.old.pass) (view self.new.pass)) }
        ensures halt { IfErr result (λ halt. Halts halt (view self.new.pass).noted) }
    {
        match cut.finish() {
            Ok(Some(line)) => self.put_line(rt, alloc, turn, gate, line.as_slice()),
            Ok(None) => Ok(()),
            Err(_) => Err(Halt::Memory),
        }
    }

    /// Puts what stands behind the whole lines: the last line, or that the source was lost or is too long.
    fn finish<W: Wait, G: Gate>(
        &mut self,
        rt: &W,
        alloc: Global,
        turn: &Turn<C, K, Q>,
        gate: &G,
        cut: &mut LineCut,
        ending: Ending,
    ) -> Result<(), Halt>
        requires turn { IsPassOf turn.now self.old.pass }
        requires known { self.old.id < 16 }
        requires takes { Takes self.old.next self.old.id (view self.old.pass) }
        requires none { whole_lines cut.old ≡ [] }
        ensures turn { IsPassOf turn.now self.new.pass }
        ensures same { (self.new.id ≡ self.old.id) × (self.new.source ≡ self.old.source) × (self.new.end ≡ self.old.end) }
        ensures sits { Sits self.new.next self.old.id (view self.new.pass) }
        ensures ok { OnOk result (PutAll self.old.id (rest_by C.Prepare.reads (course_of ending) cut.old) (view self.old.pass) (view self.new.pass)) }
        ensures some { OnErr result (PutSome self.old.id (rest_by C.Prepare.reads (course_of ending) cut.old) (view self.old.pass) (view self.new.pass)) }
        ensures halt { IfErr result (λ halt. Halts halt (view self.new.pass).noted) }
    {
        match ending {
            Ending::Ends => self.put_last(rt, alloc, turn, gate, cut),
            Ending::Fails => self.put_cmd(rt, alloc, turn, gate, Cmd::Lost),
            Ending::Exceeds => self.put_cmd(rt, alloc, turn, gate, Cmd::TooLong),
        }
    }

    /// How it ends where it puts no further line. Of want of memory it tells the bus.
    fn halted<W: Wait>(&mut self, rt: &W, turn: &Turn<C, K, Q>, halt: Halt) -> WorkerEnd
        requires turn { IsPassOf turn.now self.old.pass }
        requires sits { Sits self.old.next self.old.id (view self.old.pass) }
        requires noted { Halts halt (view self.old.pass).noted }
        ensures turn { IsPassOf turn.now self.new.pass }
        ensures same { (self.new.id ≡ self.old.id) × (self.new.source ≡ self.old.source) × (self.new.end ≡ self.old.end) }
        ensures sits { Sits self.new.next self.old.id (view self.new.pass) }
        ensures lines { NoLine (view self.old.pass) (view self.new.pass) }
        ensures notes { Notes result (view self.new.pass).noted }
    {
        match halt {
            Halt::Stopped => WorkerEnd::Stopped,
            Halt::Memory => self.run_out(rt, turn),
        }
    }

    /// Has the bus keep that memory ran out, where it keeps no first fault yet.
    fn run_out<W: Wait>(&mut self, rt: &W, turn: &Turn<C, K, Q>) -> WorkerEnd
        requires turn { IsPassOf turn.now self.old.pass }
        requires sits { Sits self.old.next self.old.id (view self.old.pass) }
        ensures turn { IsPassOf turn.now self.new.pass }
        ensures same { (self.new.id ≡ self.old.id) × (self.new.source ≡ self.old.source) × (self.new.end ≡ self.old.end) }
        ensures sits { Sits self.new.next self.old.id (view self.new.pass) }
        ensures lines { NoLine (view self.old.pass) (view self.new.pass) }
        ensures notes { Notes result (view self.new.pass).noted }
    {
        let Some(mut bus) = take_open(rt, turn, &mut self.pass, self.id) else {
            return WorkerEnd::Stopped;
        };
        bus.run_out();
        turn.give(rt, &mut self.pass, bus, Read::nothing());
        WorkerEnd::Memory
    }
}
