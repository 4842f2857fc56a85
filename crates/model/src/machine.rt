// A store that carries out commands: what it shows of itself, and that only a turn changes it.
ghost use Rattle.std.specs.Prelude.{◌≡◌, false, is_ok, Option, Some, None, refl};
ghost use Rattle.std.proofs.Common.{ap};
ghost use Rattle.versions.specs.declared.turn.Turn.{Turn};
ghost use Rattle.versions.specs.Plain.{word_of};
ghost use Rattle.snooping.specs.declared.report.BusReport.{BusReport};
ghost use Rattle.snooping.specs.Report.{quiet};
ghost use Rattle.snooping.specs.Snooping.{latest_report};
ghost use Rattle.model.specs.Commands.{asked_of};
ghost use Rattle.model.specs.Machines.{seen_of, line_seen, bus_after, reply_to, seen_after};

use crate::command::{Asked, Command, Reply};
use memory::Memory;
use stores::{BusReport, CentralBuffer, Line, Refusal, SnoopingStore, Turn, VersionStore};

pub trait Machine: VersionStore {
    // What the bus reports of the latest accepted turn, of a store with a bus.
    ghost bus: { Self → Option BusReport };

    // And as the store is opened.
    ghost first_report: { Option BusReport };

    // The memory's word at a. What the bus reports stays, of which `word` of every version store says nothing.
    fn memory_word(&mut self, a: u32) -> Result<u32, Refusal>
        requires { Self.sound self.old }
        ensures answer { result ≡ word_of (Self.plain self.old) a }
        ensures after { Self.plain self.new ≡ Self.plain self.old }
        ensures refused { is_ok result ≡ false → self.new ≡ self.old }
        ensures bus { bus self.new ≡ bus self.old }
        ensures beside { Self.spare self.new ≡ Self.spare self.old }
        ensures kept { Self.sound self.new };

    // Line c of processor p, of a store with lines.
    fn line(&self, p: u32, c: u32) -> Option<Line>
        requires { Self.sound self.now }
        ensures { result ≡ line_seen (bus self.now) (Self.plain self.now) p c };

    // What the bus reports, of a store with a bus.
    fn report(&self) -> Option<BusReport>
        ensures { result ≡ bus self.now };

    // Carries out one command. (The turns stand here as in `take_turn`: one that is handed on is told apart twice, which costs a quarter of it.)
    fn carry_out(&mut self, command: Command) -> Reply
        requires { Self.sound self.old }
        ensures reply { result ≡ reply_to (seen_of Self.plain bus self.old) (asked_of command) }
        ensures after { seen_of Self.plain bus self.new ≡ seen_after (seen_of Self.plain bus self.old) (asked_of command) }
        ensures beside { Self.spare self.new ≡ Self.spare self.old }
        ensures kept { Self.sound self.new }
    {
        match Asked::try_from(command) {
            Ok(Asked::Played(Turn::Start { p })) => Reply::from(self.start(p)),
            Ok(Asked::Played(Turn::Load { p, a })) => Reply::from(self.load(p, a)),
            Ok(Asked::Played(Turn::Store { p, a, w })) => Reply::from(self.store(p, a, w)),
            Ok(Asked::Played(Turn::Squash { p })) => Reply::from(self.squash(p)),
            Ok(Asked::Played(Turn::Commit { p })) => Reply::from(self.commit(p)),
            Ok(Asked::Played(Turn::Replace { p, a })) => Reply::from(self.replace(p, a)),
            Ok(Asked::Word { a }) => Reply::from(self.memory_word(a)),
            Ok(Asked::Tasks) => Reply::from(self.tasks()),
            Ok(Asked::OneLine { p, c }) => Reply::from(self.line(p, c)),
            Ok(Asked::Report) => Reply::from(self.report()),
            Err(_) => Reply::nothing(),
        }
    }

    // The bus is part of what a store shows of its opening and of its turns.
    ghost opening: { (store : Self) → Self.opens store → bus store ≡ first_report };

    ghost turning: { (store : Self) (turn : Turn) (later : Self) → Self.shows store turn later → bus later ≡ bus_after (bus store) (Self.plain store) turn };
}

impl<M: Memory> Machine for SnoopingStore<M> {
    ghost bus = { λ s. Some (latest_report s) };

    ghost first_report = { Some quiet };

    fn memory_word(&mut self, a: u32) -> Result<u32, Refusal> {
        self.word(a)
    }

    fn line(&self, p: u32, c: u32) -> Option<Line> {
        SnoopingStore::line(self, p, c)
    }

    fn report(&self) -> Option<BusReport> {
        Some(SnoopingStore::report(self))
    }

    ghost opening = { λ _ opened. ap Some opened };

    ghost turning = { λ _ _ _ shown. ap Some shown.report };
}

// The central buffer has no lines and no bus to report of.
impl<M: Memory> Machine for CentralBuffer<M> {
    ghost bus = { λ _. None };

    ghost first_report = { None };

    fn memory_word(&mut self, a: u32) -> Result<u32, Refusal> {
        self.word(a)
    }

    fn line(&self, _p: u32, _c: u32) -> Option<Line> {
        None
    }

    fn report(&self) -> Option<BusReport> {
        None
    }

    ghost opening = { λ _ _. refl };

    ghost turning = { λ _ _ _ _. refl };
}
