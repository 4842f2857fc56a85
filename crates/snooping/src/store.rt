// The snooping store: four private caches over any memory, kept in order by a bus. Every refusal is decided before the
// first line, word or report changes.
ghost use Rattle.std.specs.Prelude.{◌≡◌, ◌%◌, ◌<◌, ◌≤◌, false, length, take, is_ok, Ok, slice_index};
ghost use Rattle.versions.specs.Plain.{word_of};
ghost use Rattle.versions.specs.Versions.{is_own};
ghost use Rattle.snooping.specs.Caches.{lines_in, table_of, processors_of};
ghost use Rattle.versions.specs.Sharers.{shared_address, SharersIn};
ghost use Rattle.versions.specs.Tables.{last_that};
ghost use Rattle.snooping.specs.Report.{quiet, supplied_by};
ghost use Rattle.snooping.specs.Snooping.{memory_below, all_caches, latest_report, plain_in, SoundSnooping, Shown, line_answer, supplied_word};

use crate::caches::Caches;
use crate::line::Line;
use crate::report::{BusReport, Supplier};
use crate::state::LineEvent;
use memory::Memory;
use versions::{
    Answer, Class, Processor, Refusal, Sharers, TaskTable, VersionStore, write_back, write_own,
};

pub struct SnoopingStore<M> {
    memory: M,
    caches: Caches,
    report: BusReport,
}

impl<M: Memory> SnoopingStore<M> {
    // Line c of processor p, if there is such a line.
    pub fn line(&self, p: u32, c: u32) -> Option<Line>
        requires { SoundSnooping M.Memory.words M.Memory.sound self.now }
        ensures { result ≡ line_answer (plain_in M.Memory.words self.now) p c }
    {
        let p = Processor::try_from(p).ok()?;
        let c = Class::with(c)?;
        Some(self.caches.line(p, c))
    }

    // What the bus reports of the latest accepted turn.
    pub fn report(&self) -> BusReport
        ensures { result ≡ latest_report self.now }
    {
        self.report
    }
}

impl<M: Memory> VersionStore for SnoopingStore<M> {
    type Below = M;

    ghost plain = { plain_in M.Memory.words };

    ghost sound = { SoundSnooping M.Memory.words M.Memory.sound };

    ghost spare = { λ s. M.Memory.spare (memory_below s) };

    // The bus has nothing to report at opening, and a turn shows every line and the bus report.
    ghost opens = { λ s. latest_report s ≡ quiet };

    ghost shows = { Shown M.Memory.words };

    // All lines are invalid.
    fn open(memory: M) -> SnoopingStore<M> {
        SnoopingStore {
            memory,
            caches: Caches::new(),
            report: BusReport::quiet(),
        }
    }

    // The central buffer has the same calls. What they share is in `TaskTable` and `write_own`, `write_back`; what is left are lines on
    // this store's own fields. One form for both would be no plainer: the buffer's steps would have to speak of reports.
    fn start(&mut self, p: u32) -> Answer {
        let (p, active) = self.caches.startable(p)?;
        self.caches.append(p);
        self.report = BusReport::quiet();
        Ok(active as u32)
    }

    // Loads and stores are put in at their two callers: a call costs a sixth of a turn.
    #[inline(always)]
    fn load(&mut self, p: u32, a: u32) -> Answer {
        let (p, k) = self.caches.access(self.memory.size(), p, a)?;
        let line = self.caches.line(p, Class::of(a));
        // A hit alters no line.
        if line.version(a).is_held() {
            self.report = BusReport::quiet();
            return Ok(line.word);
        }
        let sharers = self.caches.sharers(a);
        let (w, supplier) = supplied(&mut self.memory, &self.caches, k, a, sharers)?;
        self.caches
            .take_and_link(p, k, LineEvent::Load, a, w, sharers);
        self.report = BusReport::bus_read(a, supplier);
        Ok(w)
    }

    #[inline(always)]
    fn store(&mut self, p: u32, a: u32, w: u32) -> Answer {
        let (p, k) = self.caches.access(self.memory.size(), p, a)?;
        let line = self.caches.line(p, Class::of(a));
        if line.takes_store(a) {
            self.caches.take(p, LineEvent::Store, a, w);
            self.report = BusReport::quiet();
            return Ok(0);
        }
        // The invalidations go out before the tasks that they squash are gone.
        let later = k + 1;
        let mut sharers = self.caches.sharers(a);
        let mask = self.caches.invalidated(later, sharers);
        let hit = self.caches.squashed(later, sharers);
        self.caches.cut_last(hit);
        // The tasks that are gone share the address no more.
        sharers.keep(self.caches.order().len());
        self.caches
            .take_and_link(p, k, LineEvent::Store, a, w, sharers);
        self.report = BusReport::bus_write(a, mask);
        Ok(hit as u32)
    }

    fn squash(&mut self, p: u32) -> Answer {
        let (_, k) = self.caches.squashable(p)?;
        let active = self.caches.order().len();
        self.caches.cut(k);
        self.report = BusReport::quiet();
        Ok((active - k) as u32)
    }

    fn commit(&mut self, p: u32) -> Answer {
        let (p, _) = self.caches.committable(p)?;
        let wrote = write_back(&mut self.memory, &self.caches, p);
        self.caches.retire(p);
        self.report = BusReport::written_back(wrote);
        Ok(wrote.words)
    }

    fn replace(&mut self, p: u32, a: u32) -> Answer {
        let (p, _) = self.caches.replaceable(self.memory.size(), p, a)?;
        let own = self.caches.version(p, a).own;
        let wrote = write_own(&mut self.memory, a, own);
        self.caches.end_line(p, a);
        self.report = BusReport::written_back(wrote);
        Ok(wrote.words)
    }

    // It changes neither lines nor report.
    fn word(&mut self, a: u32) -> Result<u32, Refusal>
        requires { SoundSnooping M.Memory.words M.Memory.sound self.old }
        ensures answer { result ≡ word_of (plain_in M.Memory.words self.old) a }
        ensures after { plain_in M.Memory.words self.new ≡ plain_in M.Memory.words self.old }
        ensures refused { is_ok result ≡ false → self.new ≡ self.old }
        ensures beside { M.Memory.spare (memory_below self.new) ≡ M.Memory.spare (memory_below self.old) }
        ensures kept { SoundSnooping M.Memory.words M.Memory.sound self.new }
        ensures lines { all_caches self.new ≡ all_caches self.old }
        ensures report { latest_report self.new ≡ latest_report self.old }
    {
        Ok(self.memory.read(a)?)
    }

    fn tasks(&self) -> u32 {
        self.caches.order().len() as u32
    }

    fn size(&self) -> u32 {
        self.memory.size()
    }

    fn close(self) -> M {
        let SnoopingStore {
            memory,
            caches: _,
            report: _,
        } = self;
        memory
    }
}

// The word at a for the task at place k from its supplier, and who that is: the cache of the processor that has the nearest
// earlier version, else the memory. k and a are bounded by the order and the memory, so by clauses: types for them would be no
// plainer.
fn supplied<M: Memory>(
    memory: &mut M,
    caches: &Caches,
    k: usize,
    a: u32,
    sharers: Sharers,
) -> Result<(u32, Supplier), Refusal>
    requires sound { M.Memory.sound memory.old }
    requires address { shared_address sharers ≡ a }
    requires sharers { SharersIn (processors_of caches.now) (table_of caches.now) sharers }
    requires k_in_bounds { k ≤ length (processors_of caches.now) }
    requires a_in_bounds { a < length (M.Memory.words memory.old) }
    ensures answer { let nearest = last_that (λ q. is_own (table_of caches.now q a)) (take k (processors_of caches.now)) in result ≡ Ok (supplied_word (lines_in caches.now) (a % 16) (slice_index (M.Memory.words memory.old) a) nearest, supplied_by nearest) }
    ensures words { M.Memory.words memory.new ≡ M.Memory.words memory.old }
    ensures beside { M.Memory.spare memory.new ≡ M.Memory.spare memory.old }
    ensures kept { M.Memory.sound memory.new }
{
    match caches.nearest(k, sharers) {
        Some(q) => {
            let word = caches.line(q, Class::of(a)).word;
            Ok((word, Supplier::Processor { p: q.number() }))
        }
        None => Ok((memory.read(a)?, Supplier::Memory)),
    }
}
