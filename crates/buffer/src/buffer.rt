// The central buffer: one store of versions for all four processors, over any memory. Every refusal is decided before
// the first row or word changes.
ghost use Rattle.std.specs.Prelude.{◌≡◌, ℕ, ◌+◌, ◌<◌, ◌≤◌, length, take, Ok, slice_index};
ghost use Rattle.buffer.specs.Buffers.{memory_below, plain_in, SoundBuffer};
ghost use Rattle.buffer.specs.Tasks.{processors_of, versions_at};
ghost use Rattle.versions.specs.Versions.{seen_by};

use crate::tasks::Tasks;
use memory::Memory;
use versions::{Answer, Refusal, TaskTable, Version, VersionStore, write_back, write_own};

pub struct CentralBuffer<M> {
    memory: M,
    tasks: Tasks,
}

impl<M: Memory> CentralBuffer<M> {
    // The word at a that the task at place k sees. k and a are bounded by the order and the memory, so by clauses: types for them
    // would be no plainer. It is always copied in, as `load` is.
    #[inline(always)]
    fn seen(&mut self, k: usize, a: u32) -> Result<u32, Refusal>
        requires sound { M.Memory.sound (memory_below self.old) }
        requires k_in_bounds { k < length (processors_of self.old.tasks) }
        requires few { length (processors_of self.old.tasks) ≤ 4 }
        requires a_in_bounds { a < length (M.Memory.words (memory_below self.old)) }
        ensures answer { result ≡ Ok (seen_by (versions_at self.old.tasks a (take (k + 1) (processors_of self.old.tasks))) (slice_index (M.Memory.words (memory_below self.old)) a)) }
        ensures words { M.Memory.words (memory_below self.new) ≡ M.Memory.words (memory_below self.old) }
        ensures tasks { self.new.tasks ≡ self.old.tasks }
        ensures beside { M.Memory.spare (memory_below self.new) ≡ M.Memory.spare (memory_below self.old) }
        ensures kept { M.Memory.sound (memory_below self.new) }
    {
        match self.tasks.nearest_own(k, a) {
            Some(w) => Ok(w),
            None => Ok(self.memory.read(a)?),
        }
    }
}

impl<M: Memory> VersionStore for CentralBuffer<M> {
    type Below = M;

    ghost plain = { plain_in M.Memory.words };

    ghost sound = { SoundBuffer M.Memory.words M.Memory.sound };

    ghost spare = { λ b. M.Memory.spare (memory_below b) };

    // Nothing beyond the plain store.
    ghost opens = { λ _. Unit {0} };

    ghost shows = { λ _ _ _. Unit {0} };

    fn open(memory: M) -> CentralBuffer<M> {
        CentralBuffer {
            memory,
            tasks: Tasks::new(),
        }
    }

    // The snooping store has the same calls. What they share is in `TaskTable` and `write_own`, `write_back`; what is left are lines on
    // this store's own fields. One form for both would be no plainer: this store's steps would have to speak of reports, which only
    // the snooping store has.
    fn start(&mut self, p: u32) -> Answer {
        let (p, active) = self.tasks.startable(p)?;
        self.tasks.append(p);
        Ok(active as u32)
    }

    // Loads and stores are always copied in: each has two callers, so that LLVM would call it, and a call costs a sixth of a turn.
    #[inline(always)]
    fn load(&mut self, p: u32, a: u32) -> Answer {
        let (p, k) = self.tasks.access(self.memory.size(), p, a)?;
        let version = self.tasks.version(p, a);
        let w = self.seen(k, a)?;
        self.tasks.note_load(p, a, version);
        Ok(w)
    }

    #[inline(always)]
    fn store(&mut self, p: u32, a: u32, w: u32) -> Answer {
        let (p, k) = self.tasks.access(self.memory.size(), p, a)?;
        let sharers = self.tasks.sharers(a);
        let hit = self.tasks.squashed(k + 1, sharers);
        self.tasks.cut_last(hit);
        self.tasks.note_store(p, a, w);
        Ok(hit as u32)
    }

    fn squash(&mut self, p: u32) -> Answer {
        let (_, k) = self.tasks.squashable(p)?;
        let active = self.tasks.order().len();
        self.tasks.cut(k);
        Ok((active - k) as u32)
    }

    fn commit(&mut self, p: u32) -> Answer {
        let (p, _) = self.tasks.committable(p)?;
        let wrote = write_back(&mut self.memory, &self.tasks, p);
        self.tasks.retire(p);
        Ok(wrote.words)
    }

    fn replace(&mut self, p: u32, a: u32) -> Answer {
        let (p, _) = self.tasks.replaceable(self.memory.size(), p, a)?;
        let own = self.tasks.version(p, a).own;
        let wrote = write_own(&mut self.memory, a, own);
        self.tasks.put(p, a, Version::none());
        Ok(wrote.words)
    }

    fn word(&mut self, a: u32) -> Result<u32, Refusal> {
        Ok(self.memory.read(a)?)
    }

    fn tasks(&self) -> u32 {
        self.tasks.order().len() as u32
    }

    fn size(&self) -> u32 {
        self.memory.size()
    }

    fn close(self) -> M {
        let CentralBuffer { memory, tasks: _ } = self;
        memory
    }
}
