// What a version store is: anything that answers every turn as the plain store of specs/Plain.antt does. Whatever is
// built above is proved once, against these contracts, and holds for every version store over every memory.
ghost use Rattle.std.specs.Prelude.{◌≡◌, ℕ, ◌≤◌, false, List, length, is_ok};
ghost use Rattle.versions.specs.declared.turn.Turn.{Turn};
ghost use Rattle.versions.specs.declared.turn.Turn.TheVariants.{Start, Load, Store, Squash, Commit, Replace};
ghost use Rattle.versions.specs.Plain.{Plain, opened, memory_words, active_tasks, word_of};
ghost use Rattle.versions.specs.Taken.{Took};

use crate::refusal::{Answer, Refusal};
use crate::turn::Turn;
use memory::Memory;

pub trait VersionStore: Sized {
    // The memory below, which closing hands back.
    type Below: Memory;

    // The state of the plain store that this store stands for, with the words as this store counts them.
    ghost plain: { Self → Plain };

    // What ties the store to its memory. Opening gives it, and each call requires and keeps it.
    ghost sound: { Self → Type 0 };

    // Bytes of the memory's supplied row that belong to no word. No call changes them.
    ghost spare: { Self → List ℕ };

    // What a store shows of itself when it was opened, and of a turn, beyond the plain store: nothing, or its lines and what
    // its bus reports.
    ghost opens: { Self → Type 0 };

    ghost shows: { Self → Turn → Self → Type 0 };

    // A store over a memory that is open. No task is active.
    fn open(memory: Self::Below) -> Self
        requires { Self.Below.Memory.sound memory }
        ensures plain { plain result ≡ opened (Self.Below.Memory.words memory) }
        ensures opens { opens result }
        ensures beside { spare result ≡ Self.Below.Memory.spare memory }
        ensures kept { sound result };

    // Starts a task on p, the youngest. It gives the number of tasks active before.
    fn start(&mut self, p: u32) -> Answer
        requires { sound self.old }
        ensures { Took plain shows spare sound self.old (Start p) result self.new };

    // Loads address a for p's task. It gives the word that the task sees there.
    fn load(&mut self, p: u32, a: u32) -> Answer
        requires { sound self.old }
        ensures { Took plain shows spare sound self.old (Load p a) result self.new };

    // Stores w at address a for p's task. It gives the number of later tasks squashed.
    fn store(&mut self, p: u32, a: u32, w: u32) -> Answer
        requires { sound self.old }
        ensures { Took plain shows spare sound self.old (Store p a w) result self.new };

    // Removes p's task and all later ones. It gives their number.
    fn squash(&mut self, p: u32) -> Answer
        requires { sound self.old }
        ensures { Took plain shows spare sound self.old (Squash p) result self.new };

    // Writes the own words of p's task to memory and removes the task. It gives the number of own words.
    fn commit(&mut self, p: u32) -> Answer
        requires { sound self.old }
        ensures { Took plain shows spare sound self.old (Commit p) result self.new };

    // Writes the own word of p's task at a to memory, if there is one, and drops what the task holds there. It gives 1
    // if it wrote, else 0.
    fn replace(&mut self, p: u32, a: u32) -> Answer
        requires { sound self.old }
        ensures { Took plain shows spare sound self.old (Replace p a) result self.new };

    // The memory's word at a, as the store counts it; own words of active tasks do not show.
    fn word(&mut self, a: u32) -> Result<u32, Refusal>
        requires { sound self.old }
        ensures answer { result ≡ word_of (plain self.old) a }
        ensures after { plain self.new ≡ plain self.old }
        ensures refused { is_ok result ≡ false → self.new ≡ self.old }
        ensures beside { spare self.new ≡ spare self.old }
        ensures kept { sound self.new };

    // The number of active tasks.
    fn tasks(&self) -> u32
        requires { sound self.now }
        ensures value { result ≡ active_tasks (plain self.now) }
        ensures bound { result ≤ 4 };

    // The memory's number of words.
    fn size(&self) -> u32
        requires { sound self.now }
        ensures { result ≡ length (memory_words (plain self.now)) };

    // Drops the active tasks and hands back the memory with its words.
    fn close(self) -> Self::Below
        requires { sound self }
        ensures words { Self.Below.Memory.words result ≡ memory_words (plain self) }
        ensures beside { Self.Below.Memory.spare result ≡ spare self }
        ensures kept { Self.Below.Memory.sound result };

    // Plays one turn. (Always inline: by itself the compiler calls it, which costs a fifth of a turn.)
    #[inline(always)]
    fn take_turn(&mut self, turn: Turn) -> Answer
        requires { sound self.old }
        ensures { Took plain shows spare sound self.old turn result self.new }
    {
        match turn {
            Turn::Start { p } => self.start(p),
            Turn::Load { p, a } => self.load(p, a),
            Turn::Store { p, a, w } => self.store(p, a, w),
            Turn::Squash { p } => self.squash(p),
            Turn::Commit { p } => self.commit(p),
            Turn::Replace { p, a } => self.replace(p, a),
        }
    }
}
