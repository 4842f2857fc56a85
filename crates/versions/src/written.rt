// Writing own words of a task to memory. `Fitting` is asked of a table and a size, and is no fact of a table, which does not know
// its memory.
ghost use Rattle.std.specs.Prelude.{◌≡◌, ℕ, ◌+◌, ◌^◌, ◌<◌, ◌≤◌, List, length, is_some, if◌then◌else◌, Some, None};
ghost use Rattle.std.specs.Option.{option_or};
ghost use Rattle.memory.specs.Client.{count_below};
ghost use Rattle.versions.specs.Plain.{laid_over_all, written_to};
ghost use Rattle.versions.specs.Tables.{Fitting, up_to_class, of_class, last_own, ClassWritten};
ghost use Rattle.versions.specs.Versions.{is_own};

use crate::processor::{Class, Processor};
use crate::tasks::TaskTable;
use memory::Memory;

// What a commit or a replacement wrote.
#[derive(Clone, Copy, PartialEq, Debug, Default)]
pub struct WrittenBack {
    // How many own words.
    pub words: u32,
    // The address of the last of them.
    pub last: Option<u32>,
}

impl WrittenBack {
    // And then this.
    fn and(self, later: WrittenBack) -> WrittenBack
        requires { self.words + later.words < 2 ^ 32 }
        ensures words { result.words ≡ self.words + later.words }
        ensures last { result.last ≡ option_or later.last self.last }
    {
        WrittenBack {
            words: self.words + later.words,
            last: later.last.or(self.last),
        }
    }
}

// Writes an own word of address a to memory, if there is one. a is bounded by the memory, so by a clause: a type for it would be
// no plainer.
pub fn write_own<M: Memory>(memory: &mut M, a: u32, own: Option<u32>) -> WrittenBack
    requires sound { M.Memory.sound memory.old }
    requires a_in_bounds { a < length (M.Memory.words memory.old) }
    ensures count { result.words ≡ (if is_some own then 1 else 0) }
    ensures last { result.last ≡ (if is_some own then Some a else None) }
    ensures words { M.Memory.words memory.new ≡ written_to own a (M.Memory.words memory.old) }
    ensures beside { M.Memory.spare memory.new ≡ M.Memory.spare memory.old }
    ensures kept { M.Memory.sound memory.new }
{
    match own {
        // Never refused: a is an address of the memory.
        Some(w) => {
            let _ = memory.write(a, w);
            WrittenBack {
                words: 1,
                last: Some(a),
            }
        }
        None => WrittenBack::default(),
    }
}

// Writes the own words of p's task to memory, class by class and the lowest first. It goes over the classes of which the task may hold an
// address, since those are few of the sixteen; where a class is in the set and nothing is held of it, `write_class` writes nothing.
pub fn write_back<M: Memory, T: TaskTable>(memory: &mut M, tasks: &T, p: Processor) -> WrittenBack
    requires sound { M.Memory.sound memory.old }
    requires fitting { Fitting (length (M.Memory.words memory.old)) (T.TaskTable.processors tasks.now) (T.TaskTable.table tasks.now) }
    ensures count { result.words ≡ count_below (λ a. is_own (T.TaskTable.table tasks.now p a)) (length (M.Memory.words memory.old)) }
    ensures last { result.last ≡ last_own (T.TaskTable.table tasks.now p) (length (M.Memory.words memory.old)) 16 }
    ensures words { M.Memory.words memory.new ≡ laid_over_all (T.TaskTable.table tasks.now p) (M.Memory.words memory.old) }
    ensures beside { M.Memory.spare memory.new ≡ M.Memory.spare memory.old }
    ensures kept { M.Memory.sound memory.new }
{
    let mut wrote = WrittenBack::default();
    let mut left = tasks.classes(p);
    while let Some(c) = left.take_lowest() {
        wrote = wrote.and(write_class(memory, tasks, p, c));
    }
    wrote
}

// Writes the own word that p's task has of class c to memory, if it has one. What the classes
// before c have written is in memory already.
fn write_class<M: Memory, T: TaskTable>(
    memory: &mut M,
    tasks: &T,
    p: Processor,
    c: Class,
) -> WrittenBack
    requires sound { M.Memory.sound memory.old }
    requires fitting { Fitting (length (M.Memory.words memory.old)) (T.TaskTable.processors tasks.now) (T.TaskTable.table tasks.now) }
    ensures class { (ws : List ℕ) → M.Memory.words memory.old ≡ laid_over_all (up_to_class (T.TaskTable.table tasks.now p) c) ws → ClassWritten (T.TaskTable.table tasks.now p) c ws (M.Memory.words memory.new) result.words }
    ensures bound { result.words ≤ 1 }
    ensures address { result.last ≡ of_class (λ a. is_own (T.TaskTable.table tasks.now p a)) c (length (M.Memory.words memory.old)) }
    ensures size { length (M.Memory.words memory.new) ≡ length (M.Memory.words memory.old) }
    ensures beside { M.Memory.spare memory.new ≡ M.Memory.spare memory.old }
    ensures kept { M.Memory.sound memory.new }
{
    match tasks.held(p, c) {
        Some(a) => write_own(memory, a, tasks.version(p, a).own),
        None => WrittenBack::default(),
    }
}
