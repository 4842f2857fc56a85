// The ways of the program's words, over any memories: one cache over the source, or two over the target.
ghost use Rattle.std.specs.Prelude.{◌≡◌, ℕ, ◌-◌, ◌^◌, ◌≤◌, [], ◌∷◌, length, Ok};
ghost use Rattle.memory.specs.Client.{shared, copied};
ghost use Rattle.memories.specs.Outside.{refused_at};

use crate::report::Outside;
use memory::{Memory, MemoryError, SecondLevel, copy_words};

// Copies the words of one memory into another through a cache over the first, which is taken apart again.
pub fn copy_from_cache<F: Memory, T: Memory>(from: F, to: &mut T) -> (F, Result<u32, MemoryError>)
    requires from_sound { F.Memory.sound from }
    requires to_sound { T.Memory.sound to.old }
    ensures answer { result.1 ≡ Ok (shared (F.Memory.words from) (T.Memory.words to.old)) }
    ensures source { F.Memory.words result.0 ≡ F.Memory.words from }
    ensures target { T.Memory.words to.new ≡ copied (shared (F.Memory.words from) (T.Memory.words to.old)) (F.Memory.words from) (T.Memory.words to.old) }
    ensures source_beside { F.Memory.spare result.0 ≡ F.Memory.spare from }
    ensures target_beside { T.Memory.spare to.new ≡ T.Memory.spare to.old }
    ensures source_kept { F.Memory.sound result.0 }
    ensures target_kept { T.Memory.sound to.new }
{
    let mut cache = SecondLevel::open(from);
    let moved = copy_words(&mut cache, to);
    (cache.close(), moved)
}

// Copies the words of one memory into another through two caches over the second, which are taken apart again.
pub fn copy_into_caches<F: Memory, T: Memory>(from: &mut F, to: T) -> (T, Result<u32, MemoryError>)
    requires from_sound { F.Memory.sound from.old }
    requires to_sound { T.Memory.sound to }
    ensures answer { result.1 ≡ Ok (shared (F.Memory.words from.old) (T.Memory.words to)) }
    ensures source { F.Memory.words from.new ≡ F.Memory.words from.old }
    ensures target { T.Memory.words result.0 ≡ copied (shared (F.Memory.words from.old) (T.Memory.words to)) (F.Memory.words from.old) (T.Memory.words to) }
    ensures source_beside { F.Memory.spare from.new ≡ F.Memory.spare from.old }
    ensures target_beside { T.Memory.spare result.0 ≡ T.Memory.spare to }
    ensures source_kept { F.Memory.sound from.new }
    ensures target_kept { T.Memory.sound result.0 }
{
    let mut cache = SecondLevel::open(SecondLevel::open(to));
    let moved = copy_words(from, &mut cache);
    (cache.close().close(), moved)
}

// Reads and writes at the first address that the memory does not have and at the last of all, and gives the
// refusals.
pub fn try_outside<M: Memory>(memory: &mut M) -> [Outside; 2]
    requires { M.Memory.sound memory.old }
    ensures answer { result ≡ refused_at (length (M.Memory.words memory.old)) ∷ refused_at (2 ^ 32 - 1) ∷ [] }
    ensures after { M.Memory.words memory.new ≡ M.Memory.words memory.old }
    ensures beside { M.Memory.spare memory.new ≡ M.Memory.spare memory.old }
    ensures kept { M.Memory.sound memory.new }
{
    let n = memory.size();
    [try_at(memory, n), try_at(memory, u32::MAX)]
}

// Reads and writes at an address that the memory does not have.
fn try_at<M: Memory>(memory: &mut M, a: u32) -> Outside
    requires sound { M.Memory.sound memory.old }
    requires memory_len_bound { length (M.Memory.words memory.old) ≤ a }
    ensures answer { result ≡ refused_at a }
    ensures after { M.Memory.words memory.new ≡ M.Memory.words memory.old }
    ensures beside { M.Memory.spare memory.new ≡ M.Memory.spare memory.old }
    ensures kept { M.Memory.sound memory.new }
{
    let read = memory.read(a).map(|_| ());
    let write = memory.write(a, 0);
    Outside {
        address: a,
        read,
        write,
    }
}
