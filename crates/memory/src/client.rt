// Code over any memories, written and proved once: it knows nothing of them but their interface. So it goes by
// addresses, as a memory shows no slice of its words. The clauses stand out, here and where a program hands them on: a record of
// them would have to be told the words, bytes and condition of both memories. And one form for the two functions would take what is done at an
// address as a closure, whose effect each contract would have to spell out.
ghost use Rattle.std.specs.Prelude.{◌≡◌, ℕ, List, Ok};
ghost use Rattle.memory.specs.Client.{shared, copied, differences};

use crate::error::MemoryError;
use crate::interface::Memory;

// Copies the words that both memories have, and gives their number.
pub fn copy_words<F: Memory, T: Memory>(from: &mut F, to: &mut T) -> Result<u32, MemoryError>
    requires source_sound { F.Memory.sound from.old }
    requires target_sound { T.Memory.sound to.old }
    ensures answer { result ≡ Ok (shared (F.Memory.words from.old) (T.Memory.words to.old)) }
    ensures source { F.Memory.words from.new ≡ F.Memory.words from.old }
    ensures target { T.Memory.words to.new ≡ copied (shared (F.Memory.words from.old) (T.Memory.words to.old)) (F.Memory.words from.old) (T.Memory.words to.old) }
    ensures source_beside { F.Memory.spare from.new ≡ F.Memory.spare from.old }
    ensures target_beside { T.Memory.spare to.new ≡ T.Memory.spare to.old }
    ensures source_kept { F.Memory.sound from.new }
    ensures target_kept { T.Memory.sound to.new }
{
    let n = from.size().min(to.size());
    for a in 0..n {
        let w = from.read(a)?;
        to.write(a, w)?;
    }
    Ok(n)
}

// At how many of the addresses that both memories have their words differ.
pub fn count_differences<F: Memory, T: Memory>(
    left: &mut F,
    right: &mut T,
) -> Result<u32, MemoryError>
    requires left_sound { F.Memory.sound left.old }
    requires right_sound { T.Memory.sound right.old }
    ensures answer { result ≡ Ok (differences (shared (F.Memory.words left.old) (T.Memory.words right.old)) (F.Memory.words left.old) (T.Memory.words right.old)) }
    ensures left { F.Memory.words left.new ≡ F.Memory.words left.old }
    ensures right { T.Memory.words right.new ≡ T.Memory.words right.old }
    ensures left_beside { F.Memory.spare left.new ≡ F.Memory.spare left.old }
    ensures right_beside { T.Memory.spare right.new ≡ T.Memory.spare right.old }
    ensures left_kept { F.Memory.sound left.new }
    ensures right_kept { T.Memory.sound right.new }
{
    let n = left.size().min(right.size());
    let mut differ = 0;
    for a in 0..n {
        let w = left.read(a)?;
        let v = right.read(a)?;
        if w != v {
            differ += 1;
        }
    }
    Ok(differ)
}
