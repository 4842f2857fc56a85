// The one interface of all memories. Whatever is built above is proved once, against these contracts, and holds
// for every memory.
ghost use Rattle.std.specs.Prelude.{◌≡◌, ℕ, false, List, length, is_ok};
ghost use Rattle.memory.specs.Words.{read_answer, write_answer, written_words, open_answer, MemorySize};

use crate::error::MemoryError;

// The most words that a memory may have.
pub const MOST_WORDS: usize = 4096;

pub trait Memory {
    // The words as the memory counts them: what a read gives, whatever a layer still holds back from the one below.
    ghost words: { Self → List ℕ };

    // What ties a memory to what lies below it. Opening gives it, and each call requires and keeps it.
    ghost sound: { Self → Type 0 };

    // Bytes of the supplied row that belong to no word. No call changes them.
    ghost spare: { Self → List ℕ };

    // The number of words. No call changes it.
    fn size(&self) -> u32
        requires { sound self.now }
        ensures { result ≡ length (words self.now) };

    // Word a, or a refusal where there is none. No word changes, and where it is refused nothing does.
    fn read(&mut self, a: u32) -> Result<u32, MemoryError>
        requires { sound self.old }
        ensures answer { result ≡ read_answer (words self.old) a }
        ensures after { words self.new ≡ words self.old }
        ensures refused { is_ok result ≡ false → self.new ≡ self.old }
        ensures beside { spare self.new ≡ spare self.old }
        ensures kept { sound self.new };

    // Puts w at a and changes no other word, or refuses and changes nothing.
    fn write(&mut self, a: u32, w: u32) -> Result<(), MemoryError>
        requires { sound self.old }
        ensures answer { result ≡ write_answer (words self.old) a }
        ensures after { words self.new ≡ written_words (words self.old) a w }
        ensures refused { is_ok result ≡ false → self.new ≡ self.old }
        ensures beside { spare self.new ≡ spare self.old }
        ensures kept { sound self.new };

    // A memory has 1 to 4,096 words.
    ghost sized: { (m : Self) → sound m → MemorySize (length (words m)) };
}

// Whether a memory may have so many words: 1 to 4,096.
pub(crate) fn check_size(words: usize) -> Result<(), MemoryError>
    ensures { result ≡ open_answer words }
{
    match words {
        1..=MOST_WORDS => Ok(()),
        _ => Err(MemoryError::Size),
    }
}
