// The second-level cache: 64 lines over any other memory, which it holds. Address a has line a mod 64. A word that
// was written stays in its line, and goes below only when another address needs the line or when the cache is taken
// apart.
ghost use Rattle.std.specs.Prelude.{◌≡◌, ℕ, ◌%◌, ◌<◌, false, List, length, is_some, is_ok, IfSome, Ok, OnSome};
ghost use Rattle.memory.specs.Words.{read_answer, write_answer, written_words};
ghost use Rattle.memory.specs.Second.{word_in, hit, counted, empty_over, given_up, freed, with_line, after_read, after_write, memory_below, cached_of, SoundCache, counted-sized};

use crate::error::MemoryError;
use crate::interface::Memory;

// How many lines a cache has.
const LINES: usize = 64;

// A line holds no word, or the word of the address `tag`: clean if the memory below has that word too, changed once
// it has been written.
#[derive(Clone, Copy)]
pub enum Line {
    Empty,
    Clean { tag: u32, word: u32 },
    Changed { tag: u32, word: u32 },
}

impl Line {
    // The line's word for address a, if it holds that address.
    fn word_of(self, a: u32) -> Option<u32>
        ensures { result ≡ word_in self a }
    {
        match self {
            Line::Clean { tag, word } | Line::Changed { tag, word } if tag == a => Some(word),
            _ => None,
        }
    }
}

// The number of the line of address a.
fn line_number(a: u32) -> usize
    ensures { result ≡ a % 64 }
{
    a as usize % LINES
}

// It can't be let go, since the words that it holds back would be lost: it is taken apart by `close`.
pub struct SecondLevel<M> {
    below: M,
    lines: [Line; LINES],
}

// `SoundCache` is a clause of each method and no fact of the type, since it is the cache's `sound`, which `Memory` asks and
// keeps at each call.
impl<M: Memory> SecondLevel<M> {
    // A cache over a memory that is open. Its lines are empty, so its words are those below.
    pub fn open(below: M) -> SecondLevel<M>
        requires { M.Memory.sound below }
        ensures cached { cached_of M.Memory.words result ≡ empty_over (M.Memory.words below) }
        ensures words { counted (cached_of M.Memory.words result) ≡ M.Memory.words below }
        ensures below { memory_below result ≡ below }
        ensures kept { SoundCache M.Memory.words M.Memory.sound result }
    {
        SecondLevel {
            below,
            lines: [Line::Empty; LINES],
        }
    }

    // Takes the cache apart: writes back what it held back, and hands over the memory below.
    pub fn close(mut self) -> M
        requires { SoundCache M.Memory.words M.Memory.sound self }
        ensures words { M.Memory.words result ≡ counted (cached_of M.Memory.words self) }
        ensures beside { M.Memory.spare result ≡ M.Memory.spare (memory_below self) }
        ensures kept { M.Memory.sound result }
    {
        self.give_up_all();
        let SecondLevel { below, lines: _ } = self;
        below
    }

    // Empties every line, so that the memory below has all words as the cache counts them. It goes by numbers, since
    // which addresses a line may hold depends on its number.
    fn give_up_all(&mut self)
        requires { SoundCache M.Memory.words M.Memory.sound self.old }
        ensures words { M.Memory.words (memory_below self.new) ≡ counted (cached_of M.Memory.words self.old) }
        ensures beside { M.Memory.spare (memory_below self.new) ≡ M.Memory.spare (memory_below self.old) }
        ensures kept { M.Memory.sound (memory_below self.new) }
    {
        for i in 0..LINES {
            self.give_up(i);
        }
    }

    // Empties line number i. A changed one is written back to its own address.
    fn give_up(&mut self, i: usize)
        requires sound { SoundCache M.Memory.words M.Memory.sound self.old }
        requires line_number { i < 64 }
        ensures cached { cached_of M.Memory.words self.new ≡ given_up (cached_of M.Memory.words self.old) i }
        ensures beside { M.Memory.spare (memory_below self.new) ≡ M.Memory.spare (memory_below self.old) }
        ensures kept { M.Memory.sound (memory_below self.new) }
    {
        if let Line::Changed { tag, word } = self.lines[i] {
            // Never refused: the tag is an address of the memory below.
            let _ = self.below.write(tag, word);
        }
        self.lines[i] = Line::Empty;
    }

    // The word for address a in its line, if that holds it. A read of such an address gives that word and moves
    // nothing.
    fn held(&self, a: u32) -> Option<u32>
        requires { SoundCache M.Memory.words M.Memory.sound self.now }
        ensures missed { is_some result ≡ hit (cached_of M.Memory.words self.now) a }
        ensures answer { IfSome result (λ w. read_answer (counted (cached_of M.Memory.words self.now)) a ≡ Ok w) }
        ensures cached { OnSome result (after_read (cached_of M.Memory.words self.now) a ≡ cached_of M.Memory.words self.now) }
    {
        self.lines[line_number(a)].word_of(a)
    }

    // Frees the line of address a for it: one that holds another address is given up.
    fn free(&mut self, a: u32)
        requires { SoundCache M.Memory.words M.Memory.sound self.old }
        ensures cached { cached_of M.Memory.words self.new ≡ freed (cached_of M.Memory.words self.old) a }
        ensures beside { M.Memory.spare (memory_below self.new) ≡ M.Memory.spare (memory_below self.old) }
        ensures kept { M.Memory.sound (memory_below self.new) }
    {
        let i = line_number(a);
        if self.lines[i].word_of(a).is_none() {
            self.give_up(i);
        }
    }

    // Puts `line` in the place of the line of address a, which is freed for it.
    fn set_line(&mut self, a: u32, line: Line)
        requires { SoundCache M.Memory.words M.Memory.sound self.old }
        ensures cached { cached_of M.Memory.words self.new ≡ with_line (cached_of M.Memory.words self.old) a line }
        ensures beside { M.Memory.spare (memory_below self.new) ≡ M.Memory.spare (memory_below self.old) }
        ensures kept { M.Memory.sound (memory_below self.new) }
    {
        self.free(a);
        self.lines[line_number(a)] = line;
    }

    // Reads address a, which has no line, from below and takes the line for it. The word below is read first, so
    // that nothing has moved if that is refused.
    fn fetch(&mut self, a: u32) -> Result<u32, MemoryError>
        requires sound { SoundCache M.Memory.words M.Memory.sound self.old }
        requires missed { hit (cached_of M.Memory.words self.old) a ≡ false }
        ensures answer { result ≡ read_answer (counted (cached_of M.Memory.words self.old)) a }
        ensures after { counted (cached_of M.Memory.words self.new) ≡ counted (cached_of M.Memory.words self.old) }
        ensures refused { is_ok result ≡ false → self.new ≡ self.old }
        ensures beside { M.Memory.spare (memory_below self.new) ≡ M.Memory.spare (memory_below self.old) }
        ensures kept { SoundCache M.Memory.words M.Memory.sound self.new }
        ensures cached { cached_of M.Memory.words self.new ≡ after_read (cached_of M.Memory.words self.old) a }
    {
        let word = self.below.read(a)?;
        self.set_line(a, Line::Clean { tag: a, word });
        Ok(word)
    }
}

impl<M: Memory> Memory for SecondLevel<M> {
    ghost words = { λ s. counted (cached_of M.Memory.words s) };

    ghost sound = { SoundCache M.Memory.words M.Memory.sound };

    ghost spare = { λ s. M.Memory.spare (memory_below s) };

    // The memory below has as many.
    #[tactic(auto, using(crate::proofs::Caching::sizes))]
    fn size(&self) -> u32 {
        self.below.size()
    }

    // A hit gives the line's word. A miss takes the line.
    fn read(&mut self, a: u32) -> Result<u32, MemoryError>
        requires { SoundCache M.Memory.words M.Memory.sound self.old }
        ensures answer { result ≡ read_answer (counted (cached_of M.Memory.words self.old)) a }
        ensures after { counted (cached_of M.Memory.words self.new) ≡ counted (cached_of M.Memory.words self.old) }
        ensures refused { is_ok result ≡ false → self.new ≡ self.old }
        ensures beside { M.Memory.spare (memory_below self.new) ≡ M.Memory.spare (memory_below self.old) }
        ensures kept { SoundCache M.Memory.words M.Memory.sound self.new }
        ensures cached { cached_of M.Memory.words self.new ≡ after_read (cached_of M.Memory.words self.old) a }
    {
        match self.held(a) {
            Some(word) => Ok(word),
            None => self.fetch(a),
        }
    }

    // The line is changed from now on. A write reads nothing below.
    #[tactic(auto, using(crate::proofs::Caching::sizes))]
    fn write(&mut self, a: u32, w: u32) -> Result<(), MemoryError>
        requires { SoundCache M.Memory.words M.Memory.sound self.old }
        ensures answer { result ≡ write_answer (counted (cached_of M.Memory.words self.old)) a }
        ensures after { counted (cached_of M.Memory.words self.new) ≡ written_words (counted (cached_of M.Memory.words self.old)) a w }
        ensures refused { is_ok result ≡ false → self.new ≡ self.old }
        ensures beside { M.Memory.spare (memory_below self.new) ≡ M.Memory.spare (memory_below self.old) }
        ensures kept { SoundCache M.Memory.words M.Memory.sound self.new }
        ensures cached { cached_of M.Memory.words self.new ≡ after_write (cached_of M.Memory.words self.old) a w }
    {
        if a >= self.size() {
            return Err(MemoryError::Address);
        }
        self.set_line(a, Line::Changed { tag: a, word: w });
        Ok(())
    }

    ghost sized = { λ s h. counted-sized (cached_of M.Memory.words s) (M.Memory.sized (memory_below s) h.0) };
}
