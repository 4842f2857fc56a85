// Word memory: the words lie in a row of `u32` that the caller lends.
ghost use Rattle.std.specs.Prelude.{◌≡◌, ℕ, List, [], length, Ok, slice_get};
ghost use Rattle.memory.specs.Words.{read_answer, write_answer, written_words, open_answer, MemorySize};
ghost use Rattle.memory.specs.Rows.{words_in};

use crate::error::MemoryError;
use crate::interface::{Memory, check_size};

// Its `check`, `open` and `close` are not one generic form with those of byte memory: each is a line, and one form would
// count words as elements divided by 1.
//
// Letting one go ends the loan and loses nothing, as every word already lies in the row.
#[derive(Drop)]
pub struct WordMemory<'a> {
    row: &'a mut [u32],
}

impl<'a> WordMemory<'a> {
    // Whether the row can be opened. It moves nothing.
    pub fn check(row: &[u32]) -> Result<(), MemoryError>
        ensures { result ≡ open_answer (length row.now) }
    {
        check_size(row.len())
    }

    // The memory over a row that passed the check.
    pub fn open(row: &'a mut [u32]) -> WordMemory<'a>
        requires { open_answer (length row.old) ≡ Ok tt }
        ensures words { words_in result ≡ row.old }
        ensures kept { MemorySize (length (words_in result)) }
    {
        WordMemory { row }
    }

    // Ends the memory and gives its row back, which holds the words.
    pub fn close(self) -> &'a mut [u32]
        ensures { result.now ≡ words_in self.entry }
    {
        let WordMemory { row } = self;
        row
    }

    // Word a of the row, if it has one.
    fn word(&self, a: u32) -> Option<u32>
        ensures { result ≡ slice_get (words_in self.now) a }
    {
        self.row.get(a as usize).copied()
    }
}

impl Memory for WordMemory<'_> {
    ghost words = { words_in };

    ghost sound = { λ m. MemorySize (length (words_in m)) };

    ghost spare = { λ _. [] };

    fn size(&self) -> u32 {
        self.row.len() as u32
    }

    fn read(&mut self, a: u32) -> Result<u32, MemoryError> {
        self.word(a).ok_or(MemoryError::Address)
    }

    // Tried with `get_mut`: of a row that it has lent a word of, a proof knows the length alone.
    fn write(&mut self, a: u32, w: u32) -> Result<(), MemoryError> {
        if a >= self.size() {
            return Err(MemoryError::Address);
        }
        self.row[a as usize] = w;
        Ok(())
    }

    ghost sized = { λ _ h. h };
}
