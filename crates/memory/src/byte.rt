// Byte memory: word a lies in bytes 4a to 4a+3 of a row that the caller lends, lowest byte first. One to three
// bytes at the row's end may belong to no word, and are never touched.
ghost use Rattle.std.specs.Prelude.{◌≡◌, ℕ, ◌/◌, false, List, length, is_ok, Ok, slice_get};
ghost use Rattle.memory.specs.Words.{read_answer, write_answer, written_words, open_answer, MemorySize};
ghost use Rattle.memory.specs.Bytes.{words_of, written_bytes, spare_bytes, words_of-sized};

use crate::error::MemoryError;
use crate::interface::{Memory, check_size};

// Letting one go ends the loan and loses nothing, as every word already lies in the row.
#[derive(Drop)]
pub struct ByteMemory<'a> {
    row: &'a mut [u8],
    // The row has 1 to 4,096 words. So `read` and `write`, which name the row, ask nothing of their caller.
    ghost in_range: { MemorySize (length row.now / 4) },
}

impl<'a> ByteMemory<'a> {
    ghost use Rattle.memory.specs.Rows.{bytes_in};

    // Whether the row can be opened. It moves nothing.
    pub fn check(row: &[u8]) -> Result<(), MemoryError>
        ensures { result ≡ open_answer (length row.now / 4) }
    {
        check_size(row.len() / 4)
    }

    // The memory over a row that passed the check.
    pub fn open(row: &'a mut [u8]) -> ByteMemory<'a>
        requires { open_answer (length row.old / 4) ≡ Ok tt }
        ensures row { bytes_in result ≡ row.old }
        ensures kept { MemorySize (length (bytes_in result) / 4) }
    {
        ByteMemory { row }
    }

    // Ends the memory and gives its row back, which holds the words and the bytes left over.
    pub fn close(self) -> &'a mut [u8]
        ensures { result.now ≡ bytes_in self.entry }
    {
        let ByteMemory { row } = self;
        row
    }

    // Word a of the row, if it has one.
    fn word(&self, a: u32) -> Option<u32>
        ensures { result ≡ slice_get (words_of (bytes_in self.now)) a }
    {
        let (words, _) = self.row.as_chunks::<4>();
        let bytes = words.get(a as usize)?;
        Some(u32::from_le_bytes(*bytes))
    }
}

impl Memory for ByteMemory<'_> {
    ghost use Rattle.memory.specs.Rows.{bytes_in};

    ghost words = { λ m. words_of (bytes_in m) };

    ghost sound = { λ m. MemorySize (length (bytes_in m) / 4) };

    ghost spare = { λ m. spare_bytes (bytes_in m) };

    #[tactic(auto, using(crate::proofs::Packing::sizes))]
    fn size(&self) -> u32 {
        (self.row.len() / 4) as u32
    }

    // Word a, or a refusal where there is none. The row stays as it is.
    fn read(&mut self, a: u32) -> Result<u32, MemoryError>
        ensures answer { result ≡ read_answer (words_of (bytes_in self.old)) a }
        ensures row { bytes_in self.new ≡ bytes_in self.old }
        ensures refused { is_ok result ≡ false → self.new ≡ self.old }
    {
        self.word(a).ok_or(MemoryError::Address)
    }

    // Puts w into bytes 4a to 4a+3 and touches no other byte, or refuses and touches none.
    #[tactic(auto, using(crate::proofs::Packing::sizes))]
    fn write(&mut self, a: u32, w: u32) -> Result<(), MemoryError>
        ensures answer { result ≡ write_answer (words_of (bytes_in self.old)) a }
        ensures row { bytes_in self.new ≡ written_bytes (bytes_in self.old) a w }
        ensures refused { is_ok result ≡ false → self.new ≡ self.old }
        ensures words { words_of (bytes_in self.new) ≡ written_words (words_of (bytes_in self.old)) a w }
        ensures beside { spare_bytes (bytes_in self.new) ≡ spare_bytes (bytes_in self.old) }
    {
        if a >= self.size() {
            return Err(MemoryError::Address);
        }
        // Not by `as_chunks_mut`, which does not say what the row holds afterwards.
        let at = 4 * a as usize;
        self.row[at..at + 4].copy_from_slice(&w.to_le_bytes());
        Ok(())
    }

    ghost sized = { λ m h. words_of-sized (bytes_in m) h };
}
