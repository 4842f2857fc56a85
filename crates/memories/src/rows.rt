// The rows of the program's three memories, and the memories over them.
ghost use Rattle.std.specs.Prelude.{◌≡◌, ◌/◌, ◌&&◌, length, is_ok, IfErr, IfOk};
ghost use Rattle.memory.specs.Words.{open_answer, MemorySize};
ghost use Rattle.memory.specs.Rows.{words_in, bytes_in};
ghost use Rattle.memory.specs.declared.error.MemoryError.TheVariants.{Size};

use memory::{ByteMemory, MemoryError, WordMemory};

#[derive(Drop)]
pub struct Rows {
    pub dump: Vec<u8>,
    pub words: Vec<u32>,
    pub bytes: Vec<u8>,
}

pub struct Memories<'a> {
    pub dump: ByteMemory<'a>,
    pub words: WordMemory<'a>,
    pub bytes: ByteMemory<'a>,
}

impl Rows {
    // The memories over all three rows, or the first refusal.
    pub fn open(&mut self) -> Result<Memories<'_>, MemoryError>
        ensures outcome { is_ok result ≡ (is_ok (open_answer (length self.old.dump.items / 4)) && (is_ok (open_answer (length self.old.words.items)) && is_ok (open_answer (length self.old.bytes.items / 4)))) }
        ensures err { IfErr result (λ e. e ≡ Size) }
        ensures dump { IfOk result (λ memories. bytes_in memories.dump ≡ self.old.dump.items) }
        ensures words { IfOk result (λ memories. words_in memories.words ≡ self.old.words.items) }
        ensures bytes { IfOk result (λ memories. bytes_in memories.bytes ≡ self.old.bytes.items) }
        ensures kept { IfOk result (λ memories. MemorySize (length (words_in memories.words))) }
    {
        ByteMemory::check(self.dump.as_slice())?;
        WordMemory::check(self.words.as_slice())?;
        ByteMemory::check(self.bytes.as_slice())?;
        Ok(Memories {
            dump: ByteMemory::open(self.dump.as_mut_slice()),
            words: WordMemory::open(self.words.as_mut_slice()),
            bytes: ByteMemory::open(self.bytes.as_mut_slice()),
        })
    }
}
