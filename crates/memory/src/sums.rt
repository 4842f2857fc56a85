// Adler-32, the well-known checksum, of all words of a memory, each by its bytes, lowest first.
ghost use Rattle.std.specs.Prelude.{◌≡◌, ℕ, List, Ok};
ghost use Rattle.memory.specs.Adler.{with_byte, with_word_bytes, adler32};

use crate::error::MemoryError;
use crate::interface::Memory;

// The largest prime below 65,536.
const PRIME: u32 = 65521;

// The checksum of all words. By addresses, as in `client`: a memory shows no slice of its words.
pub fn checksum<M: Memory>(memory: &mut M) -> Result<u32, MemoryError>
    requires { M.Memory.sound memory.old }
    ensures answer { result ≡ Ok (adler32 (M.Memory.words memory.old)) }
    ensures after { M.Memory.words memory.new ≡ M.Memory.words memory.old }
    ensures beside { M.Memory.spare memory.new ≡ M.Memory.spare memory.old }
    ensures kept { M.Memory.sound memory.new }
{
    let n = memory.size();
    let mut sum = 1;
    for a in 0..n {
        let w = memory.read(a)?;
        sum = add_word(sum, w);
    }
    Ok(sum)
}

// The checksum after one more word. (By `fold` over the four bytes a checksum took half as long again, and over their array three times
// as long.)
fn add_word(sum: u32, w: u32) -> u32
    ensures { result ≡ with_word_bytes sum w }
{
    let [b0, b1, b2, b3] = w.to_le_bytes();
    add_byte(add_byte(add_byte(add_byte(sum, b0), b1), b2), b3)
}

// The checksum after one more byte.
#[tactic(auto, unfolding(crate::specs::Adler::with_byte))]
fn add_byte(sum: u32, b: u8) -> u32
    ensures { result ≡ with_byte sum b }
{
    let low = (sum % 65536 + b as u32) % PRIME;
    let high = (sum / 65536 + low) % PRIME;
    high * 65536 + low
}
