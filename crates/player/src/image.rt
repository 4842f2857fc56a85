// Images: what a memory holds before the first turn. An image is numbers of 32 bits, lowest byte first: how many pairs
// there are, the pairs of offset and length, and the words that they take.
ghost use Rattle.std.specs.Prelude.{◌≡◌, ℕ, ◌+◌, ◌*◌, ◌<◌, ◌≤◌, true, false, ◌∷◌, length, drop, is_ok, IfOk, Ok, MatchOption, slice_index};
ghost use Rattle.std.specs.Iterator.{YieldsFirst, item_count};
ghost use Rattle.std.proofs.Math.Seq.{paste};
ghost use Rattle.memory.specs.Bytes.{words_of};
ghost use Rattle.player.specs.Image.{in_pairs, pair_conditions, words_taken, pair_end, Inside, laid_over, load_answer, loaded_words, pairs_of, image_words, HoldsPairs, OutsidePairs};
ghost use Rattle.versions.specs.Conditions.{answer_unless, first_of};

use crate::fault::{ImageFault, ImageWhy};
use memory::Memory;

const MOST_PAIRS: u32 = 64;

// The words from offset on, as many as the length says.
#[derive(Clone, Copy)]
struct Pair {
    offset: u32,
    len: u32,
}

// Loads an image: puts its words into the memory, or refuses and changes nothing. Words outside its pairs stay.
pub fn load_image<M: Memory>(memory: &mut M, image: &[u8]) -> Result<(), ImageFault>
    requires { M.Memory.sound memory.old }
    ensures answer { result ≡ load_answer (length (M.Memory.words memory.old)) image.now }
    ensures after { M.Memory.words memory.new ≡ loaded_words (M.Memory.words memory.old) image.now }
    ensures laid { is_ok result ≡ true → HoldsPairs (pairs_of image.now) (image_words image.now) (M.Memory.words memory.new) }
    ensures outside { (a : ℕ) → OutsidePairs a (pairs_of image.now) → slice_index (M.Memory.words memory.new) a ≡ slice_index (M.Memory.words memory.old) a }
    ensures refused { is_ok result ≡ false → memory.new ≡ memory.old }
    ensures beside { M.Memory.spare memory.new ≡ M.Memory.spare memory.old }
    ensures kept { M.Memory.sound memory.new }
{
    check_image(memory.size(), image)?;
    lay_image(memory, image);
    Ok(())
}

// Whether the image can be loaded into a memory of n words.
fn check_image(n: u32, image: &[u8]) -> Result<(), ImageFault>
    ensures { result ≡ load_answer n image.now }
{
    let wrong_length = ImageWhy::Length.at(image.len());
    let Some((count, rest)) = first_number(image) else {
        return Err(wrong_length);
    };
    if count > MOST_PAIRS {
        return Err(ImageWhy::PairCount.at(0));
    }
    let Some((pairs, words)) = rest.split_at_checked(8 * count as usize) else {
        return Err(wrong_length);
    };
    let taken = check_pairs(n, pairs)?;
    if words.len() as u64 != 4 * taken {
        return Err(wrong_length);
    }
    Ok(())
}

// Checks some pairs, and gives how many words they take.
fn check_pairs(n: u32, pairs: &[u8]) -> Result<u64, ImageFault>
    requires count_bound { length pairs.now ≤ 8 * 64 }
    ensures bound { IfOk result (λ words. words ≤ n) }
    ensures answer { result ≡ answer_unless (first_of (pair_conditions n 4 0 (in_pairs (words_of pairs.now)))) (words_taken (in_pairs (words_of pairs.now))) }
{
    let mut end: u64 = 0;
    let mut words: u64 = 0;
    for (i, pair) in Pairs(pairs).enumerate() {
        let place = 4 + 8 * i;
        if pair.len == 0 || (pair.offset as u64) < end {
            return Err(ImageWhy::PairOrder.at(place));
        }
        end = pair.offset as u64 + pair.len as u64;
        if end > n as u64 {
            return Err(ImageWhy::PairOutside.at(place));
        }
        words += pair.len as u64;
    }
    Ok(words)
}

// Puts the words of an image that passed the checks into the memory. It takes the image apart again: a check that handed on
// what it took apart would promise a relation, where it promises an equation.
fn lay_image<M: Memory>(memory: &mut M, image: &[u8])
    requires sound { M.Memory.sound memory.old }
    requires accepted { Ok tt ≡ load_answer (length (M.Memory.words memory.old)) image.now }
    ensures after { M.Memory.words memory.new ≡ loaded_words (M.Memory.words memory.old) image.now }
    ensures beside { M.Memory.spare memory.new ≡ M.Memory.spare memory.old }
    ensures kept { M.Memory.sound memory.new }
{
    let Some((count, rest)) = first_number(image) else {
        unreachable()
    };
    let (pairs, words) = rest.split_at(8 * count as usize);
    lay_pairs(memory, pairs, words);
}

// Puts the words of some pairs into the memory, which has room for them all.
fn lay_pairs<M: Memory>(memory: &mut M, pairs: &[u8], words: &[u8])
    requires sound { M.Memory.sound memory.old }
    requires inside { Inside (length (M.Memory.words memory.old)) (in_pairs (words_of pairs.now)) }
    requires pairs_in_bounds { 4 * words_taken (in_pairs (words_of pairs.now)) ≤ length words.now }
    ensures after { M.Memory.words memory.new ≡ laid_over (in_pairs (words_of pairs.now)) (words_of words.now) (M.Memory.words memory.old) }
    ensures beside { M.Memory.spare memory.new ≡ M.Memory.spare memory.old }
    ensures kept { M.Memory.sound memory.new }
{
    let mut left = words;
    for pair in Pairs(pairs) {
        left = lay_pair(memory, pair, left);
    }
}

// Puts the first of some words into the memory, as a pair says, and gives the bytes after them, where the next pair's words
// begin.
fn lay_pair<'a, M: Memory>(memory: &mut M, pair: Pair, words: &'a [u8]) -> &'a [u8]
    requires sound { M.Memory.sound memory.old }
    requires pair_in_bounds { pair_end pair ≤ length (M.Memory.words memory.old) }
    requires len_in_bounds { 4 * pair.len ≤ length words.now }
    ensures after { M.Memory.words memory.new ≡ paste (M.Memory.words memory.old) pair.offset (words_of words.now) pair.len }
    ensures rest { words_of result.now ≡ drop pair.len (words_of words.now) }
    ensures bytes { length words.now ≡ 4 * pair.len + length result.now }
    ensures beside { M.Memory.spare memory.new ≡ M.Memory.spare memory.old }
    ensures kept { M.Memory.sound memory.new }
{
    let (mine, left) = words.split_at(4 * pair.len as usize);
    let (numbers, _) = mine.as_chunks::<4>();
    for (k, bytes) in numbers.iter().enumerate() {
        // The address is below the size, so the memory takes the word.
        let _ = memory.write(pair.offset + k as u32, u32::from_le_bytes(*bytes));
    }
    left
}

// Some pairs, first to last. Bytes that are no whole pair are left out.
#[derive(Drop)]
struct Pairs<'a>(&'a [u8]);

impl<'a> Iterator for Pairs<'a> {
    type Item = Pair;

    ghost next_gives = { YieldsFirst (λ s. in_pairs (words_of s.0.now)) };

    ghost remaining = { item_count (λ s. in_pairs (words_of s.0.now)) };

    fn next(&mut self) -> Option<Pair> {
        let (pair, rest) = first_pair(self.0)?;
        self.0 = rest;
        Some(pair)
    }
}

// The first number of some bytes, and the bytes after it. Here and in `first_pair` an image is taken apart by named bytes, four and eight,
// so that each byte of the format has its name in the code.
fn first_number(bytes: &[u8]) -> Option<(u32, &[u8])>
    ensures { MatchOption result (length bytes.now < 4) (λ x. (words_of bytes.now ≡ x.0 ∷ words_of x.1.now) × (length bytes.now ≡ 4 + length x.1.now)) }
{
    let [a, b, c, d, rest @ ..] = bytes else {
        return None;
    };
    Some((u32::from_le_bytes([*a, *b, *c, *d]), rest))
}

// The first pair of some bytes, and the bytes after it.
fn first_pair(bytes: &[u8]) -> Option<(Pair, &[u8])>
    ensures { MatchOption result (length bytes.now < 8) (λ x. (words_of bytes.now ≡ x.0.offset ∷ x.0.len ∷ words_of x.1.now) × (length bytes.now ≡ 8 + length x.1.now)) }
{
    let [a, b, c, d, e, f, g, h, rest @ ..] = bytes else {
        return None;
    };
    let offset = u32::from_le_bytes([*a, *b, *c, *d]);
    let len = u32::from_le_bytes([*e, *f, *g, *h]);
    Some((Pair { offset, len }, rest))
}
