// Memories behind one interface: a row of 1 to 4,096 words of 32 bits that is read and written by address.
// `interface` has the trait and what it promises; `word`, `byte` and `second` are the three memories; `client` is
// code that is written and proved once for every memory, and so is `sums`.
#![tactic(auto)]

mod byte;
mod client;
mod error;
mod interface;
mod second;
mod sums;
mod word;

pub use byte::ByteMemory;
pub use client::{copy_words, count_differences};
pub use error::MemoryError;
pub use interface::{MOST_WORDS, Memory};
pub use second::SecondLevel;
pub use sums::checksum;
pub use word::WordMemory;
