// What a memory answers when it refuses. Each error of this repository has its `number` and its text written out so: a trait for them
// would be longer than they are, and no derive promises a text.
ghost use Rattle.std.specs.Prelude.{◌≡◌, Some};
ghost use Rattle.memory.specs.Refusals.{refusal_number, refusal_text};

use std::error::Error;
use std::fmt;

#[derive(Clone, Copy, PartialEq, Debug)]
pub enum MemoryError {
    // The address is the size or more.
    Address = 4,
    // A memory of no word, or of more than 4,096, was to be opened.
    Size = 17,
}

impl MemoryError {
    // The number by which users know the refusal.
    pub fn number(self) -> u8
        ensures { result ≡ refusal_number self }
    {
        self as u8
    }
}

impl fmt::Display for MemoryError {
    ghost output = { λ e. Some (refusal_text e) };

    fn fmt<W: fmt::Write>(&self, f: &mut fmt::Formatter<W>) -> fmt::Result {
        let number = self.number();
        write!(f, "no {number}")
    }
}

impl Error for MemoryError {}
