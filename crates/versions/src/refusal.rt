// The answer to a turn: a number, or a refusal.
ghost use Rattle.std.specs.Prelude.{◌≡◌, Some};
ghost use Rattle.versions.specs.Refusals.{refusal_number, refusal_text, refusal_below};

use memory::MemoryError;
use std::error::Error;
use std::fmt;

#[derive(Clone, Copy, PartialEq, Debug)]
pub enum Refusal {
    // The processor is 4 or more.
    NoProcessor = 1,
    // A task is active on the processor.
    TaskActive = 2,
    // No task is active on the processor.
    NoTask = 3,
    // The address is the memory's size or more.
    NoAddress = 4,
    // The task holds another address of this class.
    ClassTaken = 5,
    // The processor does not have the head.
    NotHead = 6,
    // The processor has the head.
    IsHead = 7,
    // The task does not hold the address.
    NotHeld = 8,
}

pub type Answer = Result<u32, Refusal>;

impl Refusal {
    // The number by which users know the refusal.
    pub fn number(self) -> u8
        ensures { result ≡ refusal_number self }
    {
        self as u8
    }
}

impl fmt::Display for Refusal {
    ghost output = { λ e. Some (refusal_text e) };

    fn fmt<W: fmt::Write>(&self, f: &mut fmt::Formatter<W>) -> fmt::Result {
        let number = self.number();
        write!(f, "no {number}")
    }
}

impl Error for Refusal {}

// What the memory below refuses, a turn refuses: its reads and writes give no other refusal than that of the address.
impl From<MemoryError> for Refusal {
    ghost from_gives = { λ e r. r ≡ refusal_below e };

    fn from(e: MemoryError) -> Refusal {
        match e {
            MemoryError::Address => Refusal::NoAddress,
            MemoryError::Size => Refusal::NoAddress,
        }
    }
}
