// Processors and classes of addresses: small numbers that were checked once, where they came in. Two types and not one with its limit
// as a parameter: a processor is checked and told by its number, a class is a remainder.
ghost use Rattle.std.specs.Prelude.{◌≡◌, ◌%◌, ◌<◌, cond, Some, None, nat_le};
ghost use Rattle.versions.specs.Processors.{processor_answer};

use crate::refusal::Refusal;
use std::marker::Model;

// A processor: a number below 4.
#[derive(Clone, Copy, PartialEq, Debug, Default)]
pub struct Processor {
    number: u32,
}

impl Model for Processor {
    ghost use Rattle.std.specs.Prelude.{ℕ, ◌<◌};

    ghost Value = { ℕ };

    ghost view = { λ p. p.number };

    ghost invariant = { λ p. p.number < 4 };

    ghost inverse = { λ n. record { number = n } };
}

impl Processor {
    // Its number.
    pub fn number(self) -> u32
        ensures value { result ≡ self }
        ensures bound { result < 4 }
    {
        self.number
    }

    // Its place in a row of four.
    pub fn index(self) -> usize
        ensures value { result ≡ self }
        ensures bound { result < 4 }
    {
        self.number as usize
    }
}

// A number of 4 or more is no processor's.
impl TryFrom<u32> for Processor {
    type Error = Refusal;

    ghost try_from_gives = { λ p r. r ≡ processor_answer p };

    fn try_from(p: u32) -> Result<Processor, Refusal> {
        if p >= 4 {
            return Err(Refusal::NoProcessor);
        }
        Ok(Processor { number: p })
    }
}

// A class of addresses: those that leave the same remainder by 16.
#[derive(Clone, Copy, PartialEq, Debug)]
pub struct Class {
    remainder: u32,
}

impl Model for Class {
    ghost use Rattle.std.specs.Prelude.{ℕ, ◌<◌};

    ghost Value = { ℕ };

    ghost view = { λ c. c.remainder };

    ghost invariant = { λ c. c.remainder < 16 };

    ghost inverse = { λ n. record { remainder = n } };
}

impl Class {
    // The class of an address.
    pub fn of(a: u32) -> Class
        ensures { result ≡ a % 16 }
    {
        Class { remainder: a % 16 }
    }

    // The class with this remainder, if there is one: there is no refusal to tell.
    pub fn with(remainder: u32) -> Option<Class>
        ensures { result ≡ cond (nat_le 16 remainder) None (Some remainder) }
    {
        if remainder >= 16 {
            return None;
        }
        Some(Class { remainder })
    }

    // Its place in a row of sixteen.
    pub fn index(self) -> usize
        ensures value { result ≡ self }
        ensures bound { result < 16 }
    {
        self.remainder as usize
    }
}
