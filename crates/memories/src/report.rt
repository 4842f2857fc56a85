// What the report says of calls outside a memory, and of bytes.
ghost use Rattle.std.specs.Prelude.{Some};
ghost use Rattle.memories.specs.Shown.{outcome_text, outside_text};

use memory::MemoryError;
use std::fmt;

// How a read and a write of one address ended.
#[derive(Clone, Copy)]
pub struct Outside {
    pub address: u32,
    pub read: Result<(), MemoryError>,
    pub write: Result<(), MemoryError>,
}

impl fmt::Display for Outside {
    ghost output = { λ o. Some (outside_text o) };

    fn fmt<W: fmt::Write>(&self, f: &mut fmt::Formatter<W>) -> fmt::Result {
        let a = self.address;
        let read = Outcome(self.read);
        let write = Outcome(self.write);
        write!(f, "read of {a}: {read}, write of {a}: {write}")
    }
}

// How a call ended, as the report writes it.
#[derive(Clone, Copy)]
pub struct Outcome(pub Result<(), MemoryError>);

impl fmt::Display for Outcome {
    ghost output = { λ o. Some (outcome_text o.0) };

    fn fmt<W: fmt::Write>(&self, f: &mut fmt::Formatter<W>) -> fmt::Result {
        match self.0 {
            Ok(()) => write!(f, "ok"),
            Err(e) => write!(f, "{e}"),
        }
    }
}

// Bytes as pairs of hexadecimal digits. Only the program's output speaks of its text, and no contract.
#[derive(Clone, Copy)]
pub struct Hex<'a>(pub &'a [u8]);

impl fmt::Display for Hex<'_> {
    fn fmt<W: fmt::Write>(&self, f: &mut fmt::Formatter<W>) -> fmt::Result {
        let mut between = "";
        for b in self.0 {
            write!(f, "{between}{b:02x}")?;
            between = " ";
        }
        Ok(())
    }
}
