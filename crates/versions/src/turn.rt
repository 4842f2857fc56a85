// A turn: what a processor asks of a version store.
ghost use Rattle.std.specs.Prelude.{◌≡◌, Some};
ghost use Rattle.versions.specs.Turns.{processor_of, turn_text};

use std::fmt;

// p is a processor, a an address, w a word; any numbers of 32 bits.
#[derive(Clone, Copy, PartialEq, Debug)]
pub enum Turn {
    Start { p: u32 },
    Load { p: u32, a: u32 },
    Store { p: u32, a: u32, w: u32 },
    Squash { p: u32 },
    Commit { p: u32 },
    Replace { p: u32, a: u32 },
}

impl Turn {
    // The processor whose turn it is.
    pub fn processor(self) -> u32
        ensures { result ≡ processor_of self }
    {
        match self {
            Turn::Start { p }
            | Turn::Load { p, .. }
            | Turn::Store { p, .. }
            | Turn::Squash { p }
            | Turn::Commit { p }
            | Turn::Replace { p, .. } => p,
        }
    }
}

// A turn as it is written: its verb and its fields, one space between.
impl fmt::Display for Turn {
    ghost output = { λ t. Some (turn_text t) };

    fn fmt<W: fmt::Write>(&self, f: &mut fmt::Formatter<W>) -> fmt::Result {
        match self {
            Turn::Start { p } => write!(f, "start {p}"),
            Turn::Load { p, a } => write!(f, "load {p} {a}"),
            Turn::Store { p, a, w } => write!(f, "store {p} {a} {w}"),
            Turn::Squash { p } => write!(f, "squash {p}"),
            Turn::Commit { p } => write!(f, "commit {p}"),
            Turn::Replace { p, a } => write!(f, "replace {p} {a}"),
        }
    }
}
