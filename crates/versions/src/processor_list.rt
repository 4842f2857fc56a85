// At most four processors, in an array of four. So a loop may go over all four: where it ends is then no matter of how many there are,
// which can't be foreseen. The slots past the end hold the default, so that the list alone gives the fields back, and can be copied.
ghost use Rattle.std.specs.Prelude.{◌≡◌, ℕ, ◌<◌, ◌≤◌, cond, [], ◌∷◌, ◌++◌, length, take, drop};

use crate::processor::Processor;
use std::marker::Model;

// A processor where it is kept, or the default.
fn kept(keep: bool, p: Processor) -> Processor
    ensures { result ≡ cond keep p 0 }
{
    if keep { p } else { Processor::default() }
}

#[derive(Clone, Copy)]
pub struct ProcessorList {
    row: [Processor; 4],
    len: usize,
}

// A clause sees the list.
impl Model for ProcessorList {
    ghost use Rattle.std.specs.Prelude.{◌≡◌, ℕ, ◌-◌, ◌≤◌, List, length, take, drop, replicate};
    ghost use Rattle.versions.specs.Copies.{slots_of, row_back, len_back};

    ghost Value = { List ℕ };

    ghost view = { λ l. take l.len l.row };

    ghost invariant = { λ l. (l.len ≤ 4) × (length l.row ≡ 4) × (drop l.len l.row ≡ replicate (4 - l.len) 0) };

    ghost inverse = { λ ps. record { row = slots_of ps; len = length ps } };

    ghost inverse_ok = { λ l h i. record { row = row_back l.row l.len h.0 h.1 h.2 i; len = len_back l.row l.len h.0 h.1 i } };
}

impl ProcessorList {
    // No processor.
    pub fn new() -> ProcessorList
        ensures { result ≡ [] }
    {
        ProcessorList {
            row: [Processor::default(); 4],
            len: 0,
        }
    }

    // How many there are.
    pub fn len(&self) -> usize
        ensures value { result ≡ length self.now }
        ensures bound { result ≤ 4 }
    {
        self.len
    }

    pub fn as_slice(&self) -> &[Processor]
        ensures value { result.now ≡ self.now }
        ensures bound { length result.now ≤ 4 }
    {
        &self.row[..self.len]
    }

    // All four: those of the list, and then any.
    pub fn slots(&self) -> &[Processor]
        ensures first { take (length self.now) result.now ≡ self.now }
        ensures four { length result.now ≡ 4 }
    {
        &self.row
    }

    // Adds a processor at the end, if there is room.
    pub fn push(&mut self, p: Processor)
        requires { length self.old < 4 }
        ensures { self.new ≡ self.old ++ p ∷ [] }
    {
        self.row[self.len] = p;
        self.len += 1;
    }

    // Keeps the first k.
    pub fn truncate(&mut self, k: usize)
        requires { k ≤ length self.old }
        ensures { self.new ≡ take k self.old }
    {
        for (i, slot) in self.row.iter_mut().enumerate() {
            *slot = kept(i < k, *slot);
        }
        self.len = k;
    }

    // Removes the first, if there is one.
    pub fn remove_first(&mut self)
        requires { 0 < length self.old }
        ensures { self.new ≡ drop 1 self.old }
    {
        self.row[0] = self.row[1];
        self.row[1] = self.row[2];
        self.row[2] = self.row[3];
        self.row[3] = Processor::default();
        self.len -= 1;
    }
}
