// What a second-level cache asks of the memory below it, counted by a memory that passes every call on.
ghost use Rattle.std.specs.Prelude.{ℕ, List};

use memory::{Memory, MemoryError, SecondLevel, WordMemory};
use std::cell::Cell;
use std::test::Fail;

// The counts are in cells, of which no contract speaks: a refused call leaves a memory as it is, and is counted all the same.
#[derive(Drop)]
struct Watched<M> {
    below: M,
    reads: Cell<u32>,
    writes: Cell<u32>,
}

impl<M: Memory> Watched<M> {
    fn open(below: M) -> Watched<M>
        requires { M.Memory.sound below }
        ensures { M.Memory.sound result.below }
    {
        Watched {
            below,
            reads: Cell::new(0),
            writes: Cell::new(0),
        }
    }

    // How many reads and writes came.
    fn counts(&self) -> (u32, u32) {
        (self.reads.get(), self.writes.get())
    }
}

fn count(calls: &Cell<u32>) {
    calls.set(calls.get().saturating_add(1));
}

impl<M: Memory> Memory for Watched<M> {
    ghost words = { λ m. M.Memory.words m.below };

    ghost sound = { λ m. M.Memory.sound m.below };

    ghost spare = { λ m. M.Memory.spare m.below };

    fn size(&self) -> u32 {
        self.below.size()
    }

    fn read(&mut self, a: u32) -> Result<u32, MemoryError> {
        count(&self.reads);
        self.below.read(a)
    }

    fn write(&mut self, a: u32, w: u32) -> Result<(), MemoryError> {
        count(&self.writes);
        self.below.write(a, w)
    }

    ghost sized = { λ m h. M.Memory.sized m.below h };
}

// Had the first two writes gone below, it would be three.
#[test]
fn three_writes_of_one_address_go_below_as_one(rt: HostRuntime) -> Result<(), Fail> {
    let mut row = [1, 2, 3];
    WordMemory::check(&row)?;
    let mut cache = SecondLevel::open(Watched::open(WordMemory::open(&mut row)));
    let writes = [cache.write(2, 30), cache.write(2, 31), cache.write(2, 32)];
    let read = cache.read(2);
    let below = cache.close();
    assert_eq!(rt; writes, [Ok(()), Ok(()), Ok(())]);
    assert_eq!(rt; read, Ok(32));
    assert_eq!(rt; below.counts(), (0, 1));
    Ok(())
}

// 69 needs the line of 5, and 5 needs it back: two lines are given up, and one is left at the end.
#[test]
fn a_changed_line_goes_below_when_another_address_needs_it(rt: HostRuntime) -> Result<(), Fail> {
    let mut row = [7; 70];
    WordMemory::check(&row)?;
    let mut cache = SecondLevel::open(Watched::open(WordMemory::open(&mut row)));
    let writes = [cache.write(5, 50), cache.write(69, 60), cache.write(5, 51)];
    let below = cache.close();
    assert_eq!(rt; writes, [Ok(()), Ok(()), Ok(())]);
    assert_eq!(rt; below.counts(), (0, 3));
    Ok(())
}

// The second read of each address is answered by its line, and a clean line is never written back.
#[test]
fn a_read_goes_below_once_and_writes_nothing(rt: HostRuntime) -> Result<(), Fail> {
    let mut row = [7; 70];
    WordMemory::check(&row)?;
    let mut cache = SecondLevel::open(Watched::open(WordMemory::open(&mut row)));
    let reads = [cache.read(5), cache.read(5), cache.read(69), cache.read(69)];
    let below = cache.close();
    assert_eq!(rt; reads, [Ok(7), Ok(7), Ok(7), Ok(7)]);
    assert_eq!(rt; below.counts(), (2, 0));
    Ok(())
}

// A refused call gives up no line.
#[test]
fn a_refused_call_leaves_the_line_of_its_address(rt: HostRuntime) -> Result<(), Fail> {
    let mut row = [7; 64];
    WordMemory::check(&row)?;
    let mut cache = SecondLevel::open(Watched::open(WordMemory::open(&mut row)));
    let first = cache.read(0);
    let refused = (cache.read(64), cache.write(64, 1));
    let again = cache.read(0);
    let below = cache.close();
    assert_eq!(rt; (first, again), (Ok(7), Ok(7)));
    assert_eq!(rt;
        refused,
        (Err(MemoryError::Address), Err(MemoryError::Address))
    );
    // The refused read was asked below, and refused there.
    assert_eq!(rt; below.counts(), (2, 0));
    Ok(())
}
