// The words of a memory, read in their order.
use memory::{Memory, SecondLevel, WordMemory};
use player::words_of;
use std::test::*;

#[test]
fn the_words_come_in_their_order_as_the_memory_counts_them(rt: HostRuntime) -> Result<(), Fail> {
    let mut row = [70, 0, 72];
    let mut memory = SecondLevel::open(WordMemory::open(&mut row));
    let written = memory.write(1, 71);
    let words = words_of(rt.alloc(), &mut memory);
    let _ = memory.close();
    assert_eq!(rt; written, Ok(()));
    assert_eq!(rt; words?.as_slice(), [70, 71, 72].as_slice());
    Ok(())
}
