// Letting a word memory or a byte memory go without closing it: every word already lies in the row.
use memory::{ByteMemory, Memory, WordMemory};
use std::test::Fail;

#[test]
fn a_word_memory_that_is_let_go_leaves_its_words(rt: HostRuntime) -> Result<(), Fail> {
    let mut row = [10, 20, 30];
    WordMemory::check(&row)?;
    {
        let mut memory = WordMemory::open(&mut row);
        assert_eq!(rt; memory.write(1, 21), Ok(()));
    }
    assert_eq!(rt; row, [10, 21, 30]);
    Ok(())
}

#[test]
fn a_byte_memory_that_is_let_go_leaves_its_bytes(rt: HostRuntime) -> Result<(), Fail> {
    let mut row = [1, 2, 3, 4, 5];
    ByteMemory::check(&row)?;
    {
        let mut memory = ByteMemory::open(&mut row);
        assert_eq!(rt; memory.write(0, 0x0908_0706), Ok(()));
    }
    assert_eq!(rt; row, [6, 7, 8, 9, 5]);
    Ok(())
}
