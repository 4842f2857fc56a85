// Where byte memory puts a word: lowest byte first, and no other byte is touched.
use memory::{ByteMemory, Memory};
use std::test::Fail;

#[test]
fn a_word_lies_lowest_byte_first_and_the_other_bytes_stay(rt: HostRuntime) -> Result<(), Fail> {
    let mut row = [20, 21, 22, 23, 24, 25, 26, 27, 28, 29, 30];
    ByteMemory::check(&row)?;
    let mut memory = ByteMemory::open(&mut row);
    assert_eq!(rt; memory.write(1, 0x0403_0201), Ok(()));
    assert_eq!(rt; memory.read(1), Ok(0x0403_0201));
    let back: &[u8] = memory.close();
    assert_eq!(rt; back, [20, 21, 22, 23, 1, 2, 3, 4, 28, 29, 30].as_slice());
    Ok(())
}

#[test]
fn a_word_is_read_lowest_byte_first(rt: HostRuntime) -> Result<(), Fail> {
    let mut row = [0x78, 0x56, 0x34, 0x12, 0xff, 0, 0, 0x80];
    ByteMemory::check(&row)?;
    let mut memory = ByteMemory::open(&mut row);
    assert_eq!(rt; memory.read(0), Ok(0x1234_5678));
    assert_eq!(rt; memory.read(1), Ok(0x8000_00ff));
    Ok(())
}
