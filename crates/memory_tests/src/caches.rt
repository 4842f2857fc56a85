// What a second-level cache holds back and when it writes it below, alone and in a stack.
use memory::{ByteMemory, Memory, SecondLevel, WordMemory};
use std::test::Fail;

#[test]
fn addresses_5_and_69_take_turns_in_one_line(rt: HostRuntime) -> Result<(), Fail> {
    let mut row = [7; 70];
    WordMemory::check(&row)?;
    let mut cache = SecondLevel::open(WordMemory::open(&mut row));
    let writes = [cache.write(5, 500), cache.write(69, 6900)];
    let reads = [cache.read(5), cache.read(69), cache.read(5), cache.read(4)];
    let back: &[u32] = cache.close().close();
    let mut expected = [7; 70];
    expected[5] = 500;
    expected[69] = 6900;
    assert_eq!(rt; writes, [Ok(()), Ok(())]);
    assert_eq!(rt; reads, [Ok(500), Ok(6900), Ok(500), Ok(7)]);
    assert_eq!(rt; back, expected.as_slice());
    Ok(())
}

#[test]
fn the_last_of_several_writes_is_written_back(rt: HostRuntime) -> Result<(), Fail> {
    let mut row = [1, 2, 3];
    WordMemory::check(&row)?;
    let mut cache = SecondLevel::open(WordMemory::open(&mut row));
    let writes = [cache.write(2, 30), cache.write(2, 31), cache.write(2, 32)];
    let read = cache.read(2);
    let back: &[u32] = cache.close().close();
    assert_eq!(rt; writes, [Ok(()), Ok(()), Ok(())]);
    assert_eq!(rt; read, Ok(32));
    assert_eq!(rt; back, [1, 2, 32].as_slice());
    Ok(())
}

#[test]
fn reads_alone_leave_the_row_as_it_was(rt: HostRuntime) -> Result<(), Fail> {
    let mut row = [7; 70];
    row[5] = 500;
    row[69] = 6900;
    let before = row;
    WordMemory::check(&row)?;
    let mut cache = SecondLevel::open(WordMemory::open(&mut row));
    let reads = [cache.read(5), cache.read(69), cache.read(5), cache.read(0)];
    let back: &[u32] = cache.close().close();
    assert_eq!(rt; reads, [Ok(500), Ok(6900), Ok(500), Ok(7)]);
    assert_eq!(rt; back, before.as_slice());
    Ok(())
}

// The row has 129 words and 3 bytes left over. Addresses 0, 64 and 128 have one line, address 1 has another.
#[test]
fn two_caches_over_bytes_carry_every_word_to_its_bytes(rt: HostRuntime) -> Result<(), Fail> {
    let mut row = [0xee; 519];
    ByteMemory::check(&row)?;
    let mut stack = SecondLevel::open(SecondLevel::open(ByteMemory::open(&mut row)));
    let writes = [
        stack.write(0, 0x0403_0201),
        stack.write(64, 0x1413_1211),
        stack.write(128, 0x2423_2221),
        stack.write(1, 0x0807_0605),
    ];
    let reads = [
        stack.read(0),
        stack.read(64),
        stack.read(128),
        stack.read(1),
    ];
    let back: &[u8] = stack.close().close().close();
    let mut expected = [0xee; 519];
    expected[0..8].copy_from_slice(&[1, 2, 3, 4, 5, 6, 7, 8]);
    expected[256..260].copy_from_slice(&[0x11, 0x12, 0x13, 0x14]);
    expected[512..516].copy_from_slice(&[0x21, 0x22, 0x23, 0x24]);
    assert_eq!(rt; writes, [Ok(()), Ok(()), Ok(()), Ok(())]);
    assert_eq!(rt;
        reads,
        [
            Ok(0x0403_0201),
            Ok(0x1413_1211),
            Ok(0x2423_2221),
            Ok(0x0807_0605),
        ]
    );
    assert_eq!(rt; back, expected.as_slice());
    Ok(())
}
