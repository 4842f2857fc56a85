// Code over any memories: copying, counting differences, and the checksum.
use memory::{ByteMemory, SecondLevel, WordMemory, checksum, copy_words, count_differences};
use std::test::Fail;

#[test]
fn copying_into_a_smaller_memory_fills_it(rt: HostRuntime) -> Result<(), Fail> {
    let mut long = [1, 2, 3];
    let mut short = [70, 80];
    WordMemory::check(&long)?;
    WordMemory::check(&short)?;
    let mut from = WordMemory::open(&mut long);
    let mut to = WordMemory::open(&mut short);
    assert_eq!(rt; copy_words(&mut from, &mut to), Ok(2));
    let source: &[u32] = from.close();
    let target: &[u32] = to.close();
    assert_eq!(rt; source, [1, 2, 3].as_slice());
    assert_eq!(rt; target, [1, 2].as_slice());
    Ok(())
}

#[test]
fn copying_into_a_larger_memory_leaves_its_last_words(rt: HostRuntime) -> Result<(), Fail> {
    let mut words = [0x0403_0201, 0x0807_0605];
    let mut row = [9; 14];
    WordMemory::check(&words)?;
    ByteMemory::check(&row)?;
    let mut from = WordMemory::open(&mut words);
    let mut to = ByteMemory::open(&mut row);
    assert_eq!(rt; copy_words(&mut from, &mut to), Ok(2));
    let source: &[u32] = from.close();
    let target: &[u8] = to.close();
    assert_eq!(rt; source, [0x0403_0201, 0x0807_0605].as_slice());
    assert_eq!(rt;
        target,
        [1, 2, 3, 4, 5, 6, 7, 8, 9, 9, 9, 9, 9, 9].as_slice()
    );
    Ok(())
}

#[test]
fn differences_are_counted_at_the_addresses_that_both_have(rt: HostRuntime) -> Result<(), Fail> {
    let mut words = [1, 2, 3, 4];
    let mut others = [1, 0, 3, 5, 9];
    WordMemory::check(&words)?;
    WordMemory::check(&others)?;
    let mut left = WordMemory::open(&mut words);
    let mut right = SecondLevel::open(WordMemory::open(&mut others));
    let differ = count_differences(&mut left, &mut right);
    let itself = count_differences(&mut left, &mut WordMemory::open(&mut [1, 2, 3, 4]));
    let back: &[u32] = right.close().close();
    assert_eq!(rt; differ, Ok(2));
    assert_eq!(rt; itself, Ok(0));
    assert_eq!(rt; back, [1, 0, 3, 5, 9].as_slice());
    Ok(())
}

// Python: hex(zlib.adler32(b"Wiki")), and of b"Wikipedi", which leaves the last byte of b"Wikipedia" out.
#[test]
fn the_checksum_is_adler32_of_the_words_alone(rt: HostRuntime) -> Result<(), Fail> {
    let mut words = [0x696b_6957];
    let mut row = *b"Wikipedia";
    WordMemory::check(&words)?;
    ByteMemory::check(&row)?;
    assert_eq!(rt;
        checksum(&mut WordMemory::open(&mut words)),
        Ok(0x03da_0195)
    );
    assert_eq!(rt; checksum(&mut ByteMemory::open(&mut row)), Ok(0x0e4e_0337));
    Ok(())
}

// Python: hex(zlib.adler32(b"\xff" * 16384)). Both halves pass 65,521 many times.
#[test]
fn the_checksum_of_4096_words_of_ones(rt: HostRuntime) -> Result<(), Fail> {
    let mut ones = vec![in rt.alloc(); u32::MAX; 4096]?;
    WordMemory::check(ones.as_slice())?;
    let mut memory = WordMemory::open(ones.as_mut_slice());
    assert_eq!(rt; checksum(&mut memory), Ok(0xb0d9_c3b2));
    Ok(())
}
