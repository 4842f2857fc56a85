// Rows that can be opened and rows that cannot, at the limits of 1 and 4,096 words.
use memory::{ByteMemory, Memory, MemoryError, WordMemory};
use std::test::Fail;

#[test]
fn byte_rows_of_no_word_or_too_many_are_refused(rt: HostRuntime) -> Result<(), Fail> {
    let bytes = vec![in rt.alloc(); 0u8; 16388]?;
    for size in [0, 1, 3, 16388] {
        assert!(rt; size <= bytes.len());
        let answer = ByteMemory::check(&bytes.as_slice()[0..size]);
        assert_eq!(rt; answer, Err(MemoryError::Size), "{}", size);
    }
    Ok(())
}

#[test]
fn byte_rows_of_one_to_4096_words_are_accepted(rt: HostRuntime) -> Result<(), Fail> {
    let bytes = vec![in rt.alloc(); 0u8; 16388]?;
    for size in [4, 5, 16383, 16384, 16385, 16386, 16387] {
        assert!(rt; size <= bytes.len());
        let answer = ByteMemory::check(&bytes.as_slice()[0..size]);
        assert_eq!(rt; answer, Ok(()), "{}", size);
    }
    Ok(())
}

#[test]
fn a_byte_memory_has_a_word_for_every_four_bytes(rt: HostRuntime) -> Result<(), Fail> {
    for (size, words) in [(4, 1), (5, 1), (16383, 4095), (16387, 4096)] {
        let mut bytes = vec![in rt.alloc(); 0u8; size]?;
        let row = bytes.as_mut_slice();
        ByteMemory::check(row)?;
        assert_eq!(rt; ByteMemory::open(row).size(), words, "{}", size);
    }
    Ok(())
}

#[test]
fn word_rows_are_accepted_from_1_to_4096_words(rt: HostRuntime) -> Result<(), Fail> {
    let words = vec![in rt.alloc(); 0u32; 4097]?;
    for (size, answer) in [
        (0, Err(MemoryError::Size)),
        (1, Ok(())),
        (4096, Ok(())),
        (4097, Err(MemoryError::Size)),
    ] {
        assert!(rt; size <= words.len());
        assert_eq!(rt;
            WordMemory::check(&words.as_slice()[0..size]),
            answer,
            "{}",
            size
        );
    }
    Ok(())
}
