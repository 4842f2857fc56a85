// Addresses that a memory does not have: a read and a write are refused, and no byte of the row changes.
ghost use Rattle.std.specs.Prelude.{ℕ, List};

use memory::{ByteMemory, Memory, MemoryError, SecondLevel, WordMemory};
use std::process::Abort;
use std::test::Fail;

// Both calls at one address are refused.
fn refused_at<M: Memory>(rt: &impl Abort, memory: &mut M, a: u32)
    requires { M.Memory.sound memory.old }
    ensures { M.Memory.sound memory.new }
{
    assert_eq!(rt; memory.read(a), Err(MemoryError::Address));
    assert_eq!(rt; memory.write(a, 99), Err(MemoryError::Address));
}

// A memory of three words refuses the addresses 3, 4 and the last of all.
fn refuses_past_three<M: Memory>(rt: &impl Abort, memory: &mut M)
    requires { M.Memory.sound memory.old }
    ensures { M.Memory.sound memory.new }
{
    assert_eq!(rt; memory.size(), 3);
    refused_at(rt, memory, 3);
    refused_at(rt, memory, 4);
    refused_at(rt, memory, u32::MAX);
}

#[test]
fn word_memory_refuses(rt: HostRuntime) -> Result<(), Fail> {
    let mut row = [10, 20, 30];
    WordMemory::check(&row)?;
    let mut memory = WordMemory::open(&mut row);
    refuses_past_three(&rt, &mut memory);
    let back: &[u32] = memory.close();
    assert_eq!(rt; back, [10, 20, 30].as_slice());
    Ok(())
}

#[test]
fn byte_memory_refuses(rt: HostRuntime) -> Result<(), Fail> {
    let mut row = [1, 2, 3, 4, 5, 6, 7, 8, 9, 10, 11, 12, 13];
    ByteMemory::check(&row)?;
    let mut memory = ByteMemory::open(&mut row);
    refuses_past_three(&rt, &mut memory);
    let back: &[u8] = memory.close();
    assert_eq!(rt;
        back,
        [1, 2, 3, 4, 5, 6, 7, 8, 9, 10, 11, 12, 13].as_slice()
    );
    Ok(())
}

#[test]
fn cache_over_words_refuses(rt: HostRuntime) -> Result<(), Fail> {
    let mut row = [10, 20, 30];
    WordMemory::check(&row)?;
    let mut cache = SecondLevel::open(WordMemory::open(&mut row));
    refuses_past_three(&rt, &mut cache);
    let back: &[u32] = cache.close().close();
    assert_eq!(rt; back, [10, 20, 30].as_slice());
    Ok(())
}

#[test]
fn cache_over_bytes_refuses(rt: HostRuntime) -> Result<(), Fail> {
    let mut row = [1, 2, 3, 4, 5, 6, 7, 8, 9, 10, 11, 12, 13];
    ByteMemory::check(&row)?;
    let mut cache = SecondLevel::open(ByteMemory::open(&mut row));
    refuses_past_three(&rt, &mut cache);
    let back: &[u8] = cache.close().close();
    assert_eq!(rt;
        back,
        [1, 2, 3, 4, 5, 6, 7, 8, 9, 10, 11, 12, 13].as_slice()
    );
    Ok(())
}
