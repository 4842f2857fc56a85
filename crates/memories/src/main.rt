// Carries a memory dump through every kind of memory and reports: from byte memory through a second-level cache into
// word memory, from there through two caches into another byte memory, and all of it taken apart again and compared.
#![tactic(auto)]

ghost use Rattle.std.specs.Prelude.{◌≡◌};
ghost use Rattle.memory.specs.Bytes.{spare_bytes};

mod report;
mod rows;
mod transfer;

use memory::{
    ByteMemory, MOST_WORDS, MemoryError, SecondLevel, WordMemory, checksum, count_differences,
};
use report::{Hex, Outcome, Outside};
use rows::{Memories, Rows};
use std::fs;
use transfer::{copy_from_cache, copy_into_caches, try_outside};

fn main(rt: HostRuntime) -> anyhow::Result<()> {
    run(&rt)
}

fn run(rt: &HostRuntime) -> anyhow::Result<()> {
    let dump = fs::read(rt, "dump.bin")?;
    let size = dump.len();
    let n = size / 4;
    let words = vec![in rt.alloc(); 0u32; n]?;
    let bytes = vec![in rt.alloc(); 0xeeu8; size]?;
    let mut rows = Rows { dump, words, bytes };
    println!(rt;
        "dump: {size} bytes, {n} words, left over: {}",
        left_over(rows.dump.as_slice())
    )?;
    carry(rt, &mut rows)?;
    println!(rt;
        "left over in byte memory: {}",
        left_over(rows.bytes.as_slice())
    )?;
    make_bad_calls(rt, &mut rows)?;
    make_bad_openings(rt)
}

// The bytes at a row's end that belong to no word.
fn left_over(row: &[u8]) -> Hex<'_>
    ensures { result.0.now ≡ spare_bytes row.now }
{
    let (_, left) = row.as_chunks::<4>();
    Hex(left)
}

// Moves the dump into the words and from there into the bytes, and compares all three.
fn carry(rt: &HostRuntime, rows: &mut Rows) -> anyhow::Result<()> {
    let Memories {
        dump,
        mut words,
        bytes,
    } = rows.open()?;
    let (mut dump, moved) = copy_from_cache(dump, &mut words);
    let (mut bytes, restored) = copy_into_caches(&mut words, bytes);
    println!(rt;
        "moved into word memory through one cache: {} words",
        moved?
    )?;
    println!(rt;
        "moved into byte memory through two caches: {} words",
        restored?
    )?;
    println!(rt;
        "differences between dump and word memory: {}",
        count_differences(&mut dump, &mut words)?
    )?;
    println!(rt;
        "differences between dump and byte memory: {}",
        count_differences(&mut dump, &mut bytes)?
    )?;
    println!(rt; "checksum of the dump: {:08x}", checksum(&mut dump)?)?;
    println!(rt; "checksum of word memory: {:08x}", checksum(&mut words)?)?;
    println!(rt; "checksum of byte memory: {:08x}", checksum(&mut bytes)?)?;
    Ok(())
}

// Asks each kind of memory for words that it does not have.
fn make_bad_calls(rt: &HostRuntime, rows: &mut Rows) -> anyhow::Result<()> {
    let Memories {
        mut dump,
        mut words,
        bytes,
    } = rows.open()?;
    print_outside(rt, "word memory", try_outside(&mut words))?;
    print_outside(rt, "byte memory", try_outside(&mut dump))?;
    let mut cache = SecondLevel::open(bytes);
    let outside = try_outside(&mut cache);
    let _ = cache.close();
    print_outside(rt, "second-level cache", outside)
}

fn print_outside(rt: &HostRuntime, kind: &str, [first, last]: [Outside; 2]) -> anyhow::Result<()> {
    println!(rt; "{kind}: {first}")?;
    println!(rt; "{kind}: {last}")?;
    Ok(())
}

// Asks for memories of no word and of too many.
fn make_bad_openings(rt: &HostRuntime) -> anyhow::Result<()> {
    let bytes = vec![in rt.alloc(); 0u8; 4 * (MOST_WORDS + 1)]?;
    let words = vec![in rt.alloc(); 0u32; MOST_WORDS + 1]?;
    for row in [&[], [0; 3].as_slice(), bytes.as_slice()] {
        print_opening(rt, "bytes", row.len(), ByteMemory::check(row))?;
    }
    for row in [&[], words.as_slice()] {
        print_opening(rt, "words", row.len(), WordMemory::check(row))?;
    }
    Ok(())
}

fn print_opening(
    rt: &HostRuntime,
    unit: &str,
    size: usize,
    answer: Result<(), MemoryError>,
) -> anyhow::Result<()> {
    let outcome = Outcome(answer);
    println!(rt; "opening {size} {unit}: {outcome}")?;
    Ok(())
}
