// Images that are loaded and images that are refused, over eight words but for the last.
ghost use Rattle.std.specs.Prelude.{◌≤◌};

use memory::WordMemory;
use player::{ImageFault, ImageWhy, load_image};
use std::alloc::Global;
use std::process::Abort;
use std::test::*;

const BEFORE: [u32; 8] = [10, 11, 12, 13, 14, 15, 16, 17];

// Loads an image whose numbers are given, with some bytes cut off its end.
fn load_numbers(
    rt: &(impl Abort + AllocGlobal),
    row: &mut [u32],
    numbers: &[u32],
    cut: usize,
) -> Result<Result<(), ImageFault>, Fail> {
    let mut image = Vec::new(rt.alloc());
    for number in numbers {
        image.extend_from_slice(&number.to_le_bytes())?;
    }
    assert!(rt; cut <= image.len());
    assert!(rt; WordMemory::check(row).is_ok());
    let mut memory = WordMemory::open(row);
    Ok(load_image(&mut memory, &image[..image.len() - cut]))
}

fn accepts(rt: &(impl Abort + AllocGlobal), numbers: &[u32], after: [u32; 8]) -> Result<(), Fail> {
    let mut row = BEFORE;
    assert_eq!(rt; load_numbers(rt, &mut row, numbers, 0)?, Ok(()));
    assert_eq!(rt; row, after);
    Ok(())
}

fn refuses(
    rt: &(impl Abort + AllocGlobal),
    numbers: &[u32],
    cut: usize,
    why: ImageWhy,
    place: usize,
) -> Result<(), Fail> {
    let mut row = BEFORE;
    let fault = ImageFault { why, place };
    assert_eq!(rt; load_numbers(rt, &mut row, numbers, cut)?, Err(fault));
    assert_eq!(rt; row, BEFORE);
    Ok(())
}

#[test]
fn words_go_where_the_pairs_say_and_others_stay(rt: HostRuntime) -> Result<(), Fail> {
    accepts(&rt, &[0], BEFORE)?;
    accepts(&rt, &[1, 0, 1, 70], [70, 11, 12, 13, 14, 15, 16, 17])?;
    accepts(
        &rt,
        &[2, 1, 2, 5, 3, 70, 71, 72, 73, 74],
        [10, 70, 71, 13, 14, 72, 73, 74],
    )?;
    accepts(
        &rt,
        &[2, 1, 2, 3, 1, 70, 71, 4294967295],
        [10, 70, 71, 4294967295, 14, 15, 16, 17],
    )
}

#[test]
fn the_length_must_be_as_counted(rt: HostRuntime) -> Result<(), Fail> {
    refuses(&rt, &[], 0, ImageWhy::Length, 0)?;
    refuses(&rt, &[0], 1, ImageWhy::Length, 3)?;
    refuses(&rt, &[1, 0, 1], 1, ImageWhy::Length, 11)?;
    refuses(&rt, &[1, 0, 1], 0, ImageWhy::Length, 12)?;
    // Its one whole pair has no word, but the pairs are cut off.
    refuses(&rt, &[2, 0, 0], 0, ImageWhy::Length, 12)?;
    refuses(&rt, &[1, 0, 1, 70], 1, ImageWhy::Length, 15)?;
    refuses(&rt, &[1, 0, 1, 70, 71], 3, ImageWhy::Length, 17)?;
    refuses(&rt, &[0, 0], 0, ImageWhy::Length, 8)
}

#[test]
fn at_most_64_pairs(rt: HostRuntime) -> Result<(), Fail> {
    refuses(&rt, &[65], 0, ImageWhy::PairCount, 0)?;
    refuses(&rt, &[4294967295], 0, ImageWhy::PairCount, 0)?;
    refuses(&rt, &[64], 0, ImageWhy::Length, 4)
}

#[test]
fn pairs_have_words_and_are_sorted(rt: HostRuntime) -> Result<(), Fail> {
    refuses(&rt, &[1, 0, 0], 0, ImageWhy::PairOrder, 4)?;
    refuses(&rt, &[1, 9, 0], 0, ImageWhy::PairOrder, 4)?;
    refuses(&rt, &[2, 1, 2, 2, 1], 0, ImageWhy::PairOrder, 12)?;
    refuses(&rt, &[2, 4, 1, 2, 1, 70, 71], 0, ImageWhy::PairOrder, 12)?;
    refuses(&rt, &[2, 0, 1, 3, 0], 0, ImageWhy::PairOrder, 12)?;
    // The second pair also ends outside.
    refuses(&rt, &[2, 0, 4, 3, 9], 0, ImageWhy::PairOrder, 12)?;
    refuses(&rt, &[1, 4294967295, 0], 0, ImageWhy::PairOrder, 4)
}

#[test]
fn pairs_end_inside_the_memory(rt: HostRuntime) -> Result<(), Fail> {
    refuses(&rt, &[1, 8, 1, 70], 0, ImageWhy::PairOutside, 4)?;
    refuses(&rt, &[1, 7, 2], 0, ImageWhy::PairOutside, 4)?;
    refuses(&rt, &[1, 4294967295, 1], 0, ImageWhy::PairOutside, 4)?;
    refuses(
        &rt,
        &[1, 4294967295, 4294967295],
        0,
        ImageWhy::PairOutside,
        4,
    )?;
    refuses(&rt, &[2, 0, 9, 0, 0], 0, ImageWhy::PairOutside, 4)?;
    refuses(&rt, &[2, 0, 1, 8, 1], 0, ImageWhy::PairOutside, 12)
}

// The numbers of an image of so many pairs of one word each, at every second address from 0 on: 100, 101 and so on.
fn one_word_pairs(heap: Global, pairs: u32) -> Result<Vec<u32>, Fail>
    requires { pairs ≤ 65 }
{
    let mut numbers = Vec::new(heap);
    numbers.push(pairs)?;
    for i in 0..pairs {
        numbers.push(2 * i)?;
        numbers.push(1)?;
    }
    for i in 0..pairs {
        numbers.push(100 + i)?;
    }
    Ok(numbers)
}

#[test]
fn sixty_four_pairs_are_loaded_and_one_more_is_refused(rt: HostRuntime) -> Result<(), Fail> {
    let mut row = [7; 130];
    let numbers = one_word_pairs(rt.alloc(), 65)?;
    let fault = ImageFault {
        why: ImageWhy::PairCount,
        place: 0,
    };
    assert_eq!(rt;
        load_numbers(&rt, &mut row, numbers.as_slice(), 0)?,
        Err(fault)
    );
    assert_eq!(rt; row, [7; 130]);
    let numbers = one_word_pairs(rt.alloc(), 64)?;
    assert_eq!(rt; load_numbers(&rt, &mut row, numbers.as_slice(), 0)?, Ok(()));
    assert_eq!(rt;
        [row[0], row[1], row[2], row[126], row[127]],
        [100, 7, 101, 163, 7]
    );
    Ok(())
}

// The numbers of an image of 64 pairs: one word each at every second address from 0 on, and the last pair.
fn pairs_before(heap: Global, offset: u32, len: u32) -> Result<Vec<u32>, Fail> {
    let mut numbers = Vec::new(heap);
    numbers.push(64)?;
    for i in 0..63 {
        numbers.push(2 * i)?;
        numbers.push(1)?;
    }
    numbers.push(offset)?;
    numbers.push(len)?;
    Ok(numbers)
}

// The last of 64 pairs begins at byte 4 + 8 * 63.
#[test]
fn the_last_of_64_pairs_is_checked_like_the_first(rt: HostRuntime) -> Result<(), Fail> {
    let mut row = [7; 130];
    let numbers = pairs_before(rt.alloc(), 126, 0)?;
    let fault = ImageFault {
        why: ImageWhy::PairOrder,
        place: 508,
    };
    let told = load_numbers(&rt, &mut row, numbers.as_slice(), 0)?;
    assert_eq!(rt; told, Err(fault));
    let numbers = pairs_before(rt.alloc(), 130, 1)?;
    let fault = ImageFault {
        why: ImageWhy::PairOutside,
        place: 508,
    };
    let told = load_numbers(&rt, &mut row, numbers.as_slice(), 0)?;
    assert_eq!(rt; told, Err(fault));
    assert_eq!(rt; row, [7; 130]);
    Ok(())
}
