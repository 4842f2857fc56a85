// Texts that are refused: the number and the place of the fault, and how many turns were read before it.
use player::{RowList, read_turns};
use std::process::Abort;
use std::test::*;
use stores::Turn;

// Reads the text into a list that takes three turns. The fault is given by its number, as users know it.
fn refused(
    rt: &impl Abort,
    text: &str,
    number: u8,
    place: usize,
    turns: usize,
) -> Result<(), Fail> {
    refused_bytes(rt, text.as_bytes(), number, place, turns)
}

fn refused_bytes(
    rt: &impl Abort,
    text: &[u8],
    number: u8,
    place: usize,
    turns: usize,
) -> Result<(), Fail> {
    let mut row = [Turn::Start { p: 0 }; 3];
    let mut list = RowList::new(&mut row);
    let Err(fault) = read_turns(text, &mut list) else {
        return Err(Fail::new("the text was accepted"));
    };
    assert_eq!(rt; fault.why.number(), number, "{:?}", text);
    assert_eq!(rt; fault.place, place, "{:?}", text);
    assert_eq!(rt; list.len(), turns, "{:?}", text);
    Ok(())
}

#[test]
fn a_line_begins_with_a_verb(rt: HostRuntime) -> Result<(), Fail> {
    refused(&rt, "\n", 13, 0, 0)?;
    refused(&rt, " start 0\n", 13, 0, 0)?;
    refused(&rt, "start 1\n\n", 13, 8, 1)?;
    refused(&rt, "Start 0\n", 13, 0, 0)?;
    refused(&rt, "start\t0\n", 13, 0, 0)?;
    refused(&rt, "tasks\n", 13, 0, 0)?;
    refused(&rt, "comm", 13, 0, 0)?;
    refused(&rt, "word 5\n", 13, 0, 0)?;
    refused(&rt, "squash 1\nclose 4294967296", 13, 9, 1)
}

#[test]
fn a_field_is_plain_decimal(rt: HostRuntime) -> Result<(), Fail> {
    refused(&rt, "start\n", 14, 0, 0)?;
    refused(&rt, "start \n", 14, 0, 0)?;
    refused(&rt, "start  1\n", 14, 0, 0)?;
    refused(&rt, "start 00\n", 14, 0, 0)?;
    refused(&rt, "start +1\n", 14, 0, 0)?;
    refused(&rt, "start 1\r\n", 14, 0, 0)?;
    refused(&rt, "load 1\n", 14, 0, 0)?;
    refused(&rt, "start 99999999999x\n", 14, 0, 0)?;
    refused(&rt, "start 04294967296\n", 14, 0, 0)?;
    refused(&rt, "squash\n", 14, 0, 0)?;
    refused(&rt, "load\n", 14, 0, 0)?;
    refused(&rt, "commit\n", 14, 0, 0)?;
    refused(&rt, "replace 1\n", 14, 0, 0)?;
    refused(&rt, "load x 1\n", 14, 0, 0)?;
    refused(&rt, "squash x\n", 14, 0, 0)?;
    refused(&rt, "commit 01\n", 14, 0, 0)?;
    refused(&rt, "replace - 1\n", 14, 0, 0)?;
    refused(&rt, "load 1 05\n", 14, 0, 0)?;
    refused(&rt, "store 1 2\n", 14, 0, 0)?;
    refused(&rt, "store 0 5 x\n", 14, 0, 0)?;
    refused(&rt, "store 0 x 4294967296\n", 14, 0, 0)?;
    refused(&rt, "start 0\nload 1\n", 14, 8, 1)
}

#[test]
fn bytes_that_are_no_text_are_refused_like_others(rt: HostRuntime) -> Result<(), Fail> {
    refused_bytes(&rt, b"start 0\n\xff\xfe\0\n", 13, 8, 1)?;
    refused_bytes(&rt, b"start \xc3\x28\n", 14, 0, 0)
}

#[test]
fn a_field_has_32_bits(rt: HostRuntime) -> Result<(), Fail> {
    refused(&rt, "start 4294967296\n", 15, 0, 0)?;
    refused(&rt, "store 4294967296 x 1\n", 15, 0, 0)?;
    refused(&rt, "load 4294967296\n", 15, 0, 0)?;
    refused(&rt, "squash 4294967296\n", 15, 0, 0)?;
    refused(&rt, "commit 4294967296\n", 15, 0, 0)?;
    refused(&rt, "store x 4294967296 1\n", 14, 0, 0)?;
    refused(&rt, "start 99999999999999999999999999999999\n", 15, 0, 0)?;
    refused(&rt, "load 0 1\nload 1 18446744073709551616", 15, 9, 1)?;
    refused(&rt, "store 0 5 4294967296\n", 15, 0, 0)?;
    refused(&rt, "store 0 4294967296 x\n", 15, 0, 0)?;
    refused(&rt, "replace 0 4294967296\n", 15, 0, 0)
}

#[test]
fn a_line_ends_after_its_last_field(rt: HostRuntime) -> Result<(), Fail> {
    refused(&rt, "start 1", 14, 0, 0)?;
    refused(&rt, "start 1 \n", 14, 0, 0)?;
    refused(&rt, "start 1 2\n", 14, 0, 0)?;
    refused(&rt, "load 1 2 3\n", 14, 0, 0)?;
    refused(&rt, "store 1 2 3 4\n", 14, 0, 0)?;
    refused(&rt, "squash 1 2\n", 14, 0, 0)?;
    refused(&rt, "replace 1 2 3\n", 14, 0, 0)?;
    refused(&rt, "start 1 4294967296\n", 14, 0, 0)?;
    refused(&rt, "commit 1\nreplace 1 2", 14, 9, 1)
}

#[test]
fn a_list_takes_as_many_turns_as_it_has_places(rt: HostRuntime) -> Result<(), Fail> {
    refused(&rt, "start 0\nstart 1\nstart 2\nstart 3\n", 16, 24, 3)?;
    refused(&rt, "start 0\nstart 1\nstart 2\nstart 3", 14, 24, 3)
}

#[test]
fn a_list_without_a_place_takes_no_turn(rt: HostRuntime) -> Result<(), Fail> {
    let mut row = [Turn::Start { p: 0 }; 0];
    let mut list = RowList::new(&mut row);
    let Err(fault) = read_turns("start 0\n".as_bytes(), &mut list) else {
        return Err(Fail::new("the text was accepted"));
    };
    assert_eq!(rt; (fault.why.number(), fault.place, list.len()), (16, 0, 0));
    Ok(())
}

#[test]
fn turns_that_a_list_has_leave_fewer_places(rt: HostRuntime) -> Result<(), Fail> {
    let mut row = [Turn::Start { p: 0 }; 2];
    let mut list = RowList::new(&mut row);
    read_turns("start 3\n".as_bytes(), &mut list)?;
    let Err(fault) = read_turns("start 1\nstart 2\n".as_bytes(), &mut list) else {
        return Err(Fail::new("the text was accepted"));
    };
    assert_eq!(rt; (fault.why.number(), fault.place, list.len()), (16, 8, 2));
    assert_eq!(rt; list.get(1), Some(Turn::Start { p: 1 }));
    Ok(())
}
