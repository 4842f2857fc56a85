// Texts that are read whole, and written again.
use player::{MOST_BYTES, RowList, read_turns, write_turn, write_turns};
use std::alloc::Global;
use std::test::*;
use stores::Turn;

#[test]
fn no_text_is_no_turn(rt: HostRuntime) -> Result<(), Fail> {
    let mut row = [Turn::Start { p: 0 }; 3];
    let mut list = RowList::new(&mut row);
    read_turns("".as_bytes(), &mut list)?;
    assert_eq!(rt; list.len(), 0);
    Ok(())
}

#[test]
fn each_line_is_a_turn(rt: HostRuntime) -> Result<(), Fail> {
    let mut row = [Turn::Start { p: 0 }; 3];
    let mut list = RowList::new(&mut row);
    read_turns("start 2\nload 2 5\n".as_bytes(), &mut list)?;
    assert_eq!(rt; list.len(), 2);
    read_turns("start 0\n".as_bytes(), &mut list)?;
    assert_eq!(rt; list.len(), 3);
    Ok(())
}

// As many lines of eight bytes each.
fn lines(heap: Global, count: u32) -> Result<String, Fail> {
    let mut text = String::new(heap);
    for _ in 0..count {
        text.push_str("start 9\n")?;
    }
    Ok(text)
}

#[test]
fn a_list_of_2048_places_takes_2048_lines(rt: HostRuntime) -> Result<(), Fail> {
    let mut row = vec![in rt.alloc(); Turn::Start { p: 0 }; 2048]?;
    let mut list = RowList::new(row.as_mut_slice());
    let text = lines(rt.alloc(), 2048)?;
    read_turns(text.as_bytes(), &mut list)?;
    assert_eq!(rt; list.len(), 2048);
    let mut row = vec![in rt.alloc(); Turn::Start { p: 0 }; 2048]?;
    let mut list = RowList::new(row.as_mut_slice());
    let text = lines(rt.alloc(), 2049)?;
    let Err(fault) = read_turns(text.as_bytes(), &mut list) else {
        return Err(Fail::new("the text was accepted"));
    };
    assert_eq!(rt; fault.why.number(), 16);
    assert_eq!(rt; fault.place, 16384);
    assert_eq!(rt; list.len(), 2048);
    Ok(())
}

#[test]
fn every_turn_is_read_and_written(rt: HostRuntime) -> Result<(), Fail> {
    let text = "start 3\nload 0 5\nstore 1 4294967295 70\nsquash 10\ncommit 4\nreplace 2 65536\n";
    let mut row = [Turn::Start { p: 0 }; 6];
    let mut list = RowList::new(&mut row);
    read_turns(text.as_bytes(), &mut list)?;
    assert_eq!(rt; list.len(), 6);
    let again = write_turns(rt.alloc(), list.items())?;
    assert_eq!(rt; again.as_str(), text);
    Ok(())
}

#[test]
fn the_fields_are_in_their_places(rt: HostRuntime) -> Result<(), Fail> {
    let mut row = [Turn::Start { p: 0 }; 1];
    let mut list = RowList::new(&mut row);
    read_turns("store 1 22 333\n".as_bytes(), &mut list)?;
    let store = Turn::Store {
        p: 1,
        a: 22,
        w: 333,
    };
    assert_eq!(rt; list.get(0), Some(store));
    let line = write_turn(rt.alloc(), store)?;
    assert_eq!(rt; line.as_str(), "store 1 22 333\n");
    Ok(())
}

#[test]
fn a_list_that_has_turns_keeps_them(rt: HostRuntime) -> Result<(), Fail> {
    let mut row = [Turn::Start { p: 0 }; 3];
    let mut list = RowList::new(&mut row);
    read_turns("start 1\n".as_bytes(), &mut list)?;
    read_turns("start 2\n".as_bytes(), &mut list)?;
    assert_eq!(rt; list.len(), 2);
    assert_eq!(rt; list.get(0), Some(Turn::Start { p: 1 }));
    Ok(())
}

// So many times a line.
fn repeated(heap: Global, line: &str, count: u32) -> Result<String, Fail> {
    let mut text = String::new(heap);
    for _ in 0..count {
        text.push_str(line)?;
    }
    Ok(text)
}

// 1,365 lines of 24 bytes end at byte 32,760, and the next line has eight bytes left: `store 3 `.
#[test]
fn a_text_cut_in_a_line_is_at_fault_there(rt: HostRuntime) -> Result<(), Fail> {
    let text = repeated(rt.alloc(), "store 3 4095 4294967295\n", 1366)?;
    let Some(start) = text.as_bytes().get(..MOST_BYTES) else {
        return Err(Fail::new("the text is too short"));
    };
    let mut row = vec![in rt.alloc(); Turn::Start { p: 0 }; 2048]?;
    let mut list = RowList::new(row.as_mut_slice());
    let Err(fault) = read_turns(start, &mut list) else {
        return Err(Fail::new("the text was accepted"));
    };
    assert_eq!(rt;
        (fault.why.number(), fault.place, list.len()),
        (14, 32760, 1365)
    );
    Ok(())
}

// 2,048 lines of 16 bytes are 32,768 bytes: the text is cut right after a line, and the list is just full.
#[test]
fn a_text_cut_after_a_line_is_whole(rt: HostRuntime) -> Result<(), Fail> {
    let text = repeated(rt.alloc(), "load 3 10000000\n", 2049)?;
    let Some(start) = text.as_bytes().get(..MOST_BYTES) else {
        return Err(Fail::new("the text is too short"));
    };
    let mut row = vec![in rt.alloc(); Turn::Start { p: 0 }; 2048]?;
    let mut list = RowList::new(row.as_mut_slice());
    read_turns(start, &mut list)?;
    assert_eq!(rt; list.len(), 2048);
    Ok(())
}

#[test]
fn no_turn_is_no_text(rt: HostRuntime) -> Result<(), Fail> {
    let text = write_turns(rt.alloc(), &[])?;
    assert_eq!(rt; text.as_str(), "");
    Ok(())
}

#[test]
fn a_zero_may_stand_inside_and_at_the_end_of_a_field(rt: HostRuntime) -> Result<(), Fail> {
    let mut row = [Turn::Start { p: 0 }; 1];
    let mut list = RowList::new(&mut row);
    read_turns("load 0 1001\n".as_bytes(), &mut list)?;
    assert_eq!(rt; list.get(0), Some(Turn::Load { p: 0, a: 1001 }));
    Ok(())
}
