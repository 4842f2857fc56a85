// What no contract says of files and folders, and two runs over sources whose bytes are known.
use crate::{fill, first_bytes, read_start, take_most};
use std::test::Fail;

#[test]
fn a_missing_file_is_empty(rt: HostRuntime) -> Result<(), Fail> {
    let mut row = [7u8; 4];
    assert_eq!(rt; read_start(&rt, "there-is-no-such-file", &mut row)?, 0);
    assert_eq!(rt; row, [7, 7, 7, 7]);
    Ok(())
}

#[test]
fn a_missing_file_has_no_first_bytes(rt: HostRuntime) -> Result<(), Fail> {
    let bytes = first_bytes(&rt, "there-is-no-such-file", 4)?;
    assert_eq!(rt; bytes.len(), 0);
    Ok(())
}

// This file never ends, and all its bytes are 0.
#[test]
fn as_many_bytes_of_a_file_are_read_as_asked_for(rt: HostRuntime) -> Result<(), Fail> {
    let mut row = [7u8; 3];
    assert_eq!(rt; read_start(&rt, "/dev/zero", &mut row)?, 3);
    assert_eq!(rt; row, [0, 0, 0]);
    let bytes = first_bytes(&rt, "/dev/zero", 3)?;
    assert_eq!(rt; bytes.as_slice(), [0, 0, 0].as_slice());
    Ok(())
}

#[test]
fn a_source_is_read_until_it_ends_or_the_buffer_is_full(rt: HostRuntime) -> Result<(), Fail> {
    let mut source: &[u8] = &[1, 2, 3, 4, 5];
    let mut row = [7u8; 3];
    assert_eq!(rt; fill(&mut source, &mut row)?, 3);
    assert_eq!(rt; row, [1, 2, 3]);
    assert_eq!(rt; fill(&mut source, &mut row)?, 2);
    assert_eq!(rt; row, [4, 5, 3]);
    assert_eq!(rt; fill(&mut source, &mut row)?, 0);
    Ok(())
}

#[test]
fn no_more_bytes_are_taken_than_asked_for(rt: HostRuntime) -> Result<(), Fail> {
    let bytes = vec![in rt.alloc(); 7u8; 32769]?;
    let mut source = bytes.as_slice();
    let taken = take_most(rt.alloc(), &mut source, 32768)?;
    assert_eq!(rt; taken.len(), 32768);
    assert_eq!(rt; source, [7].as_slice());
    Ok(())
}

// A folder can be opened but not read, and a name of 300 bytes can't be opened: neither is taken for a missing file.
#[test]
fn another_error_is_no_missing_file(rt: HostRuntime) -> Result<(), Fail> {
    assert!(rt; first_bytes(&rt, ".", 4).is_err());
    assert!(rt; read_start(&rt, ".", &mut [7; 4]).is_err());
    let mut name = String::new(rt.alloc());
    for _ in 0..300 {
        name.push('a')?;
    }
    assert!(rt; first_bytes(&rt, name.as_str(), 4).is_err());
    assert!(rt; read_start(&rt, name.as_str(), &mut [7; 4]).is_err());
    Ok(())
}
