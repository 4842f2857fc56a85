// Lists over lent rows: of turns, of answers, of bytes.
use player::{ListFault, RowList};
use std::test::*;
use stores::{Answer, Refusal, Turn};

#[test]
fn a_list_adds_at_the_end_until_its_row_is_full(rt: HostRuntime) -> Result<(), Fail> {
    let mut row = [9u8; 2];
    let mut list = RowList::new(&mut row);
    assert!(rt; list.is_empty());
    assert_eq!(rt; list.get(0), None);
    assert_eq!(rt; list.push(1), Ok(()));
    assert!(rt; !list.is_empty());
    assert_eq!(rt; list.push(2), Ok(()));
    assert_eq!(rt; list.push(3), Err(ListFault::Full));
    assert_eq!(rt; list.len(), 2);
    assert_eq!(rt; list.get(0), Some(1));
    assert_eq!(rt; list.get(1), Some(2));
    assert_eq!(rt; list.get(2), None);
    Ok(())
}

#[test]
fn the_row_comes_back_with_the_elements_first(rt: HostRuntime) -> Result<(), Fail> {
    let mut row = [9u8; 4];
    let mut list = RowList::new(&mut row);
    assert_eq!(rt; list.push(1), Ok(()));
    assert_eq!(rt; list.push(2), Ok(()));
    let _ = list.close();
    assert_eq!(rt; row, [1, 2, 9, 9]);
    Ok(())
}

#[test]
fn a_list_holds_65535_elements_at_most(rt: HostRuntime) -> Result<(), Fail> {
    let mut row = vec![in rt.alloc(); 0u8; 65536]?;
    let mut list = RowList::new(row.as_mut_slice());
    // So many pushes: nothing is indexed.
    for _ in 0..65535 {
        assert!(rt; list.push(7).is_ok());
    }
    assert!(rt; list.is_full());
    assert_eq!(rt; list.push(7), Err(ListFault::Full));
    assert_eq!(rt; list.len(), 65535);
    Ok(())
}

#[test]
fn turns_and_answers_are_held_alike(rt: HostRuntime) -> Result<(), Fail> {
    let mut turn_row = [Turn::Start { p: 0 }; 2];
    let mut turns = RowList::new(&mut turn_row);
    assert_eq!(rt; turns.push(Turn::Load { p: 3, a: 5 }), Ok(()));
    assert_eq!(rt; turns.get(0), Some(Turn::Load { p: 3, a: 5 }));
    let mut answer_row: [Answer; 2] = [Ok(0); 2];
    let mut answers = RowList::new(&mut answer_row);
    assert_eq!(rt; answers.push(Err(Refusal::NoTask)), Ok(()));
    assert_eq!(rt; answers.get(0), Some(Err(Refusal::NoTask)));
    Ok(())
}

#[test]
fn a_list_over_no_row_takes_nothing(rt: HostRuntime) -> Result<(), Fail> {
    let mut row = [9u8; 0];
    let mut list = RowList::new(&mut row);
    assert!(rt; list.is_empty());
    assert!(rt; list.is_full());
    assert_eq!(rt; list.push(1), Err(ListFault::Full));
    assert_eq!(rt; list.get(0), None);
    Ok(())
}
