// The lines of the listing, where their numbers are as long as they can be, and where a line is empty.
use player::{ListFault, PlayerFault, answer_line, fault_line, tasks_line, word_line};
use std::test::*;
use stores::Refusal;

#[test]
fn the_longest_numbers_are_written_whole(rt: HostRuntime) {
    let answer = answer_line(usize::MAX, Ok(u32::MAX));
    assert_eq!(rt; answer.as_str(), "18446744073709551615 ok 4294967295\n");
    let refused = answer_line(usize::MAX, Err(Refusal::NotHeld));
    assert_eq!(rt; refused.as_str(), "18446744073709551615 no 8\n");
    let tasks = tasks_line(u32::MAX);
    assert_eq!(rt; tasks.as_str(), "tasks 4294967295\n");
    let word = word_line(usize::MAX, u32::MAX);
    assert_eq!(rt; word.as_str(), "at 18446744073709551615 4294967295\n");
    let fault = fault_line(PlayerFault::Results {
        fault: ListFault::Full,
        turn: usize::MAX,
    });
    assert_eq!(rt; fault.as_str(), "fault list 16 18446744073709551615\n");
}

#[test]
fn a_word_of_0_has_no_line(rt: HostRuntime) {
    let none = word_line(7, 0);
    assert!(rt; none.is_empty());
    let word = word_line(0, 1);
    assert_eq!(rt; word.as_str(), "at 0 1\n");
}
