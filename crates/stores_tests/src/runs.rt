// Each worked run: its turns, each with its answer by hand. Both stores are held to them. Every run begins with 64 zero words
// and tasks on 0, 1, 2 and 3. Those that are about lines are in lines.rt too.
// The runs are alike in form and each is its values, so there is nothing to share but `expect`.
ghost use Rattle.std.specs.Prelude.{◌≤◌};

use crate::turns::{commit, load, replace, squash, start, store};
use memory::{Memory, WordMemory};
use std::process::Abort;
use stores::{
    Answer, AnswersFull, CentralBuffer, Refusal, SnoopingStore, Turn, VersionStore, play_turns,
};

// Plays the turns after four starts on a store over a memory, and tells whether there was a place for each answer.
fn play<S: VersionStore>(
    memory: S::Below,
    turns: &[Turn],
    answers: &mut [Answer],
) -> Result<(), AnswersFull>
where
    S::Below: Drop,
    requires { S.Below.Memory.sound memory }
{
    let mut store = S::open(memory);
    let mut started = [Ok(0); 4];
    let _ = play_turns(
        &mut store,
        &[start(0), start(1), start(2), start(3)],
        &mut started,
    );
    let played = play_turns(&mut store, turns, answers);
    let _ = store.close();
    played
}

// Holds both stores to the answer of each turn. The longest run has eight: `map` asks that its elements fit in memory.
fn expect<const N: usize>(rt: &impl Abort, run: [(Turn, Answer); N])
    requires { N ≤ 8 }
{
    let turns = run.map(|(turn, _)| turn);
    let expected = run.map(|(_, answer)| answer);
    let mut buffered = [Ok(0); N];
    let mut snooped = [Ok(0); N];
    let on_buffer = play::<CentralBuffer<WordMemory>>(
        WordMemory::open(&mut [0; 64]),
        &turns,
        &mut buffered,
    );
    assert!(rt; on_buffer.is_ok());
    let on_caches = play::<SnoopingStore<WordMemory>>(
        WordMemory::open(&mut [0; 64]),
        &turns,
        &mut snooped,
    );
    assert!(rt; on_caches.is_ok());
    assert_eq!(rt;
        buffered,
        expected,
        "an answer of the central buffer differs"
    );
    assert_eq!(rt;
        snooped,
        expected,
        "an answer of the snooping store differs"
    );
}

#[test]
fn addresses_end_at_the_size(rt: HostRuntime) {
    expect(
        &rt,
        [(load(0, 63), Ok(0)), (load(0, 64), Err(Refusal::NoAddress))],
    );
}

#[test]
fn a_task_holds_one_address_of_a_class(rt: HostRuntime) {
    expect(
        &rt,
        [(load(1, 5), Ok(0)), (load(1, 21), Err(Refusal::ClassTaken))],
    );
    expect(
        &rt,
        [
            (store(1, 5, 7), Ok(0)),
            (load(1, 21), Err(Refusal::ClassTaken)),
            (load(1, 5), Ok(7)),
        ],
    );
}

#[test]
fn a_store_of_an_equal_word_squashes(rt: HostRuntime) {
    expect(
        &rt,
        [
            (store(0, 5, 7), Ok(0)),
            (load(2, 5), Ok(7)),
            (store(0, 5, 7), Ok(2)),
        ],
    );
}

#[test]
fn a_version_between_hides_a_mark(rt: HostRuntime) {
    expect(
        &rt,
        [
            (store(1, 5, 8), Ok(0)),
            (load(2, 5), Ok(8)),
            (store(0, 5, 7), Ok(0)),
        ],
    );
}

#[test]
fn a_mark_outlives_a_store_and_an_own_word_sets_none(rt: HostRuntime) {
    expect(
        &rt,
        [
            (load(2, 5), Ok(0)),
            (store(2, 5, 9), Ok(0)),
            (store(0, 5, 7), Ok(2)),
        ],
    );
    expect(
        &rt,
        [
            (store(2, 5, 9), Ok(0)),
            (load(2, 5), Ok(9)),
            (store(0, 5, 7), Ok(0)),
        ],
    );
}

#[test]
fn what_is_replaced_is_not_held(rt: HostRuntime) {
    expect(
        &rt,
        [
            (store(0, 5, 7), Ok(0)),
            (replace(0, 5), Ok(1)),
            (replace(0, 5), Err(Refusal::NotHeld)),
        ],
    );
    expect(
        &rt,
        [
            (load(0, 5), Ok(0)),
            (replace(0, 5), Ok(0)),
            (replace(0, 5), Err(Refusal::NotHeld)),
        ],
    );
}

#[test]
fn the_head_commits_and_is_not_squashed(rt: HostRuntime) {
    expect(
        &rt,
        [
            (commit(1), Err(Refusal::NotHead)),
            (squash(0), Err(Refusal::IsHead)),
            (squash(1), Ok(3)),
        ],
    );
}

#[test]
fn a_processor_starts_again_after_its_commit(rt: HostRuntime) {
    expect(
        &rt,
        [
            (store(0, 5, 7), Ok(0)),
            (commit(0), Ok(1)),
            (start(0), Ok(3)),
            (store(1, 5, 8), Ok(0)),
            (load(0, 5), Ok(8)),
        ],
    );
}

#[test]
fn a_load_sees_the_nearest_earlier_version(rt: HostRuntime) {
    expect(
        &rt,
        [
            (store(0, 5, 7), Ok(0)),
            (store(2, 5, 9), Ok(0)),
            (load(1, 5), Ok(7)),
        ],
    );
}

#[test]
fn a_set_has_room_for_four_addresses(rt: HostRuntime) {
    expect(
        &rt,
        [
            (store(0, 5, 1), Ok(0)),
            (store(1, 21, 2), Ok(0)),
            (store(2, 37, 3), Ok(0)),
            (store(3, 53, 4), Ok(0)),
            (load(3, 53), Ok(4)),
            (load(0, 5), Ok(1)),
        ],
    );
}

#[test]
fn a_commit_writes_every_own_word(rt: HostRuntime) {
    expect(
        &rt,
        [
            (store(0, 0, 1), Ok(0)),
            (store(0, 15, 2), Ok(0)),
            (store(0, 62, 3), Ok(0)),
            (load(0, 7), Ok(0)),
            (commit(0), Ok(3)),
            (load(1, 0), Ok(1)),
            (load(1, 15), Ok(2)),
            (load(1, 62), Ok(3)),
        ],
    );
}

// Of two turns, one has no place for its answer.
fn expect_one_place<S: VersionStore>(rt: &impl Abort, memory: S::Below)
where
    S::Below: Drop,
    requires { S.Below.Memory.sound memory }
{
    let mut answers = [Ok(9); 1];
    let turns = [load(0, 63), load(0, 64)];
    assert!(rt; play::<S>(memory, &turns, &mut answers).is_err());
    assert_eq!(rt; answers, [Ok(0)]);
}

#[test]
fn answers_without_a_place_are_not_played(rt: HostRuntime) {
    expect_one_place::<CentralBuffer<WordMemory>>(&rt, WordMemory::open(&mut [0; 64]));
}

#[test]
fn answers_without_a_place_are_not_played_on_caches(rt: HostRuntime) {
    expect_one_place::<SnoopingStore<WordMemory>>(&rt, WordMemory::open(&mut [0; 64]));
}
