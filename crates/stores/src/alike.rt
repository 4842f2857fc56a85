// The snooping store and the central buffer answer alike.
ghost use Rattle.std.specs.Prelude.{◌++◌, ◌≡◌, take, drop};
ghost use Rattle.versions.specs.Plain.{opened, memory_words, answers_of, state_after_all};
ghost use Rattle.versions.specs.Played.{turns_played};

use buffer::CentralBuffer;
use memory::Memory;
use snooping::SnoopingStore;
use versions::{Answer, Turn, VersionStore, play_turns};

// Plays the same turns on a snooping store over one memory and on a central buffer over another, each until there is no
// turn or no place for its answer left, and hands both memories back. Over memories with equal words, and with equal rows
// for the answers, both give equal answers and leave equal words.
pub fn play_on_both<M: Memory, N: Memory>(
    one: M,
    other: N,
    turns: &[Turn],
    snooped: &mut [Answer],
    buffered: &mut [Answer],
) -> (M, N)
    requires one_sound { M.Memory.sound one }
    requires other_sound { N.Memory.sound other }
    ensures snooped { snooped.new ≡ answers_of (opened (M.Memory.words one)) (take (turns_played turns.now snooped.old) turns.now) ++ drop (turns_played turns.now snooped.old) snooped.old }
    ensures buffered { buffered.new ≡ answers_of (opened (N.Memory.words other)) (take (turns_played turns.now buffered.old) turns.now) ++ drop (turns_played turns.now buffered.old) buffered.old }
    ensures one { M.Memory.words result.0 ≡ memory_words (state_after_all (opened (M.Memory.words one)) (take (turns_played turns.now snooped.old) turns.now)) }
    ensures other { N.Memory.words result.1 ≡ memory_words (state_after_all (opened (N.Memory.words other)) (take (turns_played turns.now buffered.old) turns.now)) }
    ensures alike { M.Memory.words one ≡ N.Memory.words other → snooped.old ≡ buffered.old → (snooped.new ≡ buffered.new) × (M.Memory.words result.0 ≡ N.Memory.words result.1) }
    ensures beside { (M.Memory.spare result.0 ≡ M.Memory.spare one) × (N.Memory.spare result.1 ≡ N.Memory.spare other) }
    ensures kept { M.Memory.sound result.0 × N.Memory.sound result.1 }
{
    let one = play_on::<SnoopingStore<M>>(one, turns, snooped);
    let other = play_on::<CentralBuffer<N>>(other, turns, buffered);
    (one, other)
}

// Plays turns on a store over a memory, which is opened for them and closed after them.
fn play_on<S: VersionStore>(memory: S::Below, turns: &[Turn], answers: &mut [Answer]) -> S::Below
    requires { S.Below.Memory.sound memory }
    ensures answers { answers.new ≡ answers_of (opened (S.Below.Memory.words memory)) (take (turns_played turns.now answers.old) turns.now) ++ drop (turns_played turns.now answers.old) answers.old }
    ensures words { S.Below.Memory.words result ≡ memory_words (state_after_all (opened (S.Below.Memory.words memory)) (take (turns_played turns.now answers.old) turns.now)) }
    ensures beside { S.Below.Memory.spare result ≡ S.Below.Memory.spare memory }
    ensures kept { S.Below.Memory.sound result }
{
    let mut store = S::open(memory);
    let _ = play_turns(&mut store, turns, answers);
    store.close()
}
