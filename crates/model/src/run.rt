// Lists of commands, each list a whole run: a store is opened over the words, carries the commands out, and is closed.
ghost use Rattle.std.specs.Prelude.{◌≡◌, ◌≤◌, ◌++◌, length, drop, Some, None, Ok};
ghost use Rattle.memory.specs.Words.{MemorySize};
ghost use Rattle.memory.specs.Rows.{words_in};
ghost use Rattle.versions.specs.Plain.{memory_words};
ghost use Rattle.snooping.specs.Report.{quiet};
ghost use Rattle.model.specs.Machines.{seen_of, replies_to, seen_after_all, seen_at, replies_after, words_after};
ghost use Rattle.model.specs.Refusals.{run_outcome, number_told};

use crate::command::{Command, Reply};
use crate::machine::Machine;
use crate::refusal::RunRefusal;
use memory::{MOST_WORDS, Memory, WordMemory};
use player::ListFault;
use stores::{CentralBuffer, SnoopingStore};

// Whether a run may begin: the words can be a memory, and there is a place for the reply to each command.
fn check(words: &[u32], commands: &[Command], replies: &[Reply]) -> Result<(), RunRefusal>
    ensures { result ≡ run_outcome (length words.now) (length commands.now) (length replies.now) }
{
    WordMemory::check(words)?;
    if replies.len() < commands.len() {
        return Err(RunRefusal::from(ListFault::Full));
    }
    Ok(())
}

// What C is told of a run: 0, or the number with which it is refused.
fn told(outcome: Result<(), RunRefusal>) -> u32
    ensures { result ≡ number_told outcome }
{
    match outcome {
        Ok(()) => 0,
        Err(refusal) => refusal.number() as u32,
    }
}

// Carries the commands out in their order and writes each reply at its command's place. (Over `replies.iter_mut().zip(commands)`
// a proof would know nothing of what is written.)
#[tactic(auto, using(crate::proofs::Running::size_stays))]
fn carry_out_all<S: Machine>(store: &mut S, commands: &[Command], replies: &mut [Reply])
    requires sound { S.VersionStore.sound store.old }
    requires commands_in_bounds { length commands.now ≤ length replies.old }
    ensures replies { replies.new ≡ replies_to (seen_of S.VersionStore.plain S.Machine.bus store.old) commands.now ++ drop (length commands.now) replies.old }
    ensures after { seen_of S.VersionStore.plain S.Machine.bus store.new ≡ seen_after_all (seen_of S.VersionStore.plain S.Machine.bus store.old) commands.now }
    ensures size { length (memory_words (S.VersionStore.plain store.new)) ≡ length (memory_words (S.VersionStore.plain store.old)) }
    ensures kept { S.VersionStore.sound store.new }
{
    for (i, command) in commands.iter().enumerate() {
        replies[i] = store.carry_out(*command);
    }
}

// The commands on a store over a copy of the words, which are then as the store leaves its memory. (Over the words themselves a
// contract could not say what they are after the call, as they would be lent for as long as the store's type names.) A library
// for C allocates nothing: the copy lies in a row of fixed length, which the caller lends, once the run has passed `check`, so that no
// refused run fills a row. The three other rows stand side by side as C hands them in. That word memory means the same below this store
// as elsewhere is asked, since a bound does not say it.
fn run<'a, S: Machine<Below = WordMemory<'a>>>(
    row: &'a mut [u32; MOST_WORDS],
    words: &mut [u32],
    commands: &[Command],
    replies: &mut [Reply],
)
    requires words { (memory : _) → ⟦<S::Below as Memory>⟧.words memory ≡ words_in memory }
    requires sound { (memory : _) → MemorySize (length (words_in memory)) → ⟦<S::Below as Memory>⟧.sound memory }
    requires accepted { run_outcome (length words.old) (length commands.now) (length replies.old) ≡ Ok tt }
    ensures replies { replies.new ≡ replies_to (seen_at S.Machine.first_report words.old) commands.now ++ drop (length commands.now) replies.old }
    ensures words { words.new ≡ memory_words (seen_after_all (seen_at S.Machine.first_report words.old) commands.now).plain }
{
    let copy = &mut row[..words.len()];
    copy.copy_from_slice(words);
    let mut store = S::open(WordMemory::open(copy));
    carry_out_all(&mut store, commands, replies);
    words.copy_from_slice(store.close().close());
}

// The commands on a snooping store over a copy of the words, which are then as the store leaves its memory.
#[unsafe(no_mangle)]
pub extern "C" fn model_snooping(
    words: &mut [u32],
    commands: &[Command],
    replies: &mut [Reply],
) -> u32
    ensures told { result ≡ number_told (run_outcome (length words.old) (length commands.now) (length replies.old)) }
    ensures replies { replies.new ≡ replies_after result (seen_at (Some quiet) words.old) commands.now replies.old }
    ensures words { words.new ≡ words_after result (seen_at (Some quiet) words.old) commands.now words.old }
{
    let outcome = check(words, commands, replies);
    if outcome.is_ok() {
        let mut row = [0; MOST_WORDS];
        run::<SnoopingStore<WordMemory>>(&mut row, words, commands, replies);
    }
    told(outcome)
}

// The commands on a central buffer, which has no lines and no bus to report of.
#[unsafe(no_mangle)]
pub extern "C" fn model_central(
    words: &mut [u32],
    commands: &[Command],
    replies: &mut [Reply],
) -> u32
    ensures told { result ≡ number_told (run_outcome (length words.old) (length commands.now) (length replies.old)) }
    ensures replies { replies.new ≡ replies_after result (seen_at None words.old) commands.now replies.old }
    ensures words { words.new ≡ words_after result (seen_at None words.old) commands.now words.old }
{
    let outcome = check(words, commands, replies);
    if outcome.is_ok() {
        let mut row = [0; MOST_WORDS];
        run::<CentralBuffer<WordMemory>>(&mut row, words, commands, replies);
    }
    told(outcome)
}
