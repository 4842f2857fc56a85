// Plays a list of turns on the central buffer, over a second-level cache over byte memory, and prints each answer, the
// number of active tasks, and the memory's words that are not 0 once everything is taken apart.
#![tactic(auto)]

use memory::{ByteMemory, Memory, SecondLevel};
use player::{answer_line, tasks_line, word_line};
use stores::{CentralBuffer, Turn, VersionStore, play_turns};

// The turns, of which some are refused.
const TURNS: [Turn; 18] = [
    Turn::Start { p: 2 },
    Turn::Start { p: 0 },
    Turn::Start { p: 3 },
    Turn::Store { p: 2, a: 5, w: 70 },
    Turn::Load { p: 3, a: 5 },
    Turn::Store { p: 0, a: 5, w: 71 },
    Turn::Commit { p: 2 },
    Turn::Load { p: 0, a: 21 },
    Turn::Replace { p: 0, a: 5 },
    Turn::Load { p: 0, a: 21 },
    Turn::Commit { p: 0 },
    Turn::Start { p: 1 },
    Turn::Store { p: 1, a: 63, w: 9 },
    Turn::Squash { p: 1 },
    Turn::Load { p: 1, a: 64 },
    Turn::Start { p: 1 },
    Turn::Commit { p: 3 },
    Turn::Start { p: 4 },
];

fn main(rt: HostRuntime) -> anyhow::Result<()> {
    let mut bytes = [0u8; 256];
    let mut answers = [Ok(0); TURNS.len()];
    ByteMemory::check(&bytes)?;
    let mut store = CentralBuffer::open(SecondLevel::open(ByteMemory::open(&mut bytes)));
    // There are as many places for answers as turns, so that all are played.
    let _ = play_turns(&mut store, &TURNS, &mut answers);
    let tasks = store.tasks();
    let mut memory = store.close().close();
    // Each line is printed by itself, and no text is made of them: the program allocates nothing.
    for (i, answer) in answers.iter().enumerate() {
        rt.print(answer_line(i + 1, *answer).as_str())?;
    }
    rt.print(tasks_line(tasks).as_str())?;
    for a in 0..memory.size() {
        let word = memory.read(a)?;
        if word != 0 {
            rt.print(word_line(a as usize, word).as_str())?;
        }
    }
    Ok(())
}
