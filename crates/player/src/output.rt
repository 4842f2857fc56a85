// The listing of what was played: a line for each turn with its number from 1 and its answer, the number of active tasks,
// and a line for each word of the memory that is not 0. After a fault there is one line, the fault's.
ghost use Rattle.std.specs.Prelude.{◌≡◌, IfOk, Some, string_bytes};
ghost use Rattle.player.specs.Listings.{answer_lines, word_lines, listing_of};

use crate::fault::PlayerFault;
use crate::lines::{answer_line, fault_line, tasks_line, word_line};
use memory::Memory;
use std::alloc::{AllocError, Global};
use std::fmt;
use stores::Answer;

// What was played: the answers, the number of active tasks or the fault, and the memory's words. It shows itself as its listing.
#[derive(Clone, Copy)]
pub struct Played<'a> {
    pub answers: &'a [Answer],
    pub outcome: Result<u32, PlayerFault>,
    pub words: &'a [u32],
}

impl fmt::Display for Played<'_> {
    ghost output = { λ l. Some (listing_of l.answers.now l.outcome l.words.now) };

    fn fmt<W: fmt::Write>(&self, f: &mut fmt::Formatter<W>) -> fmt::Result {
        match self.outcome {
            Ok(tasks) => {
                AnswerLines(self.answers).fmt(f)?;
                f.write_str(tasks_line(tasks).as_str())?;
                WordLines(self.words).fmt(f)
            }
            Err(fault) => f.write_str(fault_line(fault).as_str()),
        }
    }
}

// A line for each turn: its number and its answer.
#[derive(Clone, Copy)]
struct AnswerLines<'a>(&'a [Answer]);

impl fmt::Display for AnswerLines<'_> {
    ghost output = { λ l. Some (answer_lines l.0.now) };

    fn fmt<W: fmt::Write>(&self, f: &mut fmt::Formatter<W>) -> fmt::Result {
        for (i, answer) in self.0.iter().enumerate() {
            f.write_str(answer_line(i + 1, *answer).as_str())?;
        }
        Ok(())
    }
}

// A line for each word that is not 0: its address and the word.
#[derive(Clone, Copy)]
struct WordLines<'a>(&'a [u32]);

impl fmt::Display for WordLines<'_> {
    ghost output = { λ l. Some (word_lines l.0.now) };

    fn fmt<W: fmt::Write>(&self, f: &mut fmt::Formatter<W>) -> fmt::Result {
        for (a, word) in self.0.iter().enumerate() {
            // Most words are 0, and have no line.
            if *word != 0 {
                f.write_str(word_line(a, *word).as_str())?;
            }
        }
        Ok(())
    }
}

// The listing of what was played, as one text.
pub fn listing(
    heap: Global,
    answers: &[Answer],
    outcome: Result<u32, PlayerFault>,
    words: &[u32],
) -> Result<String, AllocError>
    ensures { IfOk result (λ s. string_bytes s ≡ listing_of answers.now outcome words.now) }
{
    let played = Played {
        answers,
        outcome,
        words,
    };
    played.to_string(heap)
}

// The words of a memory, in their order. A memory shows no slice: its words are asked by address.
pub fn words_of<M: Memory>(heap: Global, memory: &mut M) -> Result<Vec<u32>, AllocError>
    requires { M.Memory.sound memory.old }
    ensures words { IfOk result (λ words. words.items ≡ M.Memory.words memory.old) }
    ensures after { M.Memory.words memory.new ≡ M.Memory.words memory.old }
    ensures beside { M.Memory.spare memory.new ≡ M.Memory.spare memory.old }
    ensures kept { M.Memory.sound memory.new }
{
    let mut words = Vec::new(heap);
    for a in 0..memory.size() {
        // The address is below the size, so the memory gives the word.
        words.push(memory.read(a).unwrap())?;
    }
    Ok(words)
}
