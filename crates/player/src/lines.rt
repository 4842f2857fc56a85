// The lines of the listing, a function for each, which gives its line for any numbers. (`write!` does not promise that there will be a text.)
// The form of a line stands here alone: by these lines the listing shows itself, and the library for C fills its caller's buffer. A
// refusal's `no` stands here once more, as its own `Display` is written with `write!`.
ghost use Rattle.std.specs.Prelude.{◌≡◌, ◌<◌, ◌≤◌, ◌++◌, length, codes};
ghost use Rattle.player.specs.Faults.{fault_text};
ghost use Rattle.player.specs.Listings.{answer_line, tasks_line, word_line};

use crate::fault::PlayerFault;
use arrayvec::ArrayString;
use itoa::Buffer;
use stores::Answer;

// The most bytes of a line: those of a fault's, with its end, at the largest numbers of their types.
pub const MOST_LINE: usize = 37;

pub type Line = ArrayString<MOST_LINE>;

// A turn's number, from 1, and its answer.
#[tactic(auto, using(crate::proofs::Digits::four_digits))]
pub fn answer_line(number: usize, answer: Answer) -> Line
    ensures text { result.bytes ≡ answer_line number answer }
    ensures short { number < 10000 → length result.bytes ≤ 19 }
{
    let mut line = Line::new();
    line.push_str(Buffer::new().format(number));
    match answer {
        Ok(n) => {
            line.push_str(" ok ");
            line.push_str(Buffer::new().format(n));
        }
        Err(refusal) => {
            line.push_str(" no ");
            line.push_str(Buffer::new().format(refusal.number()));
        }
    }
    line.push_str("\n");
    line
}

// The number of active tasks.
pub fn tasks_line(tasks: u32) -> Line
    ensures { result.bytes ≡ tasks_line tasks }
{
    let mut line = Line::new();
    line.push_str("tasks ");
    line.push_str(Buffer::new().format(tasks));
    line.push_str("\n");
    line
}

// An address and its word; nothing where the word is 0.
#[tactic(auto, using(crate::proofs::Digits::four_digits))]
pub fn word_line(a: usize, word: u32) -> Line
    ensures text { result.bytes ≡ word_line a word }
    ensures short { a < 10000 → length result.bytes ≤ 19 }
{
    let mut line = Line::new();
    if word == 0 {
        return line;
    }
    line.push_str("at ");
    line.push_str(Buffer::new().format(a));
    line.push_str(" ");
    line.push_str(Buffer::new().format(word));
    line.push_str("\n");
    line
}

// What a fault tells of itself, without a line's end.
pub fn fault_text(fault: PlayerFault) -> Line
    ensures text { result.bytes ≡ fault_text fault }
    ensures short { length result.bytes < MOST_LINE }
{
    let mut line = Line::new();
    line.push_str("fault ");
    line.push_str(fault.layer().word());
    line.push_str(" ");
    line.push_str(Buffer::new().format(fault.number()));
    line.push_str(" ");
    line.push_str(Buffer::new().format(fault.place()));
    line
}

// The line of a fault, in the place of a listing.
pub fn fault_line(fault: PlayerFault) -> Line
    ensures { result.bytes ≡ fault_text fault ++ codes "\n" }
{
    let mut line = fault_text(fault);
    line.push_str("\n");
    line
}
