// Writing turns as text, one line for each.
ghost use Rattle.std.specs.Prelude.{◌≡◌, ℕ, ◌<◌, ◌≤◌, [], ◌∷◌, ◌++◌, length, IfOk, string_bytes};
ghost use Rattle.player.specs.Text.{text_read, whole_read};
ghost use Rattle.player.specs.Writing.{line_of, text_of, Small};

use std::alloc::{AllocError, Global};
use std::fmt::Write;
use stores::Turn;

// The text of turns, which reading gives back where there is room for them.
pub fn write_turns(heap: Global, turns: &[Turn]) -> Result<String, AllocError>
    ensures text { IfOk result (λ s. string_bytes s ≡ text_of turns.now) }
    ensures back { IfOk result (λ s. (free : ℕ) → length turns.now ≤ free → text_read free (string_bytes s) ≡ whole_read turns.now) }
{
    let mut text = String::new(heap);
    for turn in turns {
        write_line(&mut text, *turn)?;
    }
    Ok(text)
}

// The line of a turn. Its fields are numbers of 32 bits.
pub fn write_turn(heap: Global, turn: Turn) -> Result<String, AllocError>
    ensures text { IfOk result (λ s. string_bytes s ≡ line_of turn) }
    ensures back { IfOk result (λ s. (free : ℕ) → 0 < free → text_read free (string_bytes s) ≡ whole_read (turn ∷ [])) }
    ensures small { Small turn }
{
    let mut text = String::new(heap);
    write_line(&mut text, turn)?;
    Ok(text)
}

// Adds the line of a turn. Passed by value, it is known of the turn that its fields are numbers of 32 bits, which reading back
// needs.
fn write_line(text: &mut String, turn: Turn) -> Result<(), AllocError>
    ensures text { IfOk result (λ _. string_bytes text.new ≡ string_bytes text.old ++ line_of turn) }
    ensures small { Small turn }
{
    writeln!(text, "{turn}")
}
