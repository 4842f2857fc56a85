// Reading turns: every line has a verb and its fields, one space between, and ends in byte 10. A line is checked verb
// first, then field by field, then for extras and its end, and last for a place in the list.
ghost use Rattle.std.specs.Prelude.{◌≡◌, ◌++◌, length, Some, MatchResult, OnOk};
ghost use Rattle.player.specs.Canonical.{Exact};
ghost use Rattle.player.specs.Left.{after, parts_left, FieldTaken, NoField, TurnTaken, NoTurn, end_answer, line_turn, listed_answer, listed, listed_row};
ghost use Rattle.player.specs.Lists.{content, free, room, row_of};
ghost use Rattle.player.specs.Splits.{line_end};
ghost use Rattle.player.specs.Text.{text_read, written};
ghost use Rattle.player.specs.Tokens.{text_left, end_of, part_length, word_seen};

use crate::fault::{TextFault, TextWhy};
use crate::list::RowList;
use crate::number::number;
use crate::token::{Token, Tokens};
use crate::verb::Verb;
use stores::Turn;

// Reads the turns of a text into a list. A fault leaves the turns of the lines before it in the list.
pub fn read_turns(text: &[u8], turns: &mut RowList<Turn>) -> Result<(), TextFault>
    ensures answer { result ≡ (text_read (free turns.old) text.now).answer }
    ensures after { content turns.new ≡ content turns.old ++ (text_read (free turns.old) text.now).turns }
    ensures row { row_of turns.new ≡ written (row_of turns.old) (length (content turns.old)) (text_read (free turns.old) text.now).turns }
    ensures exact { Exact text.now (text_read (free turns.old) text.now) }
    ensures room { room turns.new ≡ room turns.old }
{
    let mut tokens = Tokens::new(text);
    while let Some(first) = tokens.verb() {
        if let Err(why) = read_line(first.token, &mut tokens, turns) {
            let place = first.at;
            return Err(TextFault { why, place });
        }
    }
    Ok(())
}

// Takes a field of a line. A space, a line end or the end of the text comes next: that is so after a part of a line and not
// where a line begins, so each step within a line requires it. (A type for the rest of a line would be made after each verb and used up
// at the line's end, for these five functions alone.)
fn read_field(tokens: &mut Tokens) -> Result<u32, TextWhy>
    requires { part_length (text_left tokens.old) ≡ 0 }
    ensures field { MatchResult result (FieldTaken (text_left tokens.old) (text_left tokens.new)) (NoField (text_left tokens.old)) }
    ensures place { end_of tokens.new ≡ end_of tokens.old }
{
    let Some(Token::Number(part)) = tokens.next_token().map(|placed| placed.token) else {
        return Err(TextWhy::Field);
    };
    number(part)
}

// Takes the fields of a verb, and gives its turn.
#[tactic(auto, using(crate::proofs::Following::refused_fields))]
fn read_fields(verb: Verb, tokens: &mut Tokens) -> Result<Turn, TextWhy>
    requires { part_length (text_left tokens.old) ≡ 0 }
    ensures turn { MatchResult result (TurnTaken verb (text_left tokens.old) (text_left tokens.new)) (NoTurn verb (text_left tokens.old)) }
    ensures place { end_of tokens.new ≡ end_of tokens.old }
{
    // Every turn's first field is its processor.
    let p = read_field(tokens)?;
    let turn = match verb {
        Verb::Start => Turn::Start { p },
        Verb::Load => Turn::Load {
            p,
            a: read_field(tokens)?,
        },
        Verb::Store => Turn::Store {
            p,
            a: read_field(tokens)?,
            w: read_field(tokens)?,
        },
        Verb::Squash => Turn::Squash { p },
        Verb::Commit => Turn::Commit { p },
        Verb::Replace => Turn::Replace {
            p,
            a: read_field(tokens)?,
        },
    };
    Ok(turn)
}

// Takes the end of a line, after which no part may be left.
fn read_end(tokens: &mut Tokens) -> Result<(), TextWhy>
    requires { part_length (text_left tokens.old) ≡ 0 }
    ensures end { result ≡ end_answer (parts_left (text_left tokens.old)) (after line_end (text_left tokens.old)) }
    ensures line { OnOk result (after line_end (text_left tokens.old) ≡ Some (text_left tokens.new)) }
    ensures place { end_of tokens.new ≡ end_of tokens.old }
{
    let Some(Token::LineEnd) = tokens.next_token().map(|placed| placed.token) else {
        return Err(TextWhy::Field);
    };
    Ok(())
}

// Takes what follows the first token of a line, and gives the line's turn.
fn read_turn(first: Token, tokens: &mut Tokens) -> Result<Turn, TextWhy>
    requires { part_length (text_left tokens.old) ≡ 0 }
    ensures turn { result ≡ line_turn (word_seen first.entry) (text_left tokens.old) }
    ensures line { OnOk result (after line_end (text_left tokens.old) ≡ Some (text_left tokens.new)) }
    ensures place { end_of tokens.new ≡ end_of tokens.old }
{
    let Some(verb) = first.named() else {
        return Err(TextWhy::Verb);
    };
    let turn = read_fields(verb, tokens)?;
    read_end(tokens)?;
    Ok(turn)
}

// Takes what follows the first token of a line, and adds the line's turn to the list.
fn read_line(first: Token, tokens: &mut Tokens, turns: &mut RowList<Turn>) -> Result<(), TextWhy>
    requires { part_length (text_left tokens.old) ≡ 0 }
    ensures answer { result ≡ listed_answer (line_turn (word_seen first.entry) (text_left tokens.old)) (content turns.old) (room turns.old) }
    ensures after { content turns.new ≡ listed (line_turn (word_seen first.entry) (text_left tokens.old)) (content turns.old) (room turns.old) }
    ensures row { row_of turns.new ≡ listed_row (line_turn (word_seen first.entry) (text_left tokens.old)) (content turns.old) (room turns.old) (row_of turns.old) }
    ensures room { room turns.new ≡ room turns.old }
    ensures line { OnOk result (after line_end (text_left tokens.old) ≡ Some (text_left tokens.new)) }
    ensures place { end_of tokens.new ≡ end_of tokens.old }
{
    let turn = read_turn(first, tokens)?;
    turns.push(turn)?;
    Ok(())
}
