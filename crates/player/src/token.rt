// Tokens: the verbs, numbers and line ends of a text of turns, each a part of the text with its place.
ghost use Rattle.std.specs.Prelude.{◌≡◌, ◌+◌, ◌^◌, ◌<◌, ◌≤◌, length};

use crate::verb::Verb;

#[derive(Clone, Copy)]
pub enum Token<'a> {
    // What a line begins with, up to a space, a line end or the end of the text.
    Verb(&'a [u8]),
    // What follows a space, up to the next space, a line end or the end of the text.
    Number(&'a [u8]),
    LineEnd,
}

impl Token<'_> {
    ghost use Rattle.player.specs.Tokens.{verb_seen, word_seen};

    // The verb that the token names, if it names one.
    pub fn named(self) -> Option<Verb>
        ensures { result ≡ verb_seen (word_seen self.entry) }
    {
        match self {
            Token::Verb(word) => Verb::named(word),
            _ => None,
        }
    }
}

#[derive(Clone, Copy)]
pub struct Placed<'a> {
    pub token: Token<'a>,
    // The place of the token's first byte in the text.
    pub at: usize,
}

// What is left of a text, and the place where it begins.
#[derive(Clone, Copy)]
pub struct Tokens<'a> {
    rest: &'a [u8],
    at: usize,
    ghost place_fits: { at + length rest.now < 2 ^ 64 },
}

impl<'a> Tokens<'a> {
    ghost use Rattle.player.specs.Tokens.{text_left, read_place, end_of, words_seen, part_length, part, after_part, verb_token, next_token, after_next};

    pub fn new(text: &'a [u8]) -> Tokens<'a>
        ensures text { text_left result ≡ text.now }
        ensures place { read_place result ≡ 0 }
    {
        Tokens { rest: text, at: 0 }
    }

    // Takes the verb of the next line, which may be empty, or gives none at the end of the text.
    pub fn verb(&mut self) -> Option<Placed<'a>>
        ensures token { words_seen result ≡ verb_token (read_place self.old) (text_left self.old) }
        ensures text { text_left self.new ≡ after_part (text_left self.old) }
        ensures place { end_of self.new ≡ end_of self.old }
    {
        if self.rest.is_empty() {
            return None;
        }
        let at = self.at;
        let token = Token::Verb(self.part());
        Some(Placed { token, at })
    }

    // Takes the token after a verb or a number, or gives none at the end of the text.
    pub fn next_token(&mut self) -> Option<Placed<'a>>
        ensures token { words_seen result ≡ next_token (read_place self.old) (text_left self.old) }
        ensures text { text_left self.new ≡ after_next (text_left self.old) }
        ensures place { end_of self.new ≡ end_of self.old }
    {
        let (first, rest) = self.rest.split_first()?;
        let at = self.at;
        self.at = at + 1;
        self.rest = rest;
        if *first == b'\n' {
            let token = Token::LineEnd;
            return Some(Placed { token, at });
        }
        let token = Token::Number(self.part());
        Some(Placed { token, at: at + 1 })
    }

    // Takes what comes before the next space or line end.
    fn part(&mut self) -> &'a [u8]
        ensures value { result.now ≡ part (text_left self.old) }
        ensures text { text_left self.new ≡ after_part (text_left self.old) }
        ensures place { end_of self.new ≡ end_of self.old }
    {
        let (part, rest) = self.rest.split_at(self.part_length());
        self.at += part.len();
        self.rest = rest;
        part
    }

    // How many bytes come before the next space or line end.
    fn part_length(&self) -> usize
        ensures value { result ≡ part_length (text_left self.now) }
        ensures bound { result ≤ length (text_left self.now) }
    {
        let text = self.rest;
        text.iter()
            .position(|b| *b == b' ' || *b == b'\n')
            .unwrap_or(text.len())
    }
}
