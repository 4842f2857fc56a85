// Faults: why an image, a text or a list was refused, and where. The list's own fault stays inside the text's, and both
// inside the player's, which tells its layer, number and place.
ghost use Rattle.std.specs.Prelude.{◌≡◌, ◌≤◌, List, length, Some};
ghost use Rattle.player.specs.declared.fault.PlayerFault.TheVariants.{Image as AnImage, Text as ATurnText};
ghost use Rattle.player.specs.declared.fault.TextWhy.TheVariants.{List as AList};
ghost use Rattle.player.specs.Faults.{list_number, list_text, text_number, image_number, text_layer, layer_of, number_of, place_of, layer_word, fault_text};
ghost use Rattle.player.specs.Image.{fault_at};

use crate::lines::fault_text;
use std::error::Error;
use std::fmt;

// It has one case, whose number stands at it as with a fault of an image.
#[derive(Clone, Copy, PartialEq, Debug)]
pub enum ListFault {
    // The list is full.
    Full = 16,
}

impl ListFault {
    // The number by which users know the fault.
    pub fn number(self) -> u8
        ensures { result ≡ list_number self }
    {
        self as u8
    }
}

impl fmt::Display for ListFault {
    ghost output = { λ e. Some (list_text e) };

    fn fmt<W: fmt::Write>(&self, f: &mut fmt::Formatter<W>) -> fmt::Result {
        let number = self.number();
        write!(f, "no {number}")
    }
}

impl Error for ListFault {}

#[derive(Clone, Copy, PartialEq, Debug)]
pub enum ImageWhy {
    // The image is not as long as its numbers say.
    Length = 9,
    // There are more than 64 pairs.
    PairCount = 10,
    // A pair has no word, or begins before the end of the pair before it.
    PairOrder = 11,
    // A pair ends past the memory.
    PairOutside = 12,
}

impl ImageWhy {
    // The number by which users know the fault.
    pub fn number(self) -> u8
        ensures { result ≡ image_number self }
    {
        self as u8
    }

    // The fault of an image that is refused for this at a place.
    pub(crate) fn at(self, place: usize) -> ImageFault
        ensures { result ≡ fault_at self place }
    {
        ImageFault { why: self, place }
    }
}

#[derive(Clone, Copy, PartialEq, Debug)]
pub enum TextWhy {
    // No turn has this verb.
    Verb,
    // A field is missing, too many or malformed, or the line has no end.
    Field,
    // A field is above 4,294,967,295.
    TooLarge,
    // The list did not take the turn.
    List(ListFault),
}

impl TextWhy {
    // The number by which users know the fault. One variant has a fault inside, so that no number stands at the variants.
    pub fn number(self) -> u8
        ensures { result ≡ text_number self }
    {
        match self {
            TextWhy::Verb => 13,
            TextWhy::Field => 14,
            TextWhy::TooLarge => 15,
            TextWhy::List(fault) => fault.number(),
        }
    }

    // The layer that refused: the text's own, or the list's.
    pub fn layer(self) -> Layer
        ensures { result ≡ text_layer self }
    {
        match self {
            TextWhy::Verb | TextWhy::Field | TextWhy::TooLarge => Layer::Text,
            TextWhy::List(_) => Layer::List,
        }
    }
}

impl From<ListFault> for TextWhy {
    ghost from_gives = { λ e r. r ≡ AList e };

    fn from(e: ListFault) -> TextWhy {
        TextWhy::List(e)
    }
}

// Why some bytes were refused, and at which of them.
#[derive(Clone, Copy, PartialEq, Debug)]
pub struct Fault<W> {
    pub why: W,
    pub place: usize,
}

// A fault of an image. Its place is the first byte of the pair or of the count, and the image's length where that is at
// fault.
pub type ImageFault = Fault<ImageWhy>;

// A fault of a turn text. Its place is the first byte of the line.
pub type TextFault = Fault<TextWhy>;

// The layer at which something was refused.
#[derive(Clone, Copy, PartialEq, Debug)]
pub enum Layer {
    Image,
    Text,
    List,
}

impl Layer {
    // The word by which users know the layer.
    pub fn word(self) -> &'static str
        ensures value { result.now ≡ layer_word self }
        ensures short { length result.now ≤ 5 }
    {
        match self {
            Layer::Image => "image",
            Layer::Text => "text",
            Layer::List => "list",
        }
    }
}

impl fmt::Display for Layer {
    ghost output = { λ l. Some (layer_word l) };

    fn fmt<W: fmt::Write>(&self, f: &mut fmt::Formatter<W>) -> fmt::Result {
        f.write_str(self.word())
    }
}

#[derive(Clone, Copy, PartialEq, Debug)]
pub enum PlayerFault {
    Image(ImageFault),
    Text(TextFault),
    // There was no place for the answer to this turn, counted from 0, and it was not played. (No `Fault<ListFault>`: its place
    // would be a byte.)
    Results { fault: ListFault, turn: usize },
}

impl PlayerFault {
    pub fn layer(self) -> Layer
        ensures { result ≡ layer_of self }
    {
        match self {
            PlayerFault::Image(_) => Layer::Image,
            PlayerFault::Text(fault) => fault.why.layer(),
            PlayerFault::Results { .. } => Layer::List,
        }
    }

    pub fn number(self) -> u8
        ensures { result ≡ number_of self }
    {
        match self {
            PlayerFault::Image(fault) => fault.why.number(),
            PlayerFault::Text(fault) => fault.why.number(),
            PlayerFault::Results { fault, .. } => fault.number(),
        }
    }

    pub fn place(self) -> usize
        ensures { result ≡ place_of self }
    {
        match self {
            PlayerFault::Image(fault) => fault.place,
            PlayerFault::Text(fault) => fault.place,
            PlayerFault::Results { turn, .. } => turn,
        }
    }
}

impl From<ImageFault> for PlayerFault {
    ghost from_gives = { λ e r. r ≡ AnImage e };

    fn from(e: ImageFault) -> PlayerFault {
        PlayerFault::Image(e)
    }
}

impl From<TextFault> for PlayerFault {
    ghost from_gives = { λ e r. r ≡ ATurnText e };

    fn from(e: TextFault) -> PlayerFault {
        PlayerFault::Text(e)
    }
}

impl fmt::Display for PlayerFault {
    ghost output = { λ e. Some (fault_text e) };

    fn fmt<W: fmt::Write>(&self, f: &mut fmt::Formatter<W>) -> fmt::Result {
        f.write_str(fault_text(*self).as_str())
    }
}

impl Error for PlayerFault {}

// A fault of an image or of a text has the player's line. Not one impl for every `Fault<W>`: the promised text would have to name the
// player's fault that `From` makes of it, and of `From` a clause knows a relation.
impl fmt::Display for ImageFault {
    ghost output = { λ e. Some (fault_text (AnImage e)) };

    fn fmt<W: fmt::Write>(&self, f: &mut fmt::Formatter<W>) -> fmt::Result {
        PlayerFault::Image(*self).fmt(f)
    }
}

impl Error for ImageFault {}

impl fmt::Display for TextFault {
    ghost output = { λ e. Some (fault_text (ATurnText e)) };

    fn fmt<W: fmt::Write>(&self, f: &mut fmt::Formatter<W>) -> fmt::Result {
        PlayerFault::Text(*self).fmt(f)
    }
}

impl Error for TextFault {}
