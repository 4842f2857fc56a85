// What stands between files and a version store: lists over lent rows, images that fill a memory before the turns, turns
// as text, and the faults of all three; playing an image and a text on a store; and the listing of what was played.
#![tactic(auto)]

mod fault;
mod image;
mod lines;
mod list;
mod loading;
mod number;
mod output;
mod play;
mod text;
mod token;
mod verb;
mod write;

pub use fault::{Fault, ImageFault, ImageWhy, Layer, ListFault, PlayerFault, TextFault, TextWhy};
pub use image::load_image;
pub use lines::{Line, MOST_LINE, answer_line, fault_line, fault_text, tasks_line, word_line};
pub use list::RowList;
pub use loading::Loading;
pub use output::{Played, listing, words_of};
pub use play::{
    Input, Lists, MOST_BYTES, MOST_TURNS, play_both, play_both_on, play_on, play_over, play_text,
    play_text_on,
};
pub use text::read_turns;
pub use write::{write_turn, write_turns};
