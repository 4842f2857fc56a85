// What a version store means (specs/Plain.antt, and the trait in `store`), that its reading is sequential
// (specs/Sequential.antt, on the contracts in `play`), and what stores that keep a table of versions share.
#![tactic(auto)]

mod class_set;
mod order;
mod play;
mod processor;
mod processor_list;
mod refusal;
mod sharers;
mod store;
mod tasks;
mod turn;
mod version;
mod written;

pub use class_set::ClassSet;
pub use order::Order;
pub use play::{AnswersFull, play_turn, play_turns, refusals_rise, worked_runs_hold};
pub use processor::{Class, Processor};
pub use refusal::{Answer, Refusal};
pub use sharers::Sharers;
pub use store::VersionStore;
pub use tasks::TaskTable;
pub use turn::Turn;
pub use version::Version;
pub use written::{WrittenBack, write_back, write_own};
