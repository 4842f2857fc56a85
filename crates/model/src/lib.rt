// The model as a library for C: a list of commands is carried out on either store over the caller's words. No store lives
// between two calls; include/model.h declares them.
#![tactic(auto)]

mod command;
mod machine;
mod play;
mod refusal;
mod run;

pub use command::{Asked, Command, Reply, UnknownCode};
pub use machine::Machine;
pub use play::{model_play_central, model_play_snooping};
pub use run::{model_central, model_snooping};
