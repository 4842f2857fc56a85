// The central buffer: one store of versions for all four processors.
#![tactic(auto)]

mod buffer;
mod rows;
mod tasks;

pub use buffer::CentralBuffer;
