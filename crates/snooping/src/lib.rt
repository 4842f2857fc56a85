// The snooping store: each processor has a cache of its own, and a bus keeps the caches in order.
#![tactic(auto)]

mod cache;
mod caches;
mod line;
mod report;
mod state;
mod store;

pub use line::Line;
pub use report::{BusKind, BusReport, Supplier};
pub use state::LineState;
pub use store::SnoopingStore;
