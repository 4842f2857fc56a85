// Version stores as users see them: the trait and its meaning (crate `versions`), the snooping store (crate `snooping`),
// the central buffer (crate `buffer`), and that the two answer alike.
#![tactic(auto)]

mod alike;

pub use alike::play_on_both;
pub use buffer::CentralBuffer;
pub use snooping::{BusKind, BusReport, Line, LineState, SnoopingStore, Supplier};
pub use versions::{
    Answer, AnswersFull, Refusal, Turn, VersionStore, play_turn, play_turns, refusals_rise,
    worked_runs_hold,
};
