// The log of a journal, over any disk: its state in memory, and how format and opening begin it.
#![tactic(auto)]

mod fetching;
mod formatting;
mod look;
mod open;
mod opening;
mod ring;
mod state;
mod steps;
mod updates;

pub use formatting::format;
pub use state::Log;
pub use steps::Step;
