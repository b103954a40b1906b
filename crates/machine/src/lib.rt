// The machine: one step, the look at a spent budget, a run.
#![tactic(auto)]

pub mod run; // run.rt: a step and a run

use definitions::{RunState, SavedControl};

// A run's result: how many steps it took, why it stopped, and the saved control after the last.
#[derive(Clone, Copy)]
pub struct Stopped {
    pub steps: u32,
    pub ending: RunState,
    pub control: SavedControl,
}
