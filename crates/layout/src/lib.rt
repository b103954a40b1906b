// The saved run as bytes and back.
#![tactic(auto)]

pub mod reading;
pub mod writing;

use definitions::SavedRun;

// What reading a saved run's bytes gives.
#[derive(Clone, Copy)]
pub struct SavedRead {
    pub ok: bool,
    pub saved: SavedRun,
}
