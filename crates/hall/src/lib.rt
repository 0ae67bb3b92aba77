//! Several connections at once: seats that accept and serve ends under two locks, an exit that notes them, and counts that tell
//! how many met a fault of their store.
#![tactic(auto)]

mod host;
mod memory;
mod middle;
mod names;
mod outcome;
mod outside;
mod places;
mod porch;
mod rest;
mod run;
mod seats;
mod turn;

pub use host::PlainExit;
pub use memory::{Doorway, MemoryExit};
pub use middle::Middle;
pub use names::{Cuts, Hall, Nexts};
pub use outcome::{HallEnd, Outcome};
pub use outside::{Entrance, Exit, Parting};
pub use porch::{Guest, Porch};
pub use rest::Left;
pub use run::{Finish, run_hall};
pub use turn::serve_turn;
