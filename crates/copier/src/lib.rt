//! The chunks of a copy of a scale into another layout, read from the source.
#![tactic(auto)]

mod copier;
mod filling;
mod found;
mod frame;
mod marks;
mod placing;
mod reading;
mod twins;

pub use copier::{Copier, put_front, reserve_frames};
pub use found::find_placed;
pub use frame::{JobFrame, OwnChunk};
pub use placing::{Copies, Placing};
pub use reading::{cut_box, fill_up, values_len};
