//! Writes the objects of a volume once for each of its chunk sizes.
#![tactic(auto)]

mod chunks;
mod done;
mod pairs;
mod view;
mod views;

pub use done::ViewsRefusal;
pub use pairs::{count_pairs, find_many, find_wide};
pub use views::write_views;
