//! Cells of the grid, counted and listed in any order.
#![tactic(auto)]

mod counting;
mod finding;
mod found;

pub use counting::count_ids;
pub use found::FoundCells;
