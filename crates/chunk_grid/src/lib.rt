//! The grid of a scale's cells: their boxes, walks over those that meet a part, and their names.
#![tactic(auto)]

mod boxes;
mod layout;
mod listing;
mod stored;
mod text;
mod walk;

pub use boxes::{cell_box, cell_of, grid, inside, whole};
pub use layout::{byte_len, local_index};
pub use listing::{cells, count_cells, tell_cells};
pub use stored::tell_stored;
pub use text::{find_folder, object_name};
pub use walk::CellWalk;
