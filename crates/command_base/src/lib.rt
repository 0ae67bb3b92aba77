//! What the commands of a program have in common: how a command ends, and what is told of that; the scale of a data set
//! and a key; and the lines that several commands print.
#![tactic(auto)]

mod buffers;
mod crew;
mod info;
mod lines;
mod printing;
mod refusal;
mod status;
mod telling;

pub use crew::Crew;
pub use info::read_scale;
pub use lines::{
    write_cells_line, write_damaged_line, write_folder_line, write_info_line, write_large_line,
    write_outside_line, write_sizes_line, write_voxels_line, write_written_line,
};
pub use printing::finish;
pub use refusal::{NoScale, ScaleRefusal};
pub use status::Status;
pub use telling::{Refusal, report, tell, write_why};
