//! Objects as files: a store over any folder whose calls do what those of the system do.
#![tactic(auto)]

mod content;
mod counts;
mod directory;
mod folder;
mod host;
mod memory;
mod puts;

pub use content::Content;
pub use directory::DirStore;
pub use folder::{Folder, Kind, Standing};
pub use host::HostFolder;
pub use memory::{Change, MemoryFile, MemoryFolder};
pub use puts::{Item, put_all, put_into, put_one};
