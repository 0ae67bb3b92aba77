//! Rows of folder_store over real files and files in memory, of pipes over streams of their own and in memory, and of vol_shell over
//! real sockets, and over clocks and a listener of their own. They stand here and not in their crates since `rt ci` proves a crate once more for its tests.
#![tactic(auto)]

#[cfg(test)]
mod accept_rows;
#[cfg(test)]
mod directory_rows;
#[cfg(test)]
mod door_rows;
#[cfg(test)]
mod folder_rows;
#[cfg(test)]
mod link_rows;
#[cfg(test)]
mod stream_rows;
