//! Rows of servers, and of what is read from them. They stand here and not in their crates since `rt ci` proves a crate once more for
//! its tests.
#![tactic(auto)]

#[cfg(test)]
mod hall_rows;
#[cfg(test)]
mod local_store;
#[cfg(test)]
mod meeting_rows;
#[cfg(test)]
mod peer_dial_rows;
#[cfg(test)]
mod range_server_rows;
#[cfg(test)]
mod remote_store_rows;
