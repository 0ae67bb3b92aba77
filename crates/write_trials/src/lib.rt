//! Rows of the commands that write and make volumes. They stand here and not in their crates since `rt ci` proves a crate once more
//! for its tests.
#![tactic(auto)]

#[cfg(test)]
mod answers;
#[cfg(test)]
mod generate_cmd_rows;
#[cfg(test)]
mod write_cmd_rows;
