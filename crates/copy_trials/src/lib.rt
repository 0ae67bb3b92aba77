//! Rows of the commands that copy, update and reduce volumes. They stand here and not in their crates since `rt ci`
//! proves a crate once more for its tests.
#![tactic(auto)]

#[cfg(test)]
mod answers;
#[cfg(test)]
mod downsample_cmd_rows;
#[cfg(test)]
mod reshard_cmd_rows;
#[cfg(test)]
mod update_cmd_rows;
