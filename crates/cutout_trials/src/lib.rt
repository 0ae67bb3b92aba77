//! Rows of the commands that cut out, judge and serve. They stand here and not in their crates since `rt ci` proves a crate once more
//! for its tests.
#![tactic(auto)]

#[cfg(test)]
mod cutout_cmd_rows;
#[cfg(test)]
mod serve_cmd_rows;
#[cfg(test)]
mod shards;
#[cfg(test)]
mod verify_cmd_rows;
