//! Rows of what stores are read and written by: readers of shards and boxes, the judge of an index, rounds, writers, copiers. They
//! stand here and not in their crates since `rt ci` proves a crate once more for its tests.
#![tactic(auto)]

#[cfg(test)]
mod beside_rows;
#[cfg(test)]
mod copier_rows;
#[cfg(test)]
mod cutout_rows;
#[cfg(test)]
mod encode_round_rows;
#[cfg(test)]
mod index_judge_rows;
#[cfg(test)]
mod shard_reader_rows;
#[cfg(test)]
mod shard_writer_rows;
#[cfg(test)]
mod view_writer_rows;
