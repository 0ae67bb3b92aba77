//! Rows of the grid, the formats of chunks, shards and their indexes, and of what a stream of writes plans. They stand
//! here and not in their crates since `rt ci` proves a crate once more for its tests.
#![tactic(auto)]

#[cfg(test)]
mod chunk_grid_rows;
#[cfg(test)]
mod chunk_pool_rows;
#[cfg(test)]
mod compare_values_rows;
#[cfg(test)]
mod equal_values_rows;
#[cfg(test)]
mod minishard_rows;
#[cfg(test)]
mod morton_code_rows;
#[cfg(test)]
mod murmur_hash_rows;
#[cfg(test)]
mod shard_index_rows;
#[cfg(test)]
mod shard_parts_rows;
#[cfg(test)]
mod small_scales_rows;
#[cfg(test)]
mod value_sums_rows;
#[cfg(test)]
mod vectors_vol_rows;
#[cfg(test)]
mod view_judge_rows;
#[cfg(test)]
mod voxel_raw_rows;
#[cfg(test)]
mod write_plan_rows;
