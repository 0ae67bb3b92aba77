//! Rows of the lowest crates: boxes and faults, segmentation chunks, the info document, words. They stand here and not in their
//! crates since `rt ci` proves a crate once more for its tests.
#![tactic(auto)]

#[cfg(test)]
mod command_line_rows;
#[cfg(test)]
mod info_doc_rows;
#[cfg(test)]
mod segment_blocks_rows;
#[cfg(test)]
mod vol_base_rows;
