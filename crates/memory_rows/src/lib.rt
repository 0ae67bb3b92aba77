//! Stores, outlets and names for rows of tests: what is written down in a row, as the stand-ins in memory have it.
#![tactic(auto)]

mod rows;

pub use rows::{has_all, has_none, name_of, no_feed, outlet_of, put, raw_info, store_of};
