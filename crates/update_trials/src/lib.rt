//! Trials of the steps of an update: which shards are written anew, what is kept of an index, and which cells are counted,
//! over a small scale in shards whose objects were written down by hand.
#![tactic(auto)]

#[cfg(test)]
mod cells;
#[cfg(test)]
mod indexes;
#[cfg(test)]
mod shards;
#[cfg(test)]
mod stored;
#[cfg(test)]
mod volume;
