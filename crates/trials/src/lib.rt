//! Trials of the commands `write`, `cutout` and `verify` over one store in memory: what was written last is read back, and is
//! sound.
#![tactic(auto)]

#[cfg(test)]
mod volumes;
#[cfg(test)]
mod writes;
