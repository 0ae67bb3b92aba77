//! The copy of a scale into another layout, and the command `reshard` over it.
#![tactic(auto)]

mod command;
mod copying;
mod judge;

pub use command::run_reshard;
pub use copying::reshard;
pub use make_scale::MakeFault as ReshardFault;
