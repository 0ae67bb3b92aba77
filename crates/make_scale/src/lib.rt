//! A scale made of another one: judged, and written from chunks that a way of making has.
#![tactic(auto)]

mod fault;
mod judge;
mod lines;
mod making;
mod refusal;
mod report;
mod scale;
mod stored;

pub use fault::MakeFault;
pub use judge::{find_excess, judge_folder};
pub use making::Making;
pub use refusal::MakeRefusal;
pub use scale::make_scale;
pub use stored::make_stored;
