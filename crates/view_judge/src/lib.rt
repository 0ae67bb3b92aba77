//! Judges the further views of a scale of several chunk sizes: whether each says what the first one does.
#![tactic(auto)]

mod boxes;
mod counts;
mod fault;
mod further;
mod joint;
mod judge;
mod regions;
mod report;
mod stored;
mod values;

pub use counts::count_view_cells;
pub use fault::ViewFault;
pub use judge::ViewJudge;
pub use report::ViewsReport;
