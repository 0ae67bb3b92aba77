//! Laws of a volume that is stored once for each of several chunk sizes.
#![tactic(auto)]

mod stored;
mod views;

pub use stored::tell_stored_views;
pub use views::tell_views;
