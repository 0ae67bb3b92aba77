//! Who encodes what a command writes.
ghost use Rattle.std.specs.Prelude.{◌≡◌};

use std::alloc::Global;

/// Who encodes what a command writes, and with which memory: so many workers of a handle, who call a gate.
#[derive(Drop)]
pub struct Crew<'a, R, G> {
    pub rt: &'a R,
    pub alloc: Global,
    pub workers: u32,
    pub gate: &'a G,
}

impl<'a, R, G> Crew<'a, R, G> {
    /// So many workers.
    pub fn of(rt: &'a R, alloc: Global, workers: u32, gate: &'a G) -> Crew<'a, R, G>
        ensures { result.workers ≡ workers }
    {
        Crew {
            rt,
            alloc,
            workers,
            gate,
        }
    }
}
