//! What a command answers.

use command_base::Status;
use memory_rows::outlet_of;
use std::alloc::Global;
use std::process::Abort;
use std::test::Fail;
use vol_base::MemoryOutlet;

/// An output and an error output.
#[derive(Drop)]
pub(super) struct Outlets {
    pub(super) out: MemoryOutlet,
    pub(super) err: MemoryOutlet,
}

/// Outlets that take at most seven bytes at once; of the calls of the output those with some numbers fail.
pub(super) fn outlets_of(alloc: Global, failing: &[u64]) -> Result<Outlets, Fail> {
    Ok(Outlets {
        out: outlet_of(alloc, 7, failing)?,
        err: outlet_of(alloc, 7, &[])?,
    })
}

/// A command ends with a status, and has printed and told these texts.
pub(super) fn check_answer(
    rt: &impl Abort,
    status: Status,
    outlets: &Outlets,
    wanted: u8,
    texts: [&str; 2],
) {
    let [line, told] = texts;
    assert_eq!(rt; status.number(), wanted, "where is told: {told}");
    let is_printed = outlets.out.written() == line.as_bytes();
    assert!(rt; is_printed, "out, where is told: {told}");
    let is_told = outlets.err.written() == told.as_bytes();
    assert!(rt; is_told, "not told: {told}");
}
