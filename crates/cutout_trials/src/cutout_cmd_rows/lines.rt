//! The line of a refusal, of which a front is told where the error output fails.

use super::{Cut, Faults, NO_FAULTS, PLANE, PLANE_CHUNK, WHOLE, check_row};
use command_base::Status;
use std::alloc::Global;
use std::process::Abort;
use std::test::Fail;

const OUTSIDE_LINE: &str = "box [0:3,0:2,0:1] outside [0:2,0:2,0:1]\n";

// By pieces of one byte, this call of the error output failing.
fn check_told(rt: &impl Abort, alloc: Global, call: u64, told: &str) -> Result<(), Fail> {
    let faults = Faults {
        err: &[call],
        piece: 1,
        ..NO_FAULTS
    };
    let cut = Cut {
        part: "[0:3,0:2,0:1]",
        status: Status::RequestRefused,
        out: &[],
        err: told,
        ..WHOLE
    };
    check_row(rt, alloc, &PLANE, PLANE_CHUNK, &faults, &cut)
}

#[test]
fn tells_a_front_of_its_line(rt: HostRuntime) -> Result<(), Fail> {
    for call in 0..40 {
        let told = OUTSIDE_LINE.get(..call as usize).unwrap_or("");
        check_told(&rt, rt.alloc(), call, told)?;
    }
    check_told(&rt, rt.alloc(), 40, OUTSIDE_LINE)
}
