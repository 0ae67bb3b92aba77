//! Stores of what a peer has.

use memory_rows::name_of;
use remote_store::{Dial, Remote, is_host};
use std::alloc::Global;
use std::test::Fail;

/// A store of the data set `d` over a dial.
pub(super) fn local_store<D: Dial + Drop>(alloc: Global, dial: D) -> Result<Remote<D>, Fail> {
    let dataset = name_of("d")?;
    let host = String::from_str(alloc, "localhost")?;
    if !is_host(host.as_str().as_bytes()) {
        return Err(Fail::from("no host"));
    }
    match Remote::new(alloc, dial, host, 8080, &dataset) {
        Ok(store) => Ok(store),
        Err(_) => Err(Fail::from("no memory")),
    }
}
