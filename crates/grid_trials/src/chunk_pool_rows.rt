//! Frames that are lent, written and given back.

use chunk_pool::Pool;
use std::test::Fail;

// What is handed to threads.
fn share<T: Send + Sync>(_value: &T) {}

#[test]
fn lends_and_takes_back(rt: HostRuntime) -> Result<(), Fail> {
    let mut pool = Pool::reserve(rt.alloc(), 2, 5)?;
    let first = pool.take().expect(&rt, "a frame");
    let second = pool.take().expect(&rt, "another one");
    assert!(rt; pool.take().is_none());
    pool.give(first);
    let third = pool.take().expect(&rt, "the first one");
    assert!(rt; pool.take().is_none());
    pool.give(second);
    pool.give(third);
    Ok(())
}

#[test]
fn tells_what_is_in_use(rt: HostRuntime) -> Result<(), Fail> {
    let mut pool = Pool::reserve(rt.alloc(), 1, 5)?;
    let mut frame = pool.take().expect(&rt, "a frame");
    assert!(rt; frame.used().is_empty());
    let room = frame.room();
    assert!(rt; room.len() == 5);
    room[0] = 7;
    room[1] = 8;
    frame.set_used(2);
    assert!(rt; frame.used() == [7, 8].as_slice());
    share(&frame);
    Ok(())
}

#[test]
fn lends_no_more_than_reserved(rt: HostRuntime) -> Result<(), Fail> {
    let mut pool = Pool::reserve(rt.alloc(), 0, 5)?;
    assert!(rt; pool.take().is_none());
    Ok(())
}
