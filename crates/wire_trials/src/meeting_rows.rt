//! Peers whose requests wait for each other: they are served side by side, and not one after the other.
ghost use Rattle.std.specs.Prelude.{◌≡◌, IfOk, IsSome, None, length};
ghost use Rattle.vol_base.specs.Peers.{IsFresh};

use hall::{Doorway, Entrance, HallEnd, MemoryExit, run_hall};
use memory_rows::{name_of, store_of};
use std::alloc::Global;
use std::sync::atomic::{AtomicU64, Ordering};
use std::test::Fail;
use std::thread;
use vol_base::{Failed, FreeGate, Got, MemoryDoor, MemoryLink, MemoryStore, Name, Source};

const OBJECTS: &[(&str, &[u8])] = &[("d/s/x", b"0123456789")];

const ASK: &[u8] = b"GET /s/x HTTP/1.1\r\nHost: a\r\n\r\n";

const REPLY: &[u8] =
    b"HTTP/1.1 200 OK\r\nContent-Length: 10\r\nContent-Type: application/octet-stream\r\nAccept-Ranges: bytes\r\nAccess-Control-Allow-Origin: *\r\n\r\n0123456789";

// How many turns a store waits at most, each with a yield.
const TURNS: u64 = 10_000_000;

// Where stores meet: how many are wanted, how many came, and how many left before all had come.
#[derive(Drop)]
struct Meeting {
    wanted: u64,
    came: AtomicU64,
    left: AtomicU64,
}

impl Meeting {
    fn of(wanted: u64) -> Meeting {
        Meeting {
            wanted,
            came: AtomicU64::new(0),
            left: AtomicU64::new(0),
        }
    }

    // Comes, and waits for the others.
    fn join(&self) {
        self.came.fetch_add(1, Ordering::SeqCst);
        for _ in 0..TURNS {
            if self.came.load(Ordering::SeqCst) >= self.wanted {
                return;
            }
            thread::yield_now();
        }
        self.left.fetch_add(1, Ordering::SeqCst);
    }

    // As many came as are wanted, and none left before the others had come.
    fn was_held(&self) -> bool {
        self.came.load(Ordering::SeqCst) == self.wanted && self.left.load(Ordering::SeqCst) == 0
    }
}

// A store whose calls for a length join a meeting.
#[derive(Drop)]
struct MeetingStore<'a, S: Source> {
    inner: S,
    meeting: &'a Meeting,
}

impl<'a, S: Source> Source for MeetingStore<'a, S> {
    ghost objects = { λ s. S.objects s.inner };

    ghost draft = { λ s. S.draft s.inner };

    ghost history = { λ s. S.history s.inner };

    ghost asked = { λ s. S.asked s.inner };

    ghost faults = { λ s. S.faults s.inner };

    ghost counts = { λ s. S.counts s.inner };

    ghost bytes = { λ s. S.bytes s.inner };

    fn size(&mut self, name: &Name) -> Result<Option<u64>, Failed> {
        self.meeting.join();
        self.inner.size(name)
    }

    fn read_at(&mut self, name: &Name, at: u64, out: &mut [u8]) -> Result<Got, Failed> {
        self.inner.read_at(name, at, out)
    }
}

// A peer's end.
fn link_of(alloc: Global) -> Result<MemoryLink, Fail>
    ensures { IfOk result IsFresh }
{
    match MemoryLink::new(alloc, ASK.to_vec(alloc)?, 1024, 64, Vec::new(alloc)) {
        Ok(link) => Ok(link),
        Err(_) => Err("memory".into()),
    }
}

// A door where four peers wait.
fn door_of(alloc: Global) -> Result<MemoryDoor, Fail>
    ensures { IfOk result (λ door. door.bound ≡ None) }
{
    let first = link_of(alloc)?;
    let second = link_of(alloc)?;
    let third = link_of(alloc)?;
    let ends = Vec::from_array(alloc, [first, second, third, link_of(alloc)?])?;
    match MemoryDoor::new(alloc, ends, Vec::new(alloc)) {
        Ok(door) => Ok(door),
        Err(_) => Err("memory".into()),
    }
}

// The same as an entrance that listens.
fn entrance_of(alloc: Global) -> Result<Doorway<MemoryDoor>, Fail>
    ensures { IfOk result (λ entrance. IsSome entrance.door.bound) }
{
    let mut entrance = Doorway::new(door_of(alloc)?);
    match entrance.listen(80) {
        Ok(_) => Ok(entrance),
        Err(_) => Err("the port is free".into()),
    }
}

fn stores_of<'a>(
    alloc: Global,
    meeting: &'a Meeting,
) -> Result<Vec<MeetingStore<'a, MemoryStore>>, Fail>
    ensures { IfOk result (λ stores. length stores.items ≡ 16) }
{
    let mut stores = Vec::new(alloc);
    for _i in 0..16u32 {
        let inner = store_of(alloc, OBJECTS, &[])?;
        stores.push(MeetingStore { inner, meeting })?;
    }
    Ok(stores)
}

// Four workers serve four peers, of which each gets the whole reply while all others wait for theirs.
#[test]
fn serves_peers_side_by_side(rt: HostRuntime) -> Result<(), Fail> {
    let alloc = rt.alloc();
    let meeting = Meeting::of(4);
    let entrance = entrance_of(alloc)?;
    let stores = stores_of(alloc, &meeting)?;
    let dataset = name_of("d")?;
    let Ok(exit) = MemoryExit::new(alloc, 4) else {
        return Err("memory".into());
    };
    let finish = run_hall(
        &rt, alloc, entrance, exit, stores, &dataset, 4, 4, &FreeGate,
    );
    assert!(rt; finish.end == HallEnd::All);
    assert_eq!(rt; finish.exit.served().len(), 4usize);
    for end in finish.exit.served() {
        assert!(rt; end.1.sent() == REPLY);
    }
    assert!(rt; meeting.was_held());
    Ok(())
}
