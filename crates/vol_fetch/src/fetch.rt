//! A cutout over HTTP.
ghost use Rattle.std.specs.Prelude.{◌≡◌, ◌≢◌, ◌≤◌, ◌↔◌, ◌+◌, ◌^◌, IfNone, IfOk, IfSome, IsTrue, None, Some, length, map, string_bytes, true};
ghost use Rattle.command_base.specs.Ending.{IsCaused};
ghost use Rattle.command_base.specs.Outlets.{outlets_of};
ghost use Rattle.command_base.specs.Statuses.{refuses};
ghost use Rattle.cutout_cmd.specs.Cutouts.{AsksFor};
ghost use Rattle.remote_store.specs.Dials.{DialsOnly};
ghost use Rattle.remote_store.specs.Hosts.{is_host};
ghost use Rattle.remote_store.specs.Sent.{SentOnly};
ghost use Rattle.remote_store.specs.Shown.{count_at, shown};
ghost use Rattle.vol_base.specs.Causes.{counted};
ghost use Rattle.vol_fetch.specs.Fetches.{Completes, Fetches, IsMade, Untried};
ghost use Rattle.vol_fetch.specs.Words.{fetch_line, first_word};

use crate::words::{Request, first_word, read_words};
use command_base::{Status, tell};
use cutout_cmd::run_cutout;
use remote_store::{Aim, AimedStore, Dial, Remote};
use std::alloc::Global;
use std::marker::Brand;
use vol_base::{Name, OutOfMemory, Outlet};

// The objects of a data set of the peer at a port of a host, as a store that stays that.
fn open_store<N: Aim, D: Dial + Drop>(
    alloc: Global,
    dial: D,
    host: &str,
    port: u16,
    dataset: &Name,
) -> Result<AimedStore<N, D>, OutOfMemory>
    requires named { IsTrue (is_host host.now) }
    requires host { host.now ≡ N.host }
    requires port { port ≡ N.port }
    requires dataset { dataset.now ≡ N.dataset }
    requires before { D.dialled dial ≡ N.before }
    requires sent { D.sent dial ≡ N.sent }
    requires count { count_at (shown dataset.now (D.peer dial)) (D.faults dial) 0 ≡ N.count }
    ensures dial { IfOk result (λ s. s.remote.dial ≡ dial) }
    ensures host { IfOk result (λ s. string_bytes s.remote.host ≡ host.now) }
    ensures port { IfOk result (λ s. s.remote.port ≡ port) }
    ensures dataset { IfOk result (λ s. s.remote.dataset ≡ dataset.now) }
    ensures faults { IfOk result (λ s. s.remote.faults ≡ 0) }
    ensures asked { IfOk result (λ s. s.remote.asked ≡ 0) }
{
    let Ok(name) = String::from_str(alloc, host) else {
        return Err(OutOfMemory);
    };
    match Remote::new(alloc, dial, name, port, dataset) {
        Ok(remote) => Ok(AimedStore::new(remote)),
        Err(OutOfMemory) => Err(OutOfMemory),
    }
}

// A cutout from the objects that are asked for. Where it was tried the store is handed back.
fn fetch_from<N: Aim, D: Dial + Drop, O: Outlet, E: Outlet>(
    alloc: Global,
    words: &[String],
    request: &Request,
    dial: D,
    out: &mut O,
    err: &mut E,
) -> (Status, Option<Remote<D>>)
    requires named { IsTrue (is_host (first_word (map string_bytes words.now))) }
    requires dataset { length request.now.dataset ≤ 200 }
    requires key { length request.now.key ≤ 200 }
    requires host { first_word (map string_bytes words.now) ≡ N.host }
    requires port { request.now.port ≡ N.port }
    requires of { request.now.dataset ≡ N.dataset }
    requires before { D.dialled dial ≡ N.before }
    requires sent { D.sent dial ≡ N.sent }
    requires count { count_at (shown request.now.dataset (D.peer dial)) (D.faults dial) 0 ≡ N.count }
    ensures used { result.0 ≢ Status.Usage }
    ensures untried { IfNone result.1 (Untried result.0
        (outlets_of O.written O.faults E.written E.faults out.old out.new err.old err.new)) }
    ensures cuts { IfSome result.1 (λ remote. Fetches (Some request.now) result.0 (λ r. shown r.dataset (D.peer dial))
        (outlets_of O.written O.faults E.written E.faults out.old out.new err.old err.new)) }
    ensures complete { IfSome result.1 (λ remote. Completes (Some request.now) result.0
        (λ r. shown r.dataset (D.peer dial)) (D.faults dial) (D.faults remote.dial) (O.faults out.old) (O.faults out.new)) }
    ensures causes { IfSome result.1 (λ remote. IfSome (Some request.now) (λ r. IsCaused result.0
        (count_at (shown r.dataset (D.peer dial)) (D.faults dial) 0)
        (count_at (shown r.dataset (D.peer dial)) (D.faults remote.dial) remote.faults)
        (O.faults out.old) (O.faults out.new) (E.faults err.old) (E.faults err.new))) }
    ensures asked { IfSome result.1 (λ remote. IfSome (Some request.now) (λ r. IfSome (shown r.dataset (D.peer dial))
        (λ m. AsksFor m r.dataset r.key r.part 0 (counted remote.asked)))) }
    ensures unread { IfSome result.1 (λ remote. refuses result.0 ≡ true → counted remote.asked ≤ 2 ^ 20 + 1) }
    ensures unprinted { refuses result.0 ≡ true → out.new ≡ out.old }
    ensures dialled { IfSome result.1 (λ remote. DialsOnly (first_word (map string_bytes words.now), request.now.port)
        (D.dialled dial) (D.dialled remote.dial)) }
    ensures sent { IfSome result.1 (λ remote. IfSome (Some request.now) (λ r. SentOnly
        (first_word (map string_bytes words.now), r.port) (count_at (shown r.dataset (D.peer dial)) (D.faults dial) 0)
        (count_at (shown r.dataset (D.peer dial)) (D.faults remote.dial) remote.faults)
        (D.sent dial) (D.sent remote.dial))) }
    ensures made { IfSome result.1 (λ remote. IsMade (Some request.now) (first_word (map string_bytes words.now))
        (string_bytes remote.host) remote.port remote.dataset) }
{
    let mut store = match open_store::<N, D>(
        alloc,
        dial,
        first_word(words),
        request.port,
        &request.dataset,
    ) {
        Ok(store) => store,
        Err(OutOfMemory) => {
            tell(err, Status::NoMemory);
            return (Status::NoMemory, None);
        }
    };
    let status = run_cutout(
        alloc,
        &mut store,
        out,
        err,
        &request.dataset,
        &request.key,
        &request.part,
    );
    (status, Some(store.into_remote()))
}

/// `HOST PORT DATASET KEY BOX`: writes the values of a box of the scale of a key of a data set that a peer serves, as
/// `cutout` writes those of objects that are at hand, and tells a refusal as it does. The store is handed back where there
/// was one: it is one of that data set of that port of that host, dialled that port alone, and sent it requests for objects alone.
pub fn fetch<D: Dial + Drop, O: Outlet, E: Outlet>(
    alloc: Global,
    words: &[String],
    dial: D,
    out: &mut O,
    err: &mut E,
) -> (Status, Option<Remote<D>>)
    ensures usage { result.0 ≡ Status.Usage ↔ (fetch_line (map string_bytes words.now) ≡ None) }
    ensures untried { IfNone result.1 (Untried result.0
        (outlets_of O.written O.faults E.written E.faults out.old out.new err.old err.new)) }
    ensures cuts { IfSome result.1 (λ remote. Fetches (fetch_line (map string_bytes words.now)) result.0
        (λ r. shown r.dataset (D.peer dial))
        (outlets_of O.written O.faults E.written E.faults out.old out.new err.old err.new)) }
    ensures complete { IfSome result.1 (λ remote. Completes (fetch_line (map string_bytes words.now)) result.0
        (λ r. shown r.dataset (D.peer dial)) (D.faults dial) (D.faults remote.dial) (O.faults out.old) (O.faults out.new)) }
    ensures causes { IfSome result.1 (λ remote. IfSome (fetch_line (map string_bytes words.now)) (λ r. IsCaused result.0
        (count_at (shown r.dataset (D.peer dial)) (D.faults dial) 0)
        (count_at (shown r.dataset (D.peer dial)) (D.faults remote.dial) remote.faults)
        (O.faults out.old) (O.faults out.new) (E.faults err.old) (E.faults err.new))) }
    ensures asked { IfSome result.1 (λ remote. IfSome (fetch_line (map string_bytes words.now)) (λ r.
        IfSome (shown r.dataset (D.peer dial)) (λ m. AsksFor m r.dataset r.key r.part 0 (counted remote.asked)))) }
    // A scale or a box that is refused asks for the document alone, and calls no output.
    ensures unread { IfSome result.1 (λ remote. refuses result.0 ≡ true → counted remote.asked ≤ 2 ^ 20 + 1) }
    ensures unprinted { refuses result.0 ≡ true → out.new ≡ out.old }
    ensures dialled { IfSome result.1 (λ remote. IfSome (fetch_line (map string_bytes words.now)) (λ r.
        DialsOnly (first_word (map string_bytes words.now), r.port) (D.dialled dial) (D.dialled remote.dial))) }
    // All that was sent, on whichever connection, is requests for objects, which name the host and the port; each is whole where no
    // call failed.
    ensures sent { IfSome result.1 (λ remote. IfSome (fetch_line (map string_bytes words.now)) (λ r. SentOnly
        (first_word (map string_bytes words.now), r.port) (count_at (shown r.dataset (D.peer dial)) (D.faults dial) 0)
        (count_at (shown r.dataset (D.peer dial)) (D.faults remote.dial) remote.faults)
        (D.sent dial) (D.sent remote.dial))) }
    ensures made { IfSome result.1 (λ remote. IsMade (fetch_line (map string_bytes words.now))
        (first_word (map string_bytes words.now)) (string_bytes remote.host) remote.port remote.dataset) }
{
    let Some(request) = read_words(words) else {
        tell(err, Status::Usage);
        return (Status::Usage, None);
    };
    fetch_from::<Brand, D, O, E>(alloc, words, &request, dial, out, err)
}
