//! A store of one data set of one peer.
ghost use Rattle.std.specs.Prelude.{◌≡◌, [], None, List, ℕ, Option, string_bytes};
ghost use Rattle.remote_store.specs.Dials.{Dialled, DialsOnly};
ghost use Rattle.remote_store.specs.Sent.{SentOnly};
ghost use Rattle.remote_store.specs.Shown.{count_at, shown};

use crate::dial::Dial;
use crate::remote::Remote;
use std::marker::{Brand, PhantomData};
use vol_base::{Failed, Got, Name, Source};

/// A data set of a port of a host, and what had been dialled before.
pub trait Aim {
    ghost host: { List ℕ };

    ghost port: { ℕ };

    ghost dataset: { List ℕ };

    ghost before: { Option Dialled };

    /// All that had been sent, and how often a call had failed.
    ghost sent: { Option (List ℕ) };

    ghost count: { ℕ };
}

impl Aim for Brand {
    ghost host = { [] };

    ghost port = { 0 };

    ghost dataset = { [] };

    ghost before = { None };

    ghost sent = { None };

    ghost count = { 0 };
}

/// A store over HTTP that stays one of this data set of this port of this host, has dialled that port alone, and sent it requests
/// for objects alone.
#[derive(Drop)]
pub struct AimedStore<N: Aim, D: Dial> {
    remote: Remote<D>,
    of: PhantomData<N>,

    ghost host_is: { string_bytes remote.host ≡ N.host },
    ghost port_is: { remote.port ≡ N.port },
    ghost dataset_is: { remote.dataset ≡ N.dataset },
    ghost only: { DialsOnly (N.host, N.port) N.before (D.dialled remote.dial) },
    ghost asks: { SentOnly (N.host, N.port) N.count
        (count_at (shown remote.dataset (D.peer remote.dial)) (D.faults remote.dial) remote.faults)
        N.sent (D.sent remote.dial) },
}

impl<N: Aim, D: Dial> AimedStore<N, D> {
    /// The store itself, which has dialled nothing yet.
    pub fn new(remote: Remote<D>) -> AimedStore<N, D>
        requires host { string_bytes remote.host ≡ N.host }
        requires port { remote.port ≡ N.port }
        requires dataset { remote.dataset ≡ N.dataset }
        requires before { D.dialled remote.dial ≡ N.before }
        requires sent { D.sent remote.dial ≡ N.sent }
        requires count { count_at (shown remote.dataset (D.peer remote.dial)) (D.faults remote.dial) remote.faults
            ≡ N.count }
        ensures { result.remote ≡ remote }
    {
        AimedStore {
            remote,
            of: PhantomData,
        }
    }

    /// The store itself: it is one of this data set, dialled this port of this host alone, and sent it requests for objects
    /// alone.
    pub fn into_remote(self) -> Remote<D>
        ensures remote { result ≡ self.remote }
        ensures host { string_bytes result.host ≡ N.host }
        ensures port { result.port ≡ N.port }
        ensures dataset { result.dataset ≡ N.dataset }
        ensures only { DialsOnly (N.host, N.port) N.before (D.dialled result.dial) }
        ensures asks { SentOnly (N.host, N.port) N.count
            (count_at (shown result.dataset (D.peer result.dial)) (D.faults result.dial) result.faults)
            N.sent (D.sent result.dial) }
    {
        let AimedStore { remote, of: _of } = self;
        remote
    }
}

impl<N: Aim, D: Dial> Source for AimedStore<N, D> {
    ghost use Rattle.std.specs.Prelude.{[], None};
    ghost use Rattle.vol_base.specs.Causes.{counted, is_count};
    ghost use Rattle.remote_store.specs.Shown.{count_at_is};
    ghost use Rattle.remote_store.specs.ShownBytes.{shown_bytes};

    ghost objects = { λ s. shown s.remote.dataset (D.peer s.remote.dial) };

    ghost draft = { λ s. None };

    ghost history = { λ s. [] };

    ghost asked = { λ s. counted s.remote.asked };

    ghost faults = { λ s. count_at (shown s.remote.dataset (D.peer s.remote.dial))
        (D.faults s.remote.dial) s.remote.faults };

    ghost counts = { λ s. (
      is_count s.remote.asked,
      count_at_is (shown s.remote.dataset (D.peer s.remote.dial)) (D.faults s.remote.dial) s.remote.faults
          (D.counts s.remote.dial).1,
    ) };

    ghost bytes = { λ s. shown_bytes s.remote.dataset (D.peer s.remote.dial) (D.plain s.remote.dial) };

    fn size(&mut self, name: &Name) -> Result<Option<u64>, Failed> {
        self.remote.size(name)
    }

    fn read_at(&mut self, name: &Name, at: u64, out: &mut [u8]) -> Result<Got, Failed> {
        self.remote.read_at(name, at, out)
    }
}
