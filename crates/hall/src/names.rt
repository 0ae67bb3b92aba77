//! What all values of one hall have in common.
ghost use Rattle.std.specs.Prelude.{◌≡◌, ℕ, List, [], Option, None};
ghost use Rattle.vol_base.specs.Outside.{Draft, Objects};

use job_log::Naming;
use std::marker::{Brand, PhantomData};
use std::sync::ledger::Ledger;
use vol_base::Name;

/// A hall's name: the data set, and of each store what it tells of its objects, the object being written and its count of
/// faults, as it was before.
pub trait Hall: Naming {
    ghost dataset: { List ℕ };

    ghost told: { List (Option Objects) };

    ghost drafts: { List (Option Draft) };

    ghost counts: { List ℕ };

    /// The entrance after it listened: its port, how many ends it had given, and its count of faults.
    ghost bound: { Option ℕ };

    ghost accepted: { ℕ };

    ghost count: { ℕ };

    ghost cuts_name: { ℕ };

    ghost nexts_name: { ℕ };
}

impl Hall for Brand {
    ghost dataset = { [] };

    ghost told = { [] };

    ghost drafts = { [] };

    ghost counts = { [] };

    ghost bound = { None };

    ghost accepted = { 0 };

    ghost count = { 0 };

    ghost cuts_name = { 0 };

    ghost nexts_name = { 0 };
}

/// The ledger of a name that counts the ends whose store failed.
pub struct Cuts<N: Hall> {
    of: PhantomData<N>,
}

impl<N: Hall> Ledger for Cuts<N> {
    ghost name = { N.cuts_name };

    ghost parts = { N.parts };
}

/// The ledger of a name that counts the numbers that were given: it has one part.
pub struct Nexts<N: Hall> {
    of: PhantomData<N>,
}

impl<N: Hall> Ledger for Nexts<N> {
    ghost use Rattle.std.specs.Prelude.{ℕ};

    ghost name = { N.nexts_name };

    ghost parts = { 1 };
}

/// What the seats of a hall serve: the objects of a data set, to so many ends.
#[derive(Drop)]
pub struct Order<N: Hall> {
    pub dataset: Name,
    pub total: u64,
    pub of: PhantomData<N>,
    ghost dataset_is: { dataset ≡ N.dataset },
    ghost total_is: { total ≡ N.jobs },
}
