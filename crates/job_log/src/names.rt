//! What all values of one log of jobs have in common.
ghost use Rattle.std.specs.Prelude.{ℕ};

use std::marker::{Brand, PhantomData};
use std::sync::ledger::Ledger;

/// A log's name: how many jobs there are, and for how many entries its lists have room. As a ledger it counts
/// the claims.
pub trait Naming: Ledger {
    ghost jobs: { ℕ };

    ghost room: { ℕ };

    ghost deposits_name: { ℕ };
}

impl Naming for Brand {
    ghost jobs = { 0 };

    ghost room = { 0 };

    ghost deposits_name = { 0 };
}

/// The ledger of a name that counts the deposits.
pub struct Deposits<N: Naming> {
    of: PhantomData<N>,
}

impl<N: Naming> Ledger for Deposits<N> {
    ghost name = { N.deposits_name };

    ghost parts = { N.parts };
}
