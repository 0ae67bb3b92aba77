//! A feed that makes its bytes from a number.
ghost use Rattle.std.specs.Prelude.{◌≡◌, ◌<◌, ◌≤◌, ◌^◌, Some, IfOk, IfSome, OnErr, IsOk, length, drop};
ghost use Rattle.std.specs.Option.{option_map};
ghost use Rattle.vol_base.specs.Causes.{HasCause};
ghost use Rattle.vol_base.specs.Outside.{Gives};
ghost use Rattle.vectors_vol.specs.Generated.{generated};
ghost use Rattle.vectors_vol.specs.WriteStreams.{stream_of, unless_large};
ghost use Rattle.write_plan.specs.Stream.{writes_of};

use crate::place::Place;
use std::marker::Model;
use vol_base::{Failed, Feed};
use vol_spec::Scale;

/// The stream of a list of writes that is generated from a number, seen as the bytes that are left of it.
/// It takes no memory, and no read fails.
#[derive(Drop)]
pub struct Generator {
    place: Place,
}

impl Model for Generator {
    ghost use Rattle.vol_spec.specs.Types.{Bytes};
    ghost use Rattle.vectors_vol.specs.Places.{left_of};

    ghost Value = { Bytes };

    ghost view = { λ g. left_of g.place };
}

impl Generator {
    /// So many writes to a scale, from a number. A reader of the stream finds the list, or refuses it at the
    /// first write with which the values have more than 2^30 bytes.
    #[tactic(auto, using(crate::proofs::GeneratedSteps::read_stream))]
    pub fn new(scale: &Scale, number: u32, writes: u32) -> Generator
        requires number { number < 2 ^ 31 }
        requires writes { writes ≤ 4096 }
        ensures stream { result ≡ stream_of (generated scale.now number writes) }
        ensures read { writes_of result scale.now ≡ unless_large (generated scale.now number writes) }
    {
        Generator {
            place: Place::new(scale, number, writes),
        }
    }
}

impl Feed for Generator {
    ghost use Rattle.vol_base.specs.Causes.{is_count};

    ghost left = { λ bytes. Some bytes };

    ghost faults = { λ bytes. 0 };

    ghost counts = { λ bytes. is_count 0 };

    fn read(&mut self, out: &mut [u8]) -> Result<usize, Failed>
        requires { 0 < length out.old }
        ensures within { IfOk result (λ n. n ≤ length out.old) }
        ensures read { IfOk result (λ n. IfSome (Some self.old) (Gives n out.new)) }
        ensures left { IfOk result (λ n. Some self.new ≡ option_map (drop n) (Some self.old)) }
        ensures refused { OnErr result (Some self.new ≡ Some self.old) }
        ensures cause { HasCause 0 0 result }
        ensures never { IsOk result }
    {
        Ok(self.place.give(out))
    }
}
