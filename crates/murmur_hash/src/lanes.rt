//! The four lanes of the hash.
ghost use Rattle.std.specs.Prelude.{◌≡◌, ◌<◌, ◌^◌};
ghost use Rattle.vol_spec.specs.Hashes.{all_mixed, hash8, high_keyed, loaded, low_keyed, mixed, stirred};

use std::marker::Model;

// The factors c1, c2 and c3 of the public code.
const FIRST: u32 = 0x239b961b;

const SECOND: u32 = 0xab0e9789;

const THIRD: u32 = 0x38b34ae5;

// The length of the key in bytes.
const KEY_LEN: u32 = 8;

#[derive(Clone, Copy)]
struct Lanes {
    one: u32,
    two: u32,
    three: u32,
    four: u32,
}

impl Model for Lanes {
    ghost use Rattle.vol_spec.specs.Hashes.{Lanes};

    ghost Value = { Lanes };

    ghost view = { λ h. record { one = h.one; two = h.two; three = h.three; four = h.four } };

    ghost inverse = { λ h. record { one = h.one; two = h.two; three = h.three; four = h.four } };
}

fn key_low(word: u32) -> u32
    ensures { result ≡ low_keyed word }
{
    word.wrapping_mul(FIRST)
        .rotate_left(15)
        .wrapping_mul(SECOND)
}

fn key_high(word: u32) -> u32
    ensures { result ≡ high_keyed word }
{
    word.wrapping_mul(SECOND)
        .rotate_left(16)
        .wrapping_mul(THIRD)
}

#[tactic(auto, unfolding(vol_spec::specs::Hashes::loaded))]
fn load(value: u64) -> Lanes
    ensures { result ≡ loaded value }
{
    Lanes {
        one: key_low((value % (1 << 32)) as u32) ^ KEY_LEN,
        two: key_high((value >> 32) as u32) ^ KEY_LEN,
        three: KEY_LEN,
        four: KEY_LEN,
    }
}

#[tactic(auto, unfolding(vol_spec::specs::Hashes::stirred))]
fn stir(h: Lanes) -> Lanes
    ensures { result ≡ stirred h }
{
    let one = h
        .one
        .wrapping_add(h.two)
        .wrapping_add(h.three)
        .wrapping_add(h.four);
    Lanes {
        one,
        two: h.two.wrapping_add(one),
        three: h.three.wrapping_add(one),
        four: h.four.wrapping_add(one),
    }
}

#[tactic(auto, unfolding(vol_spec::specs::Hashes::mixed))]
fn mix(h: u32) -> u32
    ensures { result ≡ mixed h }
{
    let h = (h ^ (h >> 16)).wrapping_mul(0x85ebca6b);
    let h = (h ^ (h >> 13)).wrapping_mul(0xc2b2ae35);
    h ^ (h >> 16)
}

#[tactic(auto, unfolding(vol_spec::specs::Hashes::all_mixed))]
fn mix_all(h: Lanes) -> Lanes
    ensures { result ≡ all_mixed h }
{
    Lanes {
        one: mix(h.one),
        two: mix(h.two),
        three: mix(h.three),
        four: mix(h.four),
    }
}

/// The low eight bytes of MurmurHash3_x86_128, with seed 0, of the eight bytes of a number, the
/// lowest first (precomputed volume format, sharded format; Austin Appleby's public code).
#[tactic(auto, unfolding(vol_spec::specs::Hashes::hash8))]
pub fn hash8(value: u64) -> u64
    ensures { result ≡ hash8 value }
{
    let h = stir(mix_all(stir(load(value))));
    h.one as u64 + ((h.two as u64) << 32)
}

/// The number itself, where ids are not hashed.
pub fn identity(value: u64) -> u64
    ensures { result ≡ value }
{
    value
}
