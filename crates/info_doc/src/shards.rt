//! The sharding of a scale.
ghost use Rattle.std.specs.Prelude.{◌≡◌, ◌+◌, ◌≤◌, codes, Some, IfOk, option_map};
ghost use Rattle.serde_json.specs.Find.{get};
ghost use Rattle.serde_json.specs.View.{view};
ghost use Rattle.info_doc.specs.Faults.{judged, unless};
ghost use Rattle.info_doc.specs.Groups.{parts_fault};
ghost use Rattle.info_doc.specs.Info.{judged_parts, judged_sharding};
ghost use Rattle.info_doc.specs.Steps.{is_sharded, only_if, sharding_type_fault, object_fault, preshift_fault, number_in, hash_fault, hash_in, minishard_fault, shard_fault, inner_encoding_fault};

use crate::fault::{InfoFault, Item};
use crate::member::{read_number, read_text};
use serde_json::Value;
use vol_spec::{HashKind, Sharding};

#[tactic(auto, unfolding(crate::specs::Steps::object_fault))]
fn check_object(sharding: &Value) -> Result<(), InfoFault>
    ensures { result ≡ judged (object_fault (Some (view sharding.now))) tt }
{
    if !sharding.is_object() {
        return Err(InfoFault::wrong_kind(Item::Sharding));
    }
    Ok(())
}

#[tactic(auto, unfolding(crate::specs::Steps::sharding_type_fault))]
fn check_type(sharding: &Value) -> Result<(), InfoFault>
    ensures { result ≡ judged (sharding_type_fault (get (codes "@type") (view sharding.now))) tt }
{
    match read_text(sharding.get("@type"), Item::ShardingType)? {
        "neuroglancer_uint64_sharded_v1" => Ok(()),
        _ => Err(InfoFault::bad_value(Item::ShardingType)),
    }
}

#[tactic(auto, unfolding(crate::specs::Steps::preshift_fault))]
fn read_preshift(sharding: &Value) -> Result<u32, InfoFault>
    ensures bits { let m = get (codes "preshift_bits") (view sharding.now) in
        result ≡ judged (preshift_fault m) (number_in m) }
    ensures fits { IfOk result (λ bits. bits ≤ 64) }
{
    let bits = read_number(sharding.get("preshift_bits"), Item::PreshiftBits)?;
    if bits > 64 {
        return Err(InfoFault::bad_value(Item::PreshiftBits));
    }
    Ok(bits as u32)
}

#[tactic(auto, unfolding(crate::specs::Steps::hash_fault))]
fn read_hash(sharding: &Value) -> Result<HashKind, InfoFault>
    ensures { let m = get (codes "hash") (view sharding.now) in result ≡ judged (hash_fault m) (hash_in m) }
{
    match read_text(sharding.get("hash"), Item::Hash)? {
        "identity" => Ok(HashKind::Identity),
        "murmurhash3_x86_128" => Ok(HashKind::Murmur),
        _ => Err(InfoFault::bad_value(Item::Hash)),
    }
}

#[tactic(auto, unfolding(crate::specs::Steps::minishard_fault))]
fn read_minishard_bits(sharding: &Value) -> Result<u32, InfoFault>
    ensures bits { let m = get (codes "minishard_bits") (view sharding.now) in
        result ≡ judged (minishard_fault m) (number_in m) }
    ensures fits { IfOk result (λ bits. bits ≤ 24) }
{
    let bits = read_number(sharding.get("minishard_bits"), Item::MinishardBits)?;
    if bits > 24 {
        return Err(InfoFault::Limit {
            item: Item::MinishardBits,
        });
    }
    Ok(bits as u32)
}

#[tactic(auto, unfolding(crate::specs::Steps::shard_fault))]
fn read_shard_bits(sharding: &Value, minishard_bits: u32) -> Result<u32, InfoFault>
    requires { minishard_bits ≤ 24 }
    ensures bits { let m = get (codes "shard_bits") (view sharding.now) in
        result ≡ judged (shard_fault minishard_bits m) (number_in m) }
    ensures fits { IfOk result (λ bits. minishard_bits + bits ≤ 64) }
{
    let bits = read_number(sharding.get("shard_bits"), Item::ShardBits)?;
    if bits > 64 - u64::from(minishard_bits) {
        return Err(InfoFault::bad_value(Item::ShardBits));
    }
    Ok(bits as u32)
}

#[tactic(auto, unfolding(crate::specs::Steps::inner_encoding_fault))]
fn check_encoding(sharding: &Value, name: &str, item: Item) -> Result<(), InfoFault>
    ensures { result ≡ judged (inner_encoding_fault item (get name.now (view sharding.now))) tt }
{
    let Some(value) = sharding.get(name) else {
        return Ok(());
    };
    match value.as_str() {
        Some("raw") => Ok(()),
        Some("gzip") => Err(InfoFault::Unsupported { item }),
        Some(_) => Err(InfoFault::bad_value(item)),
        None => Err(InfoFault::wrong_kind(item)),
    }
}

// The sharding of an object.
#[tactic(auto, unfolding(crate::specs::Info::judged_parts, crate::specs::Groups::parts_fault))]
fn read_parts(sharding: &Value) -> Result<Sharding, InfoFault>
    ensures { result ≡ judged_parts (Some (view sharding.now)) }
{
    check_object(sharding)?;
    check_type(sharding)?;
    let preshift = read_preshift(sharding)?;
    let hash = read_hash(sharding)?;
    let minishard_bits = read_minishard_bits(sharding)?;
    let shard_bits = read_shard_bits(sharding, minishard_bits)?;
    check_encoding(
        sharding,
        "minishard_index_encoding",
        Item::MinishardIndexEncoding,
    )?;
    check_encoding(sharding, "data_encoding", Item::DataEncoding)?;
    Ok(Sharding {
        preshift,
        hash,
        minishard_bits,
        shard_bits,
    })
}

/// The sharding of a scale. None where it is absent or null.
#[tactic(auto, using(crate::proofs::Parts::sharding_some, crate::proofs::Parts::sharding_none))]
pub(crate) fn read_sharding(scale: &Value) -> Result<Option<Sharding>, InfoFault>
    ensures { result ≡ judged_sharding (get (codes "sharding") (view scale.now)) }
{
    let Some(sharding) = scale.get("sharding") else {
        return Ok(None);
    };
    if sharding.is_null() {
        return Ok(None);
    }
    Ok(Some(read_parts(sharding)?))
}
