//! The judgement of a whole document.
ghost use Rattle.std.specs.Prelude.{◌≡◌, ◌≢◌, ◌⊎◌, ◌≤◌, length, Some, None, IfOk, IfErr, Ok, Err};
ghost use Rattle.serde_json.specs.View.{view};
ghost use Rattle.info_doc.specs.Info.{scale_in, judged_volume};
ghost use Rattle.info_doc.specs.Json.{tree};

use crate::coding::read_encoding;
use crate::fault::InfoFault;
use crate::limit::check_limits;
use crate::shape::{Shape, read_shape};
use crate::shards::read_sharding;
use crate::volume::{Volume, find_scale, read_scales, read_volume};
use serde_json::Value;
use std::alloc::Global;
use vol_base::Name;
use vol_spec::Scale;

#[tactic(auto, using(crate::proofs::TreeSteps::tree_read, crate::proofs::TreeSteps::tree_unread))]
fn read_tree(alloc: Global, info: &[u8]) -> Result<Value, InfoFault>
    ensures read { IfOk result (λ v. tree info.now ≡ Some (view v)) }
    ensures unread { result ≡ Err InfoFault.NotJson → tree info.now ≡ None }
    ensures faults { IfErr result (λ e. (e ≡ InfoFault.NotJson) ⊎ (e ≡ InfoFault.OutOfMemory)) }
{
    match Value::from_slice(alloc, info) {
        Ok(value) => Ok(value),
        Err(error) if error.is_memory() => Err(InfoFault::OutOfMemory),
        Err(_) => Err(InfoFault::NotJson),
    }
}

#[tactic(auto, unfolding(crate::specs::Info::judged_volume))]
fn judge(volume: &Value, key: &Name) -> Result<Scale, InfoFault>
    requires { length key.now ≤ 200 }
    ensures { result ≡ judged_volume key.now (view volume.now) }
{
    let values = read_volume(volume)?;
    let scales = read_scales(volume)?;
    let scale = find_scale(scales, key.as_bytes())?;
    let shape = read_shape(scale)?;
    let encoding = read_encoding(scale, values.width)?;
    let sharding = read_sharding(scale)?;
    check_limits(values, &shape, &encoding, sharding.is_some())?;
    let Volume { width, channels } = values;
    let Shape {
        size,
        offset,
        chunk,
        more,
    } = shape;
    Ok(Scale {
        key: key.duplicate(),
        width,
        channels,
        size,
        offset,
        chunk,
        encoding,
        sharding,
        more,
    })
}

/// The scale of an info document that has the key, or the first fault of the document.
#[tactic(auto, unfolding(crate::specs::Info::scale_in))]
pub fn scale_of(alloc: Global, info: &[u8], key: &Name) -> Result<Scale, InfoFault>
    requires { length key.now ≤ 200 }
    ensures { result ≢ Err InfoFault.OutOfMemory → result ≡ scale_in info.now key.now }
{
    if info.len() > 1 << 20 {
        return Err(InfoFault::TooLong);
    }
    let volume = read_tree(alloc, info)?;
    judge(&volume, key)
}
