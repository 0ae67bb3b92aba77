//! The members of a volume.
ghost use Rattle.std.specs.Prelude.{◌≡◌, ◌≤◌, length, unwrap_or, codes, map, option_map};
ghost use Rattle.std.specs.List.{find};
ghost use Rattle.std.specs.Result.{result_map_both};
ghost use Rattle.serde_json.specs.Data.{null};
ghost use Rattle.serde_json.specs.Find.{get};
ghost use Rattle.serde_json.specs.View.{view};
ghost use Rattle.info_doc.specs.Faults.{judged};
ghost use Rattle.info_doc.specs.Groups.{volume_fault, volume_in};
ghost use Rattle.info_doc.specs.Steps.{root_fault, at_type_fault, type_fault, is_segmentation, is_unread_type, width_of, data_type_fault, width_in, channels_fault, number_in, list_fault, list_in, has_key, scale_of_key, key_fault};

use crate::fault::{InfoFault, Item};
use crate::json::is_like;
use crate::member::{read_list, read_number, read_text};
use serde_json::Value;

/// What the values of a volume are: the bytes of one, and how many channels there are.
#[derive(Clone, Copy)]
pub(crate) struct Volume {
    pub width: u32,
    pub channels: u32,
}

#[tactic(auto, unfolding(crate::specs::Steps::root_fault))]
fn check_root(volume: &Value) -> Result<(), InfoFault>
    ensures { result ≡ judged (root_fault (view volume.now)) tt }
{
    if !volume.is_object() {
        return Err(InfoFault::wrong_kind(Item::Root));
    }
    Ok(())
}

#[tactic(auto, unfolding(crate::specs::Steps::at_type_fault))]
fn check_at_type(volume: &Value) -> Result<(), InfoFault>
    ensures { result ≡ judged (at_type_fault (get (codes "@type") (view volume.now))) tt }
{
    let Some(value) = volume.get("@type") else {
        return Ok(());
    };
    match value.as_str() {
        Some("neuroglancer_multiscale_volume") => Ok(()),
        Some(_) => Err(InfoFault::bad_value(Item::AtType)),
        None => Err(InfoFault::wrong_kind(Item::AtType)),
    }
}

// Whether the volume is a segmentation; else it is an image.
#[tactic(auto, unfolding(crate::specs::Steps::type_fault))]
fn read_type(volume: &Value) -> Result<bool, InfoFault>
    ensures { let m = get (codes "type") (view volume.now) in
        result ≡ judged (type_fault m) (is_segmentation m) }
{
    match read_text(volume.get("type"), Item::VolumeType)? {
        "image" => Ok(false),
        "segmentation" => Ok(true),
        _ => Err(InfoFault::bad_value(Item::VolumeType)),
    }
}

// Whether a type is one of the format that isn't read.
fn is_unread_type(name: &str) -> bool
    ensures { result ≡ is_unread_type name.now }
{
    is_like("float32", name)
        || is_like("int8", name)
        || is_like("int16", name)
        || is_like("int32", name)
        || is_like("int64", name)
}

// The bytes of a value of a type.
#[tactic(auto, unfolding(crate::specs::Steps::width_of))]
fn width_of(name: &str) -> Option<u32>
    ensures { result ≡ width_of name.now }
{
    if is_like("uint8", name) {
        Some(1)
    } else if is_like("uint16", name) {
        Some(2)
    } else if is_like("uint32", name) {
        Some(4)
    } else if is_like("uint64", name) {
        Some(8)
    } else {
        None
    }
}

#[tactic(auto, unfolding(crate::specs::Steps::data_type_fault))]
fn read_width(volume: &Value) -> Result<u32, InfoFault>
    ensures { let m = get (codes "data_type") (view volume.now) in
        result ≡ judged (data_type_fault m) (width_in m) }
{
    let name = read_text(volume.get("data_type"), Item::DataType)?;
    if is_unread_type(name) {
        return Err(InfoFault::Unsupported {
            item: Item::DataType,
        });
    }
    width_of(name).ok_or(InfoFault::bad_value(Item::DataType))
}

#[tactic(auto, unfolding(crate::specs::Steps::channels_fault))]
fn read_channels(volume: &Value, is_segmentation: bool) -> Result<u32, InfoFault>
    ensures { let m = get (codes "num_channels") (view volume.now) in
        result ≡ judged (channels_fault is_segmentation m) (number_in m) }
{
    let channels = read_number(volume.get("num_channels"), Item::NumChannels)?;
    if channels == 0 || is_segmentation && channels != 1 {
        return Err(InfoFault::bad_value(Item::NumChannels));
    }
    if channels > 1024 {
        return Err(InfoFault::Limit {
            item: Item::NumChannels,
        });
    }
    Ok(channels as u32)
}

/// What the values of a volume are.
#[tactic(auto, unfolding(crate::specs::Groups::volume_fault))]
pub(crate) fn read_volume(volume: &Value) -> Result<Volume, InfoFault>
    ensures { let d = view volume.now in result ≡ judged (volume_fault d) (volume_in d) }
{
    check_root(volume)?;
    check_at_type(volume)?;
    let is_segmentation = read_type(volume)?;
    let width = read_width(volume)?;
    let channels = read_channels(volume, is_segmentation)?;
    Ok(Volume { width, channels })
}

/// The scales of a volume.
pub(crate) fn read_scales(volume: &Value) -> Result<&[Value], InfoFault>
    ensures { let m = get (codes "scales") (view volume.now) in
        result_map_both (λ s. map view s.now) (λ e. e) result ≡ judged (list_fault Item.Scales m) (list_in m) }
{
    read_list(volume.get("scales"), Item::Scales)
}

// Whether the value is an object with the key.
fn has_key(scale: &Value, key: &[u8]) -> bool
    ensures { result ≡ has_key key.now (view scale.now) }
{
    match scale.get("key").and_then(Value::as_str) {
        Some(found) => found.as_bytes() == key,
        None => false,
    }
}

fn find_key<'a>(scales: &'a [Value], key: &[u8]) -> Option<&'a Value>
    ensures { option_map (λ v. view v.now) result ≡ find (has_key key.now) (map view scales.now) }
{
    scales.iter().find(|scale| has_key(scale, key))
}

/// The first scale with the key.
#[tactic(auto, unfolding(crate::specs::Steps::scale_of_key, crate::specs::Steps::key_fault))]
pub(crate) fn find_scale<'a>(scales: &'a [Value], key: &[u8]) -> Result<&'a Value, InfoFault>
    requires { length key.now ≤ 200 }
    ensures { let found = scale_of_key key.now (map view scales.now) in
        result_map_both (λ v. view v.now) (λ e. e) result ≡ judged (key_fault found) (unwrap_or found null) }
{
    find_key(scales, key).ok_or(InfoFault::ScaleAbsent)
}
