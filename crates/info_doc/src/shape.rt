//! The shape of a scale.
ghost use Rattle.std.specs.Prelude.{◌≡◌, ◌<◌, ◌≤◌, ◌^◌, All, IsTrue, codes, drop, is_some, length, map, option_map, slice_get, Some};
ghost use Rattle.std.specs.List.{list_all, list_any};
ghost use Rattle.std.specs.Result.{result_map_both};
ghost use Rattle.serde_json.specs.Find.{get};
ghost use Rattle.serde_json.specs.View.{view};
ghost use Rattle.info_doc.specs.Faults.{judged};
ghost use Rattle.info_doc.specs.Groups.{shape_fault, shape_in};
ghost use Rattle.info_doc.specs.Json.{triple, whole};
ghost use Rattle.info_doc.specs.Steps.{has_zero, passes, sizes_in, sizes_fault, offset_fault, offsets_in, chunks_fault, is_sharded as is_sharded_in, list_in, resolution_fault};

use crate::fault::{InfoFault, Item};
use crate::json::{
    has_zero, is_three_numbers, passes, passes_either_way, read_signed_triple, read_triple,
};
use crate::member::{read_list, read_sizes};
use serde_json::Value;
use vol_spec::ChunkSizes;

/// The size, the offset and the chunk sizes of a scale, the first one and the others, in voxels, x first.
#[derive(Drop)]
pub(crate) struct Shape {
    pub size: [u64; 3],
    pub offset: [i64; 3],
    pub chunk: [u64; 3],
    pub more: ChunkSizes,
}

fn read_size(scale: &Value) -> Result<[u64; 3], InfoFault>
    ensures { let m = get (codes "size") (view scale.now) in
        result ≡ judged (sizes_fault Item.Size (2 ^ 40) m) (sizes_in m) }
{
    read_sizes(scale.get("size"), Item::Size, 1 << 40)
}

#[tactic(auto, unfolding(crate::specs::Steps::offset_fault))]
fn read_offset(scale: &Value) -> Result<[i64; 3], InfoFault>
    ensures { let m = get (codes "voxel_offset") (view scale.now) in
        result ≡ judged (offset_fault m) (offsets_in m) }
{
    let Some(value) = scale.get("voxel_offset") else {
        return Ok([0; 3]);
    };
    let offset = read_signed_triple(value).ok_or(InfoFault::wrong_kind(Item::VoxelOffset))?;
    if passes_either_way(1 << 40, &offset) {
        return Err(InfoFault::Limit {
            item: Item::VoxelOffset,
        });
    }
    Ok(offset)
}

// Whether an element has a 0.
fn is_empty(value: &Value) -> bool
    ensures { result ≡ has_zero (sizes_in (Some (view value.now))) }
{
    match read_triple(value) {
        Some(sizes) => has_zero(&sizes),
        None => false,
    }
}

fn some_is_empty(list: &[Value]) -> bool
    ensures { result ≡ list_any (λ d. has_zero (sizes_in (Some d))) (map view list.now) }
{
    list.iter().any(is_empty)
}

// Whether an element passes 2^40.
fn is_large(value: &Value) -> bool
    ensures { result ≡ passes (2 ^ 40) (sizes_in (Some (view value.now))) }
{
    match read_triple(value) {
        Some(sizes) => passes(1 << 40, &sizes),
        None => false,
    }
}

fn some_is_large(list: &[Value]) -> bool
    ensures { result ≡ list_any (λ d. passes (2 ^ 40) (sizes_in (Some d))) (map view list.now) }
{
    list.iter().any(is_large)
}

fn is_triple(value: &Value) -> bool
    ensures { result ≡ is_some (triple whole (view value.now)) }
{
    read_triple(value).is_some()
}

fn are_triples(list: &[Value]) -> bool
    ensures { result ≡ list_all (λ d. is_some (triple whole d)) (map view list.now) }
{
    list.iter().all(is_triple)
}

// Whether a scale has a sharding that isn't null.
fn is_sharded(scale: &Value) -> bool
    ensures { result ≡ is_sharded_in (get (codes "sharding") (view scale.now)) }
{
    match scale.get("sharding") {
        Some(sharding) => !sharding.is_null(),
        None => false,
    }
}

// The chunk sizes of a scale, as they stand in the document.
#[tactic(auto, unfolding(crate::specs::Steps::chunks_fault))]
fn read_chunks(scale: &Value) -> Result<&[Value], InfoFault>
    ensures { let m = get (codes "chunk_sizes") (view scale.now) in
        let sharded = is_sharded_in (get (codes "sharding") (view scale.now)) in
        result_map_both (λ s. map view s.now) (λ e. e) result ≡ judged (chunks_fault sharded m) (list_in m) }
{
    let list = read_list(scale.get("chunk_sizes"), Item::ChunkSizes)?;
    if !are_triples(list) {
        return Err(InfoFault::wrong_kind(Item::ChunkSizes));
    }
    if list.is_empty() {
        return Err(InfoFault::bad_value(Item::ChunkSizes));
    }
    if some_is_empty(list) {
        return Err(InfoFault::bad_value(Item::ChunkSizes));
    }
    if some_is_large(list) {
        return Err(InfoFault::Limit {
            item: Item::ChunkSizes,
        });
    }
    if list.len() > 8 {
        return Err(InfoFault::Limit {
            item: Item::ChunkSizes,
        });
    }
    if is_sharded(scale) && list.len() > 1 {
        return Err(InfoFault::Unsupported {
            item: Item::ChunkSizes,
        });
    }
    Ok(list)
}

// Three whole numbers that are there.
fn find_sizes(value: &Value) -> [u64; 3]
    requires { IsTrue (is_some (triple whole (view value.now))) }
    ensures { result ≡ sizes_in (Some (view value.now)) }
{
    match read_triple(value) {
        Some(sizes) => sizes,
        None => unreachable!(),
    }
}

// The first chunk size.
fn find_first(list: &[Value]) -> [u64; 3]
    requires some { 0 < length list.now }
    requires triples { All (λ v. IsTrue (is_some (triple whole (view v)))) list.now }
    ensures { result ≡ sizes_in (slice_get (map view list.now) 0) }
{
    find_sizes(&list[0])
}

// The chunk sizes behind the first one.
fn find_more(list: &[Value]) -> ChunkSizes
    requires some { 0 < length list.now }
    requires few { length list.now ≤ 8 }
    requires triples { All (λ v. IsTrue (is_some (triple whole (view v)))) list.now }
    ensures { result ≡ map (λ d. sizes_in (Some d)) (drop 1 (map view list.now)) }
{
    let mut more = ChunkSizes::none();
    let mut at = 1;
    while at < list.len() {
        more.push(find_sizes(&list[at]));
        at += 1;
    }
    more
}

#[tactic(auto, unfolding(crate::specs::Steps::resolution_fault))]
fn check_resolution(scale: &Value) -> Result<(), InfoFault>
    ensures { result ≡ judged (resolution_fault (get (codes "resolution") (view scale.now))) tt }
{
    let value = scale
        .get("resolution")
        .ok_or(InfoFault::missing(Item::Resolution))?;
    if !is_three_numbers(value) {
        return Err(InfoFault::wrong_kind(Item::Resolution));
    }
    Ok(())
}

/// The shape of a scale.
#[tactic(auto, unfolding(crate::specs::Groups::shape_fault))]
pub(crate) fn read_shape(scale: &Value) -> Result<Shape, InfoFault>
    ensures { let d = view scale.now in result ≡ judged (shape_fault d) (shape_in d) }
{
    let size = read_size(scale)?;
    let offset = read_offset(scale)?;
    let chunks = read_chunks(scale)?;
    check_resolution(scale)?;
    Ok(Shape {
        size,
        offset,
        chunk: find_first(chunks),
        more: find_more(chunks),
    })
}
