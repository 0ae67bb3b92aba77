//! Documents and their answers, worked out by hand from the format.

use info_doc::{InfoFault, Item, What, scale_of};
use std::alloc::{AllocError, Global};
use std::process::Abort;
use std::test::Fail;
use vol_base::Name;

const IMAGE: &str =
    "{\"type\":\"image\",\"data_type\":\"uint8\",\"num_channels\":1,\"scales\":[{\"key\":\"s\",\"size\":[2,2,1],\"chunk_sizes\":[[2,2,1]],\"resolution\":[8,8,40],\"encoding\":\"raw\"}]}";

const SHARDED: &str =
    "{\"type\":\"image\",\"data_type\":\"uint8\",\"num_channels\":1,\"scales\":[{\"key\":\"s\",\"size\":[2,1,1],\"chunk_sizes\":[[1,1,1]],\"resolution\":[8,8,40],\"encoding\":\"raw\",\"sharding\":{\"@type\":\"neuroglancer_uint64_sharded_v1\",\"preshift_bits\":0,\"hash\":\"identity\",\"minishard_bits\":1,\"shard_bits\":0}}]}";

const SEGMENTATION: &str =
    "{\"type\":\"segmentation\",\"data_type\":\"uint32\",\"num_channels\":1,\"scales\":[{\"key\":\"s\",\"size\":[4194304,1,1],\"chunk_sizes\":[[4194304,1,1]],\"resolution\":[8,8,40],\"encoding\":\"compressed_segmentation\",\"compressed_segmentation_block_size\":[1,1,1]}]}";

const LARGE: &str =
    "{\"@type\":\"neuroglancer_multiscale_volume\",\"data_type\":\"uint64\",\"mesh\":\"mesh\",\"num_channels\":1,\"scales\":[{\"chunk_sizes\":[[64,64,64]],\"compressed_segmentation_block_size\":[8,8,8],\"encoding\":\"compressed_segmentation\",\"key\":\"8_8_40\",\"resolution\":[8.0,8.0,40.0],\"sharding\":{\"@type\":\"neuroglancer_uint64_sharded_v1\",\"data_encoding\":\"raw\",\"hash\":\"identity\",\"minishard_bits\":6,\"minishard_index_encoding\":\"raw\",\"preshift_bits\":9,\"shard_bits\":11},\"size\":[4096,4096,1024],\"voxel_offset\":[0,0,0]},{\"chunk_sizes\":[[64,64,64]],\"encoding\":\"compresso\",\"key\":\"16_16_40\",\"resolution\":[16.0,16.0,40.0],\"size\":[2048,2048,1024],\"voxel_offset\":[0,0,0]}],\"type\":\"segmentation\"}";

// What a document is judged to be, in words.
fn answer(alloc: Global, info: &[u8], key: &[u8]) -> Result<String, AllocError> {
    let name = match Name::new(key) {
        Some(name) if key.len() <= 200 => name,
        _ => return String::from_str(alloc, "no key"),
    };
    match scale_of(alloc, info, &name) {
        Ok(_) => String::from_str(alloc, "accepted"),
        Err(fault) => format!(in alloc; "{fault}"),
    }
}

// The answer for a document with a part exchanged.
fn answer_with(
    alloc: Global,
    document: &str,
    key: &[u8],
    old: &str,
    new: &str,
) -> Result<String, AllocError> {
    let Some((before, after)) = document.split_once(old) else {
        return String::from_str(alloc, "no such part");
    };
    let info = format!(in alloc; "{before}{new}{after}")?;
    answer(alloc, info.as_bytes(), key)
}

// A part of a document, what is put in its place, and the answer for what that makes.
type Change = (&'static str, &'static str, &'static str);

// What documents with a part exchanged are judged to be.
fn check_changes(
    rt: &impl Abort,
    alloc: Global,
    document: &str,
    changes: &[Change],
) -> Result<(), Fail> {
    for (old, new, wanted) in changes {
        let found = answer_with(alloc, document, b"s", old, new)?;
        assert!(rt; found.as_str() == *wanted, "{old} {new}: {found}");
    }
    Ok(())
}

const VOLUMES: &[Change] = &[
    ("", "", "accepted"),
    ("{\"type", "{\"@type\":null,\"type", "@type wrong kind"),
    ("{\"type", "{\"@type\":\"volume\",\"type", "@type bad value"),
    (
        "{\"type",
        "{\"@type\":\"neuroglancer_multiscale_volume\",\"mesh\":7,\"type",
        "accepted",
    ),
    (
        "\"type\":\"image\",\"data_type\":\"uint8\"",
        "\"data_type\":\"float32\"",
        "type missing",
    ),
    ("\"image\"", "7", "type wrong kind"),
    ("image", "Image", "type bad value"),
    ("image", "segmentation", "accepted"),
    ("\"data_type\":\"uint8\",", "", "data_type missing"),
    ("\"uint8\"", "8", "data_type wrong kind"),
    ("uint8", "int16", "unsupported data_type"),
    ("uint8", "Float32", "unsupported data_type"),
    ("uint8", "int8", "unsupported data_type"),
    ("uint8", "int32", "unsupported data_type"),
    ("uint8", "INT64", "unsupported data_type"),
    ("uint8", "uint128", "data_type bad value"),
    ("uint8", "UINT8", "accepted"),
    ("uint8", "uint16", "accepted"),
    ("uint8", "uint32", "accepted"),
    ("uint8", "uint64", "accepted"),
    ("\"num_channels\":1,", "", "num_channels missing"),
    (
        "num_channels\":1",
        "num_channels\":1.0",
        "num_channels wrong kind",
    ),
    (
        "num_channels\":1",
        "num_channels\":-1",
        "num_channels wrong kind",
    ),
    (
        "num_channels\":1",
        "num_channels\":0",
        "num_channels bad value",
    ),
    ("num_channels\":1", "num_channels\":1024", "accepted"),
    (
        "num_channels\":1",
        "num_channels\":1025",
        "limit num_channels",
    ),
    (
        "image\",\"data_type\":\"uint8\",\"num_channels\":1",
        "segmentation\",\"data_type\":\"uint8\",\"num_channels\":1025",
        "num_channels bad value",
    ),
    ("\"scales\"", "\"scale\"", "scales missing"),
    (
        "\"scales\":[{",
        "\"scales\":{},\"others\":[{",
        "scales wrong kind",
    ),
    ("\"key\":\"s\"", "\"key\":\"S\"", "scale absent"),
    ("\"key\":\"s\"", "\"key\":7", "scale absent"),
    (
        "\"key\":\"s\"",
        "\"key\":\"s\"},{\"key\":\"s\"",
        "size missing",
    ),
    (
        "{\"key\":\"s\"",
        "7,[\"key\"],{\"key\":7},{\"key\":\"t\"},{\"key\":\"s\"",
        "accepted",
    ),
];

#[test]
fn judges_volumes(rt: HostRuntime) -> Result<(), Fail> {
    check_changes(&rt, rt.alloc(), IMAGE, VOLUMES)
}

const SCALES: &[Change] = &[
    ("\"size\":[2,2,1],", "", "size missing"),
    ("size\":[2,2,1]", "size\":[2,2]", "size wrong kind"),
    ("size\":[2,2,1]", "size\":[2,2,1,1]", "size wrong kind"),
    ("size\":[2,2,1]", "size\":[2,2,-0]", "size wrong kind"),
    ("size\":[2,2,1]", "size\":[2,2,1e0]", "size wrong kind"),
    (
        "size\":[2,2,1]",
        "size\":[2,2,18446744073709551616]",
        "size wrong kind",
    ),
    (
        "size\":[2,2,1]",
        "size\":[2,2,18446744073709551615]",
        "limit size",
    ),
    (
        "size\":[2,2,1]",
        "size\":[2199023255552,0,1]",
        "size bad value",
    ),
    ("size\":[2,2,1]", "size\":[2,2,1099511627776]", "accepted"),
    ("size\":[2,2,1]", "size\":[2,2,1099511627777]", "limit size"),
    (
        "\"raw\"",
        "\"raw\",\"voxel_offset\":null",
        "voxel_offset wrong kind",
    ),
    (
        "\"raw\"",
        "\"raw\",\"voxel_offset\":[0,0,1.5]",
        "voxel_offset wrong kind",
    ),
    (
        "\"raw\"",
        "\"raw\",\"voxel_offset\":[0,0,9223372036854775808]",
        "voxel_offset wrong kind",
    ),
    (
        "\"raw\"",
        "\"raw\",\"voxel_offset\":[0,0,-9223372036854775808]",
        "limit voxel_offset",
    ),
    (
        "\"raw\"",
        "\"raw\",\"voxel_offset\":[0,1099511627777,0]",
        "limit voxel_offset",
    ),
    (
        "\"raw\"",
        "\"raw\",\"voxel_offset\":[-1099511627776,0,1099511627776]",
        "accepted",
    ),
    ("\"chunk_sizes\":[[2,2,1]],", "", "chunk_sizes missing"),
    ("[[2,2,1]]", "7", "chunk_sizes wrong kind"),
    ("[[2,2,1]]", "[2,2,1]", "chunk_sizes wrong kind"),
    ("[[2,2,1]]", "[[0,2,1],[2,2]]", "chunk_sizes wrong kind"),
    ("[[2,2,1]]", "[]", "chunk_sizes bad value"),
    (
        "[[2,2,1]]",
        "[[1099511627777,2,1],[2,0,1]]",
        "chunk_sizes bad value",
    ),
    (
        "[[2,2,1]]",
        "[[2,2,1],[2,2,1099511627777]]",
        "limit chunk_sizes",
    ),
    ("[[2,2,1]]", "[[2,2,1],[2,2,1]]", "accepted"),
    ("[[2,2,1]]", "[[2,2,1],[0,2,1]]", "chunk_sizes bad value"),
    ("[[2,2,1]]", "[[2,2,1],[2,1]]", "chunk_sizes wrong kind"),
    (
        "[[2,2,1]]",
        "[[2,2,1],[2,2,1],[2,2,1],[2,2,1],[2,2,1],[2,2,1],[2,2,1],[1,1,1]]",
        "accepted",
    ),
    (
        "[[2,2,1]]",
        "[[2,2,1],[2,2,1],[2,2,1],[2,2,1],[2,2,1],[2,2,1],[2,2,1],[2,2,1],[1,1,1]]",
        "limit chunk_sizes",
    ),
    (
        "[[2,2,1]]",
        "[[2,2,1],[2,2,1],[2,2,1],[2,2,1],[2,2,1],[2,2,1],[2,2,1],[2,2,1],[0,1,1]]",
        "chunk_sizes bad value",
    ),
    ("[[2,2,1]]", "[[2,2,1099511627776]]", "accepted"),
    ("\"resolution\":[8,8,40],", "", "resolution missing"),
    ("[8,8,40]", "[8,8]", "resolution wrong kind"),
    ("[8,8,40]", "[8,8,\"40\"]", "resolution wrong kind"),
    (
        "[8,8,40],\"encoding\":\"raw\"",
        "[8.0,8e0,40],\"encoding\":\"raw\",\"sharding\":null",
        "accepted",
    ),
    (",\"encoding\":\"raw\"", "", "encoding missing"),
    ("\"raw\"", "7", "encoding wrong kind"),
    ("raw", "jpeg", "unsupported encoding"),
    ("raw", "Raw", "accepted"),
    ("raw", "compressed_segmentation", "encoding bad value"),
    ("\"raw\"", "\"jpeg\",\"encoding\":\"raw\"", "accepted"),
    (
        "\"raw\"",
        "\"raw\",\"encoding\":\"jpeg\"",
        "unsupported encoding",
    ),
    (
        "[2,2,1],\"chunk_sizes\":[[2,2,1]]",
        "[8192,8192,2],\"chunk_sizes\":[[8192,8192,2]]",
        "accepted",
    ),
    (
        "[2,2,1],\"chunk_sizes\":[[2,2,1]]",
        "[8192,8192,3],\"chunk_sizes\":[[8192,8192,3]]",
        "limit chunk_bytes",
    ),
    (
        "[2,2,1],\"chunk_sizes\":[[2,2,1]]",
        "[8192,8192,3],\"chunk_sizes\":[[64,64,1],[8192,8192,2]]",
        "accepted",
    ),
    (
        "[2,2,1],\"chunk_sizes\":[[2,2,1]]",
        "[8192,8192,3],\"chunk_sizes\":[[64,64,1],[8192,8192,2],[8192,8192,3]]",
        "limit chunk_bytes",
    ),
    (
        "[2,2,1],\"chunk_sizes\":[[2,2,1]]",
        "[1099511627776,1099511627776,1099511627776],\"chunk_sizes\":[[1099511627776,1099511627776,1099511627776]]",
        "limit chunk_bytes",
    ),
];

#[test]
fn judges_scales(rt: HostRuntime) -> Result<(), Fail> {
    check_changes(&rt, rt.alloc(), IMAGE, SCALES)
}

const SHARDINGS: &[Change] = &[
    ("", "", "accepted"),
    ("[[1,1,1]]", "[[1,1,1],[2,1,1]]", "unsupported chunk_sizes"),
    (
        "[[1,1,1]],\"resolution\":[8,8,40]",
        "[[1,1,1],[2,1,1]]",
        "unsupported chunk_sizes",
    ),
    (
        "\"chunk_sizes\":[[1,1,1]],",
        "\"chunk_sizes\":[[1,1,1],[2,1,1]],\"sharding\":null,",
        "unsupported chunk_sizes",
    ),
    (
        "\"sharding\":{",
        "\"sharding\":7,\"other\":{",
        "sharding wrong kind",
    ),
    ("\"@type\"", "\"type\"", "sharding @type missing"),
    (
        "\"neuroglancer_uint64_sharded_v1\"",
        "7",
        "sharding @type wrong kind",
    ),
    ("sharded_v1", "sharded_v2", "sharding @type bad value"),
    ("\"preshift_bits\":0,", "", "preshift_bits missing"),
    (
        "preshift_bits\":0",
        "preshift_bits\":-1",
        "preshift_bits wrong kind",
    ),
    ("preshift_bits\":0", "preshift_bits\":64", "accepted"),
    (
        "preshift_bits\":0",
        "preshift_bits\":65",
        "preshift_bits bad value",
    ),
    ("\"hash\":\"identity\",", "", "hash missing"),
    ("\"identity\"", "null", "hash wrong kind"),
    ("identity", "Identity", "hash bad value"),
    ("identity", "murmurhash3_x86_128", "accepted"),
    ("\"minishard_bits\":1,", "", "minishard_bits missing"),
    (
        "minishard_bits\":1",
        "minishard_bits\":\"1\"",
        "minishard_bits wrong kind",
    ),
    ("minishard_bits\":1", "minishard_bits\":24", "accepted"),
    (
        "minishard_bits\":1",
        "minishard_bits\":25",
        "limit minishard_bits",
    ),
    (",\"shard_bits\":0", "", "shard_bits missing"),
    (
        ",\"shard_bits\":0",
        ",\"shard_bits\":0.5",
        "shard_bits wrong kind",
    ),
    (",\"shard_bits\":0", ",\"shard_bits\":63", "accepted"),
    (
        ",\"shard_bits\":0",
        ",\"shard_bits\":64",
        "shard_bits bad value",
    ),
    (
        ",\"shard_bits\":0",
        ",\"shard_bits\":18446744073709551615",
        "shard_bits bad value",
    ),
    (
        "bits\":0}",
        "bits\":0,\"minishard_index_encoding\":null}",
        "minishard_index_encoding wrong kind",
    ),
    (
        "bits\":0}",
        "bits\":0,\"minishard_index_encoding\":\"gzip\"}",
        "unsupported minishard_index_encoding",
    ),
    (
        "bits\":0}",
        "bits\":0,\"minishard_index_encoding\":\"Raw\"}",
        "minishard_index_encoding bad value",
    ),
    (
        "bits\":0}",
        "bits\":0,\"data_encoding\":7}",
        "data_encoding wrong kind",
    ),
    (
        "bits\":0}",
        "bits\":0,\"data_encoding\":\"gzip\"}",
        "unsupported data_encoding",
    ),
    (
        "bits\":0}",
        "bits\":0,\"data_encoding\":\"zip\"}",
        "data_encoding bad value",
    ),
    (
        "bits\":0}",
        "bits\":0,\"data_encoding\":\"raw\",\"minishard_index_encoding\":\"raw\"}",
        "accepted",
    ),
    ("[2,1,1]", "[2199023255552,1,1]", "limit size"),
    ("[2,1,1]", "[1099511627776,1048576,16]", "accepted"),
    ("[2,1,1]", "[1099511627776,1048576,17]", "limit morton_bits"),
    (
        "[2,1,1],\"chunk_sizes\":[[1,1,1]]",
        "[1099511627776,1099511627776,1],\"chunk_sizes\":[[134217729,1,1]]",
        "limit chunk_bytes",
    ),
    (
        "[2,1,1],\"chunk_sizes\":[[1,1,1]]",
        "[1099511627776,1099511627776,1],\"chunk_sizes\":[[134217728,1,1]]",
        "accepted",
    ),
];

#[test]
fn judges_shardings(rt: HostRuntime) -> Result<(), Fail> {
    check_changes(&rt, rt.alloc(), SHARDED, SHARDINGS)
}

const SEGMENTATIONS: &[Change] = &[
    ("", "", "accepted"),
    ("uint32", "uint64", "accepted"),
    ("uint32", "uint16", "encoding bad value"),
    (
        "compressed_segmentation\",",
        "Compressed_Segmentation\",",
        "accepted",
    ),
    (
        ",\"compressed_segmentation_block_size\":[1,1,1]",
        "",
        "compressed_segmentation_block_size missing",
    ),
    (
        "[1,1,1]",
        "[1,1]",
        "compressed_segmentation_block_size wrong kind",
    ),
    (
        "[1,1,1]",
        "[16777217,0,1]",
        "compressed_segmentation_block_size bad value",
    ),
    ("[1,1,1]", "[16777216,1,1]", "accepted"),
    (
        "[1,1,1]",
        "[16777217,1,1]",
        "limit compressed_segmentation_block_size",
    ),
    ("[1,1,1]", "[16777216,16777216,16777216]", "limit padded"),
    (
        "[4194304,1,1],\"chunk_sizes\":[[4194304,1,1]]",
        "[16777216,1,1],\"chunk_sizes\":[[16777216,1,1]]",
        "accepted",
    ),
    (
        "[4194304,1,1],\"chunk_sizes\":[[4194304,1,1]]",
        "[16777217,1,1],\"chunk_sizes\":[[16777217,1,1]]",
        "limit padded",
    ),
    (
        "[4194304,1,1],\"chunk_sizes\":[[4194304,1,1]]",
        "[16777217,1,1],\"chunk_sizes\":[[64,1,1],[16777217,1,1]]",
        "limit padded",
    ),
    (
        "[4194304,1,1],\"chunk_sizes\":[[4194304,1,1]]",
        "[16777217,1,1],\"chunk_sizes\":[[64,1,1],[16777216,1,1]]",
        "accepted",
    ),
    (
        "[4194304,1,1],\"chunk_sizes\":[[4194304,1,1]]",
        "[33554433,1,1],\"chunk_sizes\":[[33554433,1,1]]",
        "limit chunk_bytes",
    ),
];

#[test]
fn judges_segmentations(rt: HostRuntime) -> Result<(), Fail> {
    check_changes(&rt, rt.alloc(), SEGMENTATION, SEGMENTATIONS)
}

// Parts of a document in their order: each with its fault, mended, and the fault's text.
const PARTS: &[Change] = &[
    ("{\"@type\":7,", "{", "@type wrong kind"),
    (
        "\"type\":7,",
        "\"type\":\"segmentation\",",
        "type wrong kind",
    ),
    (
        "\"data_type\":\"int8\",",
        "\"data_type\":\"uint32\",",
        "unsupported data_type",
    ),
    (
        "\"num_channels\":0,",
        "\"num_channels\":1,",
        "num_channels bad value",
    ),
    ("\"scales\":7,\"x\":[", "\"scales\":[", "scales wrong kind"),
    ("{\"key\":\"t\",", "{\"key\":\"s\",", "scale absent"),
    ("\"size\":[0,1,1],", "\"size\":[1,1,1],", "size bad value"),
    ("\"voxel_offset\":7,", "", "voxel_offset wrong kind"),
    (
        "\"chunk_sizes\":[],",
        "\"chunk_sizes\":[[1,1,1]],",
        "chunk_sizes bad value",
    ),
    ("", "\"resolution\":[1,1,1],", "resolution missing"),
    (
        "\"encoding\":\"png\",",
        "\"encoding\":\"compressed_segmentation\",",
        "unsupported encoding",
    ),
    (
        "",
        "\"compressed_segmentation_block_size\":[8,8,8],",
        "compressed_segmentation_block_size missing",
    ),
    (
        "\"sharding\":7,\"y\":{",
        "\"sharding\":{",
        "sharding wrong kind",
    ),
    (
        "\"@type\":7,",
        "\"@type\":\"neuroglancer_uint64_sharded_v1\",",
        "sharding @type wrong kind",
    ),
    (
        "\"preshift_bits\":65,",
        "\"preshift_bits\":0,",
        "preshift_bits bad value",
    ),
    ("\"hash\":7,", "\"hash\":\"identity\",", "hash wrong kind"),
    (
        "\"minishard_bits\":25,",
        "\"minishard_bits\":0,",
        "limit minishard_bits",
    ),
    (
        "\"shard_bits\":65,",
        "\"shard_bits\":0,",
        "shard_bits bad value",
    ),
    (
        "\"minishard_index_encoding\":\"gzip\",",
        "",
        "unsupported minishard_index_encoding",
    ),
    ("\"data_encoding\":7,", "", "data_encoding wrong kind"),
    ("\"end\":0}}]}", "\"end\":0}}]}", "accepted"),
];

// The document of which so many parts are mended.
fn mended_in(alloc: Global, mended: usize) -> Result<String, AllocError> {
    let mut info = String::new(alloc);
    for (i, (bad, good, _)) in PARTS.iter().enumerate() {
        info.push_str(if i < mended { good } else { bad })?;
    }
    Ok(info)
}

// Each step's fault is met only when the ones before are mended.
#[test]
fn judges_in_order(rt: HostRuntime) -> Result<(), Fail> {
    let alloc = rt.alloc();
    for (mended, (_, _, wanted)) in PARTS.iter().enumerate() {
        let info = mended_in(alloc, mended)?;
        let found = answer(alloc, info.as_bytes(), b"s")?;
        assert!(rt; found.as_str() == *wanted, "{mended}: {found}");
    }
    Ok(())
}

// What a document is judged to be for a key.
fn check_answer(
    rt: &impl Abort,
    alloc: Global,
    info: &[u8],
    key: &[u8],
    wanted: &str,
) -> Result<(), Fail> {
    let found = answer(alloc, info, key)?;
    assert!(rt; found.as_str() == wanted, "{wanted}: {found}");
    Ok(())
}

#[test]
fn judges_keys(rt: HostRuntime) -> Result<(), Fail> {
    let alloc = rt.alloc();
    check_answer(&rt, alloc, LARGE.as_bytes(), b"8_8_40", "accepted")?;
    check_answer(
        &rt,
        alloc,
        LARGE.as_bytes(),
        b"16_16_40",
        "unsupported encoding",
    )?;
    check_answer(&rt, alloc, LARGE.as_bytes(), b"x", "scale absent")?;
    let found = answer_with(
        alloc,
        LARGE,
        b"8_8_40",
        "data_encoding\":\"raw",
        "data_encoding\":\"gzip",
    )?;
    assert!(rt; found.as_str() == "unsupported data_encoding");
    Ok(())
}

// A text of the greatest length of a document, and one of a byte more.
fn check_lengths(rt: &impl Abort, alloc: Global) -> Result<(), Fail> {
    let mut info = vec![in alloc; b' '; 1_048_576]?;
    check_answer(rt, alloc, &info, b"s", "not json")?;
    info.push(b' ')?;
    check_answer(rt, alloc, &info, b"s", "too long")
}

#[test]
fn judges_bytes(rt: HostRuntime) -> Result<(), Fail> {
    let alloc = rt.alloc();
    check_answer(&rt, alloc, b"", b"s", "not json")?;
    check_answer(&rt, alloc, b"\"\xff\"", b"s", "not json")?;
    check_answer(&rt, alloc, b"{}}", b"s", "not json")?;
    check_answer(&rt, alloc, b"[]", b"s", "root wrong kind")?;
    check_lengths(&rt, alloc)
}

#[test]
fn prints_faults(rt: HostRuntime) -> Result<(), Fail> {
    let alloc = rt.alloc();
    let missing = InfoFault::Member {
        item: Item::Size,
        what: What::Missing,
    };
    assert!(rt; format!(in alloc; "{missing}")?.as_str() == "size missing");
    Ok(())
}
