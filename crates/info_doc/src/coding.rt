//! The encoding of a scale.
ghost use Rattle.std.specs.Prelude.{◌≡◌, ◌^◌, codes, option_map, IfOk};
ghost use Rattle.serde_json.specs.Find.{get};
ghost use Rattle.serde_json.specs.View.{view};
ghost use Rattle.info_doc.specs.Faults.{judged};
ghost use Rattle.info_doc.specs.Groups.{coding_fault, encoding_in};
ghost use Rattle.info_doc.specs.Steps.{sizes_in, encoding_fault, is_seg, block_fault};

use crate::fault::{InfoFault, Item};
use crate::json::is_like;
use crate::member::{read_sizes, read_text};
use serde_json::Value;
use vol_spec::Encoding;

// Whether the encoding is `compressed_segmentation`; else it is `raw`.
#[tactic(auto, unfolding(crate::specs::Steps::encoding_fault))]
fn read_is_seg(scale: &Value, width: u32) -> Result<bool, InfoFault>
    ensures { let m = get (codes "encoding") (view scale.now) in
        result ≡ judged (encoding_fault width m) (is_seg m) }
{
    let name = read_text(scale.get("encoding"), Item::Encoding)?;
    let is_seg = is_like("compressed_segmentation", name);
    if !is_like("raw", name) && !is_seg {
        return Err(InfoFault::Unsupported {
            item: Item::Encoding,
        });
    }
    if is_seg && width != 4 && width != 8 {
        return Err(InfoFault::bad_value(Item::Encoding));
    }
    Ok(is_seg)
}

#[tactic(auto, unfolding(crate::specs::Steps::block_fault))]
fn read_block(scale: &Value) -> Result<[u64; 3], InfoFault>
    ensures { let m = get (codes "compressed_segmentation_block_size") (view scale.now) in
        result ≡ judged (block_fault m) (sizes_in m) }
{
    read_sizes(
        scale.get("compressed_segmentation_block_size"),
        Item::BlockSize,
        1 << 24,
    )
}

/// The encoding of a scale whose values have this width, in bytes.
#[tactic(auto, unfolding(crate::specs::Groups::coding_fault))]
pub(crate) fn read_encoding(scale: &Value, width: u32) -> Result<Encoding, InfoFault>
    ensures { let d = view scale.now in result ≡ judged (coding_fault width d) (encoding_in d) }
{
    if !read_is_seg(scale, width)? {
        return Ok(Encoding::Raw);
    }
    let block = read_block(scale)?;
    Ok(Encoding::Seg { block })
}
