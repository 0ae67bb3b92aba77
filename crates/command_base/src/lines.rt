//! The lines that several commands print.
ghost use Rattle.std.specs.Prelude.{◌≡◌, IfOk, string_bytes};
ghost use Rattle.vol_shell.specs.Lines.{folder_line};
ghost use Rattle.command_base.specs.Lines.{cells_line, damaged_line, info_line, large_line, outside_line, sizes_line, voxels_line, written_line};

use std::alloc::{AllocError, Global};
use vol_base::{Box3, Fault, Name};
use vol_shell::{FOLDER_LINE, tell_lines};

/// Why the info document of a data set was refused.
pub fn write_info_line(alloc: Global, dataset: &Name, text: &str) -> Result<Vec<u8>, AllocError>
    ensures { IfOk result (λ line. line.items ≡ info_line dataset.now text.now) }
{
    let mut line = Vec::from_slice(alloc, b"info of ")?;
    line.extend_from_slice(dataset.as_bytes())?;
    line.extend_from_slice(b": ")?;
    line.extend_from_slice(text.as_bytes())?;
    line.extend_from_slice(b"\n")?;
    Ok(line)
}

/// A box that isn't inside its scale.
pub fn write_outside_line(alloc: Global, part: &Box3, whole: &Box3) -> Result<String, AllocError>
    ensures { IfOk result (λ line. string_bytes line ≡ outside_line part.now whole.now) }
{
    format!(in alloc; "box {part} outside {whole}\n")
}

/// A box of more bytes than a cutout has.
pub fn write_large_line(alloc: Global, bytes: u128) -> Result<String, AllocError>
    ensures { IfOk result (λ line. string_bytes line ≡ large_line bytes) }
{
    format!(in alloc; "box too large {bytes}\n")
}

/// A damaged cell.
pub fn write_damaged_line(alloc: Global, cell: [u64; 3], fault: Fault) -> Result<String, AllocError>
    ensures { IfOk result (λ line. string_bytes line ≡ damaged_line cell fault) }
{
    let [x, y, z] = cell;
    format!(in alloc; "damaged {x},{y},{z}: {fault}\n")
}

/// Too many cells that writes or a box meet.
pub fn write_cells_line(alloc: Global, cells: u128) -> Result<String, AllocError>
    ensures { IfOk result (λ line. string_bytes line ≡ cells_line cells) }
{
    format!(in alloc; "too many cells {cells}\n")
}

/// A scale of more padded voxels times channels than are written.
pub fn write_voxels_line(alloc: Global, voxels: u64) -> Result<String, AllocError>
    ensures { IfOk result (λ line. string_bytes line ≡ voxels_line voxels) }
{
    format!(in alloc; "padded voxels {voxels} over 4194304\n")
}

/// A scale of several chunk sizes, where only one of a single size is written.
pub fn write_sizes_line(alloc: Global) -> Result<Vec<u8>, AllocError>
    ensures { IfOk result (λ text. text.items ≡ sizes_line) }
{
    Vec::from_slice(alloc, b"several chunk sizes\n")
}

/// What a writing command prints: how many objects were put, and how many cells they hold.
pub fn write_written_line(alloc: Global, objects: u64, cells: u64) -> Result<String, AllocError>
    ensures { IfOk result (λ line. string_bytes line ≡ written_line objects cells) }
{
    format!(in alloc; "objects {objects} cells {cells}\n")
}

/// That an object stands under the folder that is to be written.
pub fn write_folder_line(alloc: Global) -> Result<Vec<u8>, AllocError>
    ensures { IfOk result (λ text. text.items ≡ folder_line) }
{
    tell_lines();
    Vec::from_slice(alloc, FOLDER_LINE)
}
