//! The paths of a plant's files.

ghost use Rattle.std.specs.Prelude.{◌≡◌, IfOk, option_map, string_bytes};
ghost use Rattle.plant_command.specs.Paths.{is_absolute, path_in, record_text};

use cip_types::OutOfMemory;
use std::alloc::Global;

/// A path of a file, which is relative to the folder of that file. OutOfMemory is the only fault.
pub(crate) fn path_beside(alloc: Global, file: &str, path: &str) -> Result<String, OutOfMemory> {
    match file.rsplit_once('/') {
        Some((folder, _)) => path_in(alloc, Some(folder), path),
        None => path_in(alloc, None, path),
    }
}

/// A path that is relative to this folder, or to the one of the program without one. OutOfMemory is the only fault.
fn path_in(alloc: Global, folder: Option<&str>, path: &str) -> Result<String, OutOfMemory>
    ensures { IfOk result (λ text. string_bytes text ≡ path_in (option_map (λ name. name.now) folder.entry) path.now) }
{
    match folder {
        Some(folder) if !is_absolute(path) => Ok(format!(in alloc; "{folder}/{path}")?),
        _ => Ok(format!(in alloc; "{path}")?),
    }
}

/// Whether a path begins at the root.
fn is_absolute(path: &str) -> bool
    ensures { result ≡ is_absolute path.now }
{
    matches!(path.as_bytes(), [b'/', ..])
}

/// The record of a life of a device, whose lives are numbered from 1. OutOfMemory is the only fault.
pub(crate) fn record_path(
    alloc: Global,
    folder: &str,
    name: &str,
    life: u32,
) -> Result<String, OutOfMemory>
    ensures { IfOk result (λ path. string_bytes path ≡ record_text folder.now name.now life) }
{
    Ok(format!(in alloc; "{folder}/{name}.{life}.trace")?)
}
