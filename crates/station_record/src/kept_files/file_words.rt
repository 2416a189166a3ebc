//! The names of files: what a station calls itself if it is given no name.

ghost use Rattle.std.specs.Prelude.{◌≡◌};
ghost use Rattle.station_record.specs.KeptFiles.FileWords.{name_of, stem_of};

/// The name of a file without its folder and without what follows its last dot. A name whose only dot is its first byte is
/// whole.
pub fn stem_of(path: &str) -> &str
    ensures { result.now ≡ stem_of path.now }
{
    let name = name_of(path);
    match name.rsplit_once('.') {
        Some((stem, _)) if !stem.is_empty() => stem,
        _ => name,
    }
}

/// The name of a file without its folder.
pub fn name_of(path: &str) -> &str
    ensures { result.now ≡ name_of path.now }
{
    match path.rsplit_once('/') {
        Some((_, name)) => name,
        None => path,
    }
}
