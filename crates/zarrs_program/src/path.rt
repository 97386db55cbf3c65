//! The path that a word names.
ghost use Rattle.std.specs.Prelude.{◌≡◌, IfOk, IfErr};
ghost use Rattle.zarrs_path.specs.Paths.{IsPath, path_text};
ghost use Rattle.zarrs_program.specs.Words.{RefusesPathText};

use std::alloc::Global;
use zarrs_meaning::NodeCreateError;
use zarrs_path::NodePath;

/// The path with this text, as a word of a command names it.
///
/// # Errors
/// `NodePathError` where the text is that of no path, or when out of memory for it.
///
/// Source: Zarr core specification 3.1, "Paths".
pub fn path_of(alloc: Global, text: &str) -> Result<NodePath, NodeCreateError>
    ensures ok { IfOk result (λ path. IsPath path × (path_text path ≡ text.now)) }
    ensures err { IfErr result (RefusesPathText text.now) }
{
    match NodePath::new(alloc, text) {
        Ok(path) => Ok(path),
        Err(e) => Err(NodeCreateError::NodePathError(e)),
    }
}
