//! What is said behind the refusal of a name.
ghost use Rattle.std.specs.Prelude.{◌≡◌, IfOk, string_bytes};
ghost use Rattle.zarrs_cli.specs.RefusalLines.{path_rule_text, way_out_text};

use crate::fault::ZarrsFault;
use std::alloc::{AllocError, Global};

/// What a refusal says, and behind it what a path is.
///
/// # Errors
/// `AllocError` where there is no memory for it.
///
/// Source: own; Zarr core specification 3.1, "Paths" and "Node names".
pub(crate) fn path_rule(alloc: Global, fault: &ZarrsFault) -> Result<String, AllocError>
    ensures { IfOk result (λ text. string_bytes text ≡ path_rule_text fault.now) }
{
    format!(in alloc;
        "{fault} (a path is / or names with a slash before each; none is empty, of periods only, or begins with __)"
    )
}

/// What a refusal by a key of the block at a path says, and behind it how the tree is shown without the block.
///
/// # Errors
/// `AllocError` where there is no memory for it.
///
/// Source: own.
pub(crate) fn way_out(alloc: Global, fault: &ZarrsFault, path: &str) -> Result<String, AllocError>
    ensures { IfOk result (λ text. string_bytes text ≡ way_out_text fault.now path.now) }
{
    format!(in alloc;
        "{fault} (a key of the block of {path}; zarrs tree --store goes by the store)"
    )
}
