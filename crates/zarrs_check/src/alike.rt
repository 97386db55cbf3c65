//! Nodes of one group whose names differ in case alone.
ghost use Rattle.std.specs.Prelude.{IfOk, Contains};
ghost use Rattle.zarrs_node.specs.Faults.{PathsAscend};
ghost use Rattle.zarrs_check.specs.Alike.{AreAlikeAmong};
ghost use Rattle.zarrs_check.specs.StepsOfAlike.{IsFolded};

use std::alloc::{AllocError, Global};
use std::collections::HashMap;
use zarrs_path::NodePath;

// Each of these paths whose name is that of another one of its group but for case, with the last such one before it.
pub(crate) fn alike_among(
    alloc: Global,
    paths: &[NodePath],
) -> Result<Vec<(NodePath, NodePath)>, AllocError>
    requires ascending { PathsAscend paths.now }
    ensures { IfOk result (λ found. AreAlikeAmong (Contains paths.now) found.items) }
{
    let mut last = HashMap::new(alloc);
    let mut found = Vec::new(alloc);
    for path in paths {
        if let Some(folded) = folded(alloc, path)? {
            let before = last.insert(folded, path.try_clone(alloc)?)?;
            if let Some(before) = before {
                found.push((path.try_clone(alloc)?, before))?;
            }
        }
    }
    Ok(found)
}

// The path with small letters in place of the capitals from A to Z in its last name; nothing for the root.
fn folded(alloc: Global, path: &NodePath) -> Result<Option<NodePath>, AllocError>
    ensures { IfOk result (IsFolded path.now) }
{
    let Ok(parent) = path.parent(alloc) else {
        return Err(AllocError);
    };
    let Some(parent) = parent else {
        return Ok(None);
    };
    let name = path.to_prefix(alloc)?.name().to_ascii_lowercase(alloc)?;
    match parent.join(alloc, name.as_str()) {
        Ok(folded) => Ok(Some(folded)),
        Err(_) => Err(AllocError),
    }
}
