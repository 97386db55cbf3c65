//! What is said of a path without a node.
ghost use Rattle.std.specs.Prelude.{◌≡◌, ◌++◌, IfOk, IfSome, codes, string_bytes};
ghost use Rattle.zarrs_path.specs.Paths.{IsPath};
ghost use Rattle.zarrs_cli.specs.RefusalLines as lines;

use std::alloc::{AllocError, Global};
use zarrs_config::MetadataRetrieveVersion;
use zarrs_folder::{Folder, FolderFault, load_base};
use zarrs_node::Node;
use zarrs_path::NodePath;

/// That there is no node at a path of an image.
///
/// # Errors
/// `AllocError` where there is no memory for it.
///
/// Source: own.
pub(crate) fn nowhere_in_image(alloc: Global, path: &str) -> Result<String, AllocError>
    ensures { IfOk result
        (λ text. string_bytes text ≡ lines.nowhere_text path.now (codes "the image")) }
{
    nowhere_text(alloc, path, "the image")
}

/// That there is no node at a path of a folder, and where a store stands in a folder that lies there.
///
/// # Errors
/// Those of the folder.
///
/// Source: own.
#[tactic(auto, using(crate::proofs::FolderNames::stands_below))]
pub(crate) fn nowhere_in_folder<F: Folder>(
    alloc: Global,
    source: &str,
    folder: &mut F,
    path: &str,
) -> Result<String, FolderFault>
    ensures { IfOk result
        (λ text. lines.IsNowhereInFolder source.now path.now (string_bytes text)) }
{
    let none = nowhere_text(alloc, path, source)?;
    match node_below(alloc, folder, path)? {
        Some(below) => {
            let text = with_store(alloc, none.as_str(), folder_name(source), &below)?;
            Ok(text)
        }
        None => Ok(none),
    }
}

// That there is no node at a path of a place.
fn nowhere_text(alloc: Global, path: &str, place: &str) -> Result<String, AllocError>
    ensures { IfOk result
        (λ text. string_bytes text ≡ lines.nowhere_text path.now place.now) }
{
    format!(in alloc; "there is no node at {path} in {place}")
}

// The hint, and behind it where a store stands.
fn with_store(alloc: Global, none: &str, name: &str, below: &NodePath) -> Result<String, AllocError>
    ensures { IfOk result
        (λ text. string_bytes text ≡ none.now ++ lines.store_text name.now below.now) }
{
    format!(in alloc; "{none} (a store stands at {name}{below})")
}

// The folder without the one slash at its end, if it has one.
pub(crate) fn folder_name(source: &str) -> &str
    ensures { lines.IsFolderName source.now result.now }
{
    source.strip_suffix('/').unwrap_or(source)
}

// The path of the first node that stands a level below a path, if there is one.
fn node_below<F: Folder>(
    alloc: Global,
    folder: &mut F,
    path: &str,
) -> Result<Option<NodePath>, FolderFault>
    ensures { IfOk result (λ found. IfSome found IsPath) }
{
    let Ok(path) = NodePath::new(alloc, path) else {
        return Ok(None);
    };
    let prefix = path.to_prefix(alloc)?;
    let mut children = folder.children(alloc, &prefix)?;
    children.sort_unstable();
    for child in children {
        let Ok(path) = NodePath::from_prefix(alloc, &child) else {
            continue;
        };
        if is_node(alloc, folder, &path)? {
            return Ok(Some(path));
        }
    }
    Ok(None)
}

// Whether the documents of a path are those of a node.
fn is_node<F: Folder>(alloc: Global, folder: &mut F, path: &NodePath) -> Result<bool, FolderFault> {
    let store = load_base(alloc, folder, path)?;
    let version = MetadataRetrieveVersion::Default;
    Ok(Node::get_metadata(alloc, &store, path, &version).is_ok())
}
