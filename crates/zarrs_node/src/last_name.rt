//! The last name of a path, and whether a path stands directly below another.
ghost use Rattle.std.specs.Prelude.{◌≡◌, ◌↔◌, IsTrue};
ghost use Rattle.zarrs_store.specs.Segments.{last_segment};
ghost use Rattle.zarrs_path.specs.Names.{is_node_name};
ghost use Rattle.zarrs_path.specs.Paths.{IsPath, names_text};
ghost use Rattle.zarrs_node.specs.Forest.{IsChildOf};

use zarrs_path::NodePath;

// The last name of a path, and nothing for the root.
pub(crate) fn last_name(path: &NodePath) -> &str
    ensures name { result.now ≡ last_segment path.now }
    ensures valid { IsPath path.now }
{
    match path.as_str().rsplit_once('/') {
        Some((_, name)) => name,
        None => "",
    }
}

// Whether a path is the base and one name.
pub(crate) fn is_child(base: &NodePath, path: &NodePath) -> bool
    ensures child { IsTrue result ↔ IsChildOf base.now path.now }
    ensures valid { IsPath path.now }
{
    match path.as_str().rsplit_once('/') {
        Some((above, name)) => !name.is_empty() && above == slashed(base),
        None => false,
    }
}

// Each name with a slash before it, which is nothing for the root.
pub(crate) fn slashed(path: &NodePath) -> &str
    ensures text { result.now ≡ names_text path.now }
    ensures valid { IsPath path.now }
{
    let text = path.as_str();
    if path.is_root() { "" } else { text }
}
