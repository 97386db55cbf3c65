//! A hierarchy as text.
ghost use Rattle.std.specs.Prelude.{◌≡◌, ◌-◌, [], ◌++◌, length, Some, IfOk, OnOk, string_bytes};
ghost use Rattle.std.specs.List.{filter};
ghost use Rattle.zarrs_store.specs.Segments.{is_slash};
ghost use Rattle.zarrs_path.specs.Paths.{IsPath};
ghost use Rattle.zarrs_node.specs.Lines.{line, lines};
ghost use Rattle.zarrs_node.specs.Order.{Ascend};
ghost use Rattle.zarrs_hierarchy.specs.Tree.{IsTreeOf, pairs_below, shown_text};

use crate::hierarchy::Hierarchy;
use std::alloc::{AllocError, Global};
use std::fmt;
use zarrs_meta::NodeMetadata;
use zarrs_node::NodeLine;
use zarrs_path::NodePath;

impl Hierarchy {
    /// The text of the hierarchy from the root on, which is what [`Hierarchy::tree_of`] answers for the root.
    ///
    /// # Errors
    ///
    /// `AllocError` where there is no memory for the text.
    ///
    /// Source: `zarrs::hierarchy::Hierarchy::tree`.
    pub fn tree(&self, alloc: Global) -> Result<String, AllocError>
        ensures tree { IfOk result (λ text. IsTreeOf self.now [] (string_bytes text)) }
        ensures shown { IfOk result (λ text. string_bytes text ≡ shown_text self.now) }
    {
        let _ordered = self.nodes();
        let text = format!(in alloc; "{self}")?;
        Ok(text)
    }

    /// The text of the hierarchy from a path on: the path's text on a line of its own, and a line for each node below the path, in the
    /// order of paths, each indented by two spaces for each name beyond the path. An array's line has its shape and its data type.
    ///
    /// # Errors
    ///
    /// `AllocError` where there is no memory for the text.
    ///
    /// Source: `zarrs::hierarchy::Hierarchy::tree_of`.
    pub fn tree_of(&self, alloc: Global, path: &NodePath) -> Result<String, AllocError>
        ensures tree { IfOk result (λ text. IsTreeOf self.now path.now (string_bytes text)) }
        ensures valid { IsPath path.now }
    {
        let mut text = String::new(alloc);
        text.push_str(path.as_str())?;
        text.push('\n')?;
        self.push_below(&mut text, path)?;
        Ok(text)
    }

    // Adds the lines of the nodes below a path. They stand in one run behind it, since paths are in the order of their names.
    fn push_below(&self, text: &mut String, base: &NodePath) -> Result<(), AllocError>
        ensures lines { OnOk result
            (string_bytes text.new ≡ string_bytes text.old
            ++ lines base.now (pairs_below base.now self.now)) }
        ensures ordered { Ascend self.now }
    {
        let above = depth(base);
        for (path, metadata) in self.behind(base) {
            if !path.is_below(base) {
                return Ok(());
            }
            let line = TreeLine {
                above,
                path,
                metadata,
            };
            write!(text, "{line}")?;
        }
        Ok(())
    }
}

impl fmt::Display for Hierarchy {
    ghost output = { λ hierarchy. Some (shown_text hierarchy) };

    /// Writes the text that [`Hierarchy::tree`] answers.
    fn fmt<W: fmt::Write>(&self, f: &mut fmt::Formatter<W>) -> fmt::Result {
        f.write_str("/\n")?;
        for (path, metadata) in &self.nodes {
            if path.is_root() {
                continue;
            }
            let line = TreeLine {
                above: 0,
                path,
                metadata,
            };
            write!(f, "{line}")?;
        }
        Ok(())
    }
}

// The line of a node in a text whose base has so many names.
#[derive(Clone, Copy)]
pub(crate) struct TreeLine<'a> {
    pub(crate) above: usize,
    pub(crate) path: &'a NodePath,
    pub(crate) metadata: &'a NodeMetadata,
}

impl<'a> fmt::Display for TreeLine<'a> {
    ghost output = { λ l. Some (line (length l.path.now - l.above) l.path.now l.metadata.now) };

    fn fmt<W: fmt::Write>(&self, f: &mut fmt::Formatter<W>) -> fmt::Result {
        let levels = depth(self.path).saturating_sub(self.above);
        for _level in 0..levels {
            f.write_str("  ")?;
        }
        fmt::Display::fmt(&NodeLine::at(self.path, self.metadata), f)
    }
}

/// The number of a path's names: how many levels the path lies below the root.
///
/// Source: own.
pub fn depth(path: &NodePath) -> usize
    ensures { result ≡ length path.now }
{
    if path.is_root() {
        return 0;
    }
    slashes(path.as_str().as_bytes())
}

// The number of slashes of a text.
fn slashes(text: &[u8]) -> usize
    ensures { result ≡ length (filter is_slash text.now) }
{
    text.iter().filter(|byte| **byte == b'/').count()
}
