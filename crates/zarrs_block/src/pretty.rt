//! The written form of a block in the pretty layout.
ghost use Rattle.std.specs.Prelude.{◌≡◌, ◌++◌, false, IfOk, OnOk, string_bytes};
ghost use Rattle.serde_json.specs.Written.{has_float, members_have_float};
ghost use Rattle.zarrs_form.specs.declared.layout.Layout.TheVariants.{Pretty};
ghost use Rattle.zarrs_form.specs.Layouts.{close_line, pretty_text};
ghost use Rattle.zarrs_form.specs.StepsOfTexts.{entries_text};
ghost use Rattle.zarrs_block.specs.Block.{block_tree, documents};

use crate::consolidated::{ConsolidatedMetadata, ConsolidatedMetadataMetadata};
use std::alloc::{AllocError, Global};
use zarrs_form::{Layout, write_key};
use zarrs_meta::WrittenDocument;

impl ConsolidatedMetadata {
    /// The written form of the block in the pretty layout: two spaces a level, and no newline at the end, for which there is room. It is
    /// written node by node, and no JSON value of the whole is made, nor of a node without additional fields.
    ///
    /// # Errors
    ///
    /// `AllocError` where there is no memory for it.
    ///
    /// Source: own; zarr-python, consolidated metadata of kind `inline`.
    pub fn to_pretty_text(&self, alloc: Global) -> Result<String, AllocError>
        ensures layout { IfOk result (λ text. has_float (block_tree self.now.metadata) ≡ false
            → string_bytes text ≡ pretty_text (block_tree self.now.metadata)) }
    {
        let mut out = String::new(alloc);
        out.push_str("{\n  \"kind\": \"inline\",\n  \"metadata\": {")?;
        write_nodes(alloc, &mut out, &self.metadata)?;
        write_close(&mut out, !self.metadata.is_empty())?;
        out.reserve(32)?;
        out.push_str("},\n  \"must_understand\": false\n}")?;
        let _length = out.len();
        Ok(out)
    }
}

// Appends the documents of nodes, each at its key.
#[tactic(auto, using(crate::proofs::PrettyBlock::entry_pushed))]
fn write_nodes(
    alloc: Global,
    out: &mut String,
    nodes: &ConsolidatedMetadataMetadata,
) -> Result<(), AllocError>
    ensures ok { OnOk result (members_have_float (documents nodes.now) ≡ false
        → string_bytes out.new ≡ string_bytes out.old ++ entries_text false (documents nodes.now)) }
{
    let mut later = false;
    for (key, metadata) in nodes.as_map().iter() {
        write_key(alloc, out, later, Layout::Pretty(2), key.as_str())?;
        metadata.write(alloc, out, Layout::Pretty(2))?;
        later = true;
    }
    Ok(())
}

// Appends a line of its own for the closing bracket, where a node stands before it.
fn write_close(out: &mut String, later: bool) -> Result<(), AllocError>
    ensures ok { OnOk result (string_bytes out.new
        ≡ string_bytes out.old ++ close_line later (Pretty 1)) }
{
    if later { out.push_str("\n  ") } else { Ok(()) }
}
