//! Laws of the definitions.
ghost use Rattle.std.specs.Prelude.{◌≡◌, Ok, IsTrue};
ghost use Rattle.zarrs_meta.specs.Laws.{ReadZarrJsonIsPlainIn};
ghost use Rattle.zarrs_meta.specs.Laws.{WithAttributesIsPlain, WholeReadsTheSame, ReadingNeverLacksMemory};
ghost use Rattle.zarrs_meta.specs.Node.{node_tree, is_plain_node_in, zarr_json_in};
ghost use Rattle.zarrs_meta.specs.NodeDocuments.{is_version_3};
ghost use Rattle.zarrs_meta.specs.declared.node.ZarrJson.TheVariants.{Node};

use crate::node::NodeMetadata;
use zarrs_fault::Numbers;

/// What is written of a version 3 node that is plain in some numbers is that node at the key `zarr.json` where it may hold them.
#[tactic(auto, using(crate::proofs::ZarrJsonLaws::zarr_json_again_in))]
pub fn zarr_json_reads_back_in(numbers: Numbers, node: &NodeMetadata)
    requires version { IsTrue (is_version_3 node.now) }
    requires plain { IsTrue (is_plain_node_in numbers node.now) }
    ensures { zarr_json_in numbers (node_tree node.now) ≡ Ok (Node node.now) }
{}

/// A node that was read at the key `zarr.json` in some numbers is plain in them.
#[tactic(auto, using(crate::proofs::PlainNodes::read_zarr_json_is_plain_in))]
pub fn read_zarr_json_is_plain_in()
    ensures { ReadZarrJsonIsPlainIn }
{}

/// A plain version 2 group or array with plain attributes in place of its own is plain.
pub fn with_attributes_is_plain()
    ensures { WithAttributesIsPlain }
{}

/// What is read where numbers have to be whole is read the same where any may stand.
pub fn whole_reads_the_same()
    ensures { WholeReadsTheSame }
{}

/// No bytes mean out of memory, whatever document they are read as and whatever numbers it may hold.
pub fn reading_never_lacks_memory()
    ensures { ReadingNeverLacksMemory }
{}
