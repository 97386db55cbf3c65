//! What holds of every block. A function with an empty body does nothing, and its contract is the law.
ghost use Rattle.std.specs.Prelude.{◌≡◌, Ok};
ghost use Rattle.zarrs_block.specs.Block.{HasPlainNodesIn, block_of_in, block_tree};
ghost use Rattle.zarrs_block.specs.Laws.{WholeBlocksReadTheSame};
ghost use Rattle.zarrs_block.specs.Zmetadata.{ZmetadataHoldsIn, OneBlockHoldsStoreIn, WrittenHoldsDocuments, WrittenReadsBackIn};

use crate::consolidated::ConsolidatedMetadata;
use zarrs_store::Numbers;

/// What is written of a block of nodes that are plain in these numbers reads in them as that block.
#[tactic(auto, using(crate::proofs::BlockReads::block_again_in))]
pub fn block_reads_back_in(numbers: Numbers, block: &ConsolidatedMetadata)
    requires { HasPlainNodesIn numbers block.now.metadata }
    ensures { block_of_in numbers (block_tree block.now.metadata) ≡ Ok block.now.metadata }
{}

/// So it is where the document may hold these numbers: the block holds what its members are read as where they may hold them.
///
/// Source: zarr-python, consolidated metadata of version 2.
pub fn zmetadata_holds_store_in(numbers: Numbers)
    ensures { ZmetadataHoldsIn numbers }
{}

/// It is the only block that does so: a document whose members are a store in which nothing is bad reads as the block that holds that
/// store and whose keys ascend.
///
/// Source: zarr-python, consolidated metadata of version 2.
pub fn one_block_holds_store_in(numbers: Numbers)
    ensures { OneBlockHoldsStoreIn numbers }
{}

/// What is written of a version 2 group and its block has the documents of each node behind its names, and no others.
#[tactic(auto, using(crate::proofs::ZmetadataDocuments::written_holds_documents))]
pub fn written_holds_documents()
    ensures { WrittenHoldsDocuments }
{}

/// What is written of a version 2 group and a block of nodes of version 2, all plain in these numbers, reads in them as a block with the
/// same entries.
#[tactic(auto, using(crate::proofs::ZmetadataAgain::written_reads_back_in))]
pub fn written_reads_back_in(numbers: Numbers)
    ensures { WrittenReadsBackIn numbers }
{}

/// A block, or a document `.zmetadata`, that is read where numbers have to be whole is read the same whatever numbers may stand.
pub fn whole_blocks_read_the_same()
    ensures { WholeBlocksReadTheSame }
{}
