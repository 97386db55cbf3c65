//! What there is to tell of a node.
ghost use Rattle.std.specs.Fmt.{WritesOnOk};
ghost use Rattle.std.specs.Prelude.{◌≡◌, Some};
ghost use Rattle.zarrs_notes.specs.FindingTexts.{node_finding_text};
ghost use Rattle.zarrs_notes.specs.NodeFindings.{is_note};

use crate::file::NodeFile;
use std::fmt;
use zarrs_form::Text;
use zarrs_path::NodePath;

/// What there is to tell of a node by its own documents. It is a finding, which makes a reader refuse the node, or a note, which is worth
/// knowing. It prints itself as what stands behind the path of the node.
///
/// Source: own.
/// <https://zarr-specs.readthedocs.io/en/latest/v3/core/index.html#array-metadata>
/// <https://zarr-specs.readthedocs.io/en/latest/v3/core/index.html#group-metadata>
#[derive(Debug, Drop)]
pub enum NodeFinding {
    /// A finding: the chunk grid is regular, and has no list of lengths.
    NoLengths,
    /// A finding: the chunk grid has another number of lengths than the shape.
    GridRank {
        /// The number of lengths of a chunk.
        lengths: usize,
        /// The number of lengths of the shape.
        shape: usize,
    },
    /// A finding: a chunk has the length 0.
    ZeroLength,
    /// A finding: there is another number of dimension names than the shape has lengths.
    NameCount {
        /// The number of dimension names.
        names: usize,
        /// The number of lengths of the shape.
        shape: usize,
    },
    /// A finding: the core data type with this name does not have the fill value of the version 3 array.
    FillValue(Text),
    /// A finding: a version 3 array has no codecs.
    NoCodecs,
    /// A finding: the additional field of a group with this name must be understood, so opening the group is refused.
    UnknownField(Text),
    /// A finding: the block of the group at this path must be understood, so opening the group is refused.
    DemandingBlock(NodePath),
    /// A note: an array has a block, which is not read.
    MisplacedBlock,
    /// A note: a document stands beside the one that makes the node, and is not read.
    Beside {
        /// The document that is not read.
        file: NodeFile,
        /// The document that makes the node.
        document: NodeFile,
    },
    /// A note: a file that a run of writing left which was broken off, or that one still writes.
    LeftOver(NodeFile),
}

impl NodeFinding {
    /// Whether it is a note: worth knowing, while the node reads as it did.
    ///
    /// Source: own.
    pub fn is_note(&self) -> bool
        ensures { result ≡ is_note self.now }
    {
        matches!(
            self,
            NodeFinding::MisplacedBlock | NodeFinding::Beside { .. } | NodeFinding::LeftOver(_)
        )
    }
}

impl fmt::Display for NodeFinding {
    ghost output = { λ finding. Some (node_finding_text finding) };

    /// Writes what stands behind the path of the node.
    fn fmt<W: fmt::Write>(&self, f: &mut fmt::Formatter<W>) -> fmt::Result {
        match self {
            NodeFinding::NoLengths => {
                f.write_str("bad shape: a regular chunk grid has no list of lengths")
            }
            NodeFinding::GridRank { lengths, shape } => write_grid_rank(f, *lengths, *shape),
            NodeFinding::ZeroLength => f.write_str("bad shape: a chunk has the length 0"),
            NodeFinding::NameCount { names, shape } => write_name_count(f, *names, *shape),
            NodeFinding::FillValue(data_type) => {
                let data_type = data_type.as_str();
                write!(f, "bad fill value: it is no value of {data_type}")
            }
            NodeFinding::NoCodecs => {
                f.write_str("bad codecs: there is none, and one has to make bytes of a chunk")
            }
            NodeFinding::UnknownField(name) => {
                let name = name.as_str();
                write!(f, "not opened: the field {name} must be understood")
            }
            NodeFinding::DemandingBlock(group) => {
                write!(
                    f,
                    "not opened: the block of {group} has no must_understand false"
                )
            }
            NodeFinding::MisplacedBlock => {
                f.write_str("misplaced: an array has a block, which is not read")
            }
            NodeFinding::Beside { file, document } => {
                write!(
                    f,
                    "beside: {file} is not read, since {document} stands there too"
                )
            }
            NodeFinding::LeftOver(file) => write_left_over(f, file),
        }
    }
}

// Writes what is told of a chunk grid that has another number of lengths than the shape.
fn write_grid_rank<W: fmt::Write>(
    f: &mut fmt::Formatter<W>,
    lengths: usize,
    shape: usize,
) -> fmt::Result
    ensures { WritesOnOk W.write_str_gives f.old result
        (node_finding_text (NodeFinding.GridRank lengths shape)) f.new }
{
    write!(
        f,
        "bad shape: the chunk grid has {lengths} lengths, and the shape has {shape}"
    )
}

// Writes what is told of another number of dimension names than the shape has lengths.
fn write_name_count<W: fmt::Write>(
    f: &mut fmt::Formatter<W>,
    names: usize,
    shape: usize,
) -> fmt::Result
    ensures { WritesOnOk W.write_str_gives f.old result
        (node_finding_text (NodeFinding.NameCount names shape)) f.new }
{
    write!(
        f,
        "bad shape: there are {names} dimension names, and the shape has {shape}"
    )
}

// Writes what is told of a file that a run of writing left.
fn write_left_over<W: fmt::Write>(f: &mut fmt::Formatter<W>, file: &NodeFile) -> fmt::Result
    ensures { WritesOnOk W.write_str_gives f.old result
        (node_finding_text (NodeFinding.LeftOver file.now)) f.new }
{
    write!(
        f,
        "left over: {file} is of a run that was broken off, or that still writes"
    )
}
