//! The documents of a node, by their names.
ghost use Rattle.std.specs.Prelude.{◌≡◌, Some};
ghost use Rattle.zarrs_notes.specs.BesideDocuments.{name_of_file};

use std::fmt;

/// A document of a node, or a file that is to take the place of one.
///
/// Source: Zarr core specification 3.1, "Storage keys"; specification version 2, "Metadata", "Groups" and "Attributes".
/// <https://zarr-specs.readthedocs.io/en/latest/v3/core/index.html#storage-keys>
/// <https://zarr-specs.readthedocs.io/en/latest/v2/v2.0.html#metadata>
#[derive(Clone, Copy, Debug, PartialEq, Eq)]
pub enum NodeFile {
    /// `zarr.json`, the document of a version 3 node.
    ZarrJson,
    /// `.zarray`, the document of a version 2 array.
    Zarray,
    /// `.zgroup`, the document of a version 2 group.
    Zgroup,
    /// `.zattrs`, the attributes of a version 2 node.
    Zattrs,
    /// `.zmetadata`, the consolidated block of a version 2 group.
    Zmetadata,
    /// `zarr.json.zarrs_new`, which a run that writes a `zarr.json` leaves where it is broken off, or which it still writes.
    NewZarrJson,
    /// `.zmetadata.zarrs_new`, which a run that writes a `.zmetadata` leaves where it is broken off, or which it still writes.
    NewZmetadata,
}

impl NodeFile {
    /// The name of the document, which is the last segment of its key.
    ///
    /// Source: Zarr core specification 3.1, "Storage keys".
    pub fn name(self) -> &'static str
        ensures { result.now ≡ name_of_file self }
    {
        match self {
            NodeFile::ZarrJson => "zarr.json",
            NodeFile::Zarray => ".zarray",
            NodeFile::Zgroup => ".zgroup",
            NodeFile::Zattrs => ".zattrs",
            NodeFile::Zmetadata => ".zmetadata",
            NodeFile::NewZarrJson => "zarr.json.zarrs_new",
            NodeFile::NewZmetadata => ".zmetadata.zarrs_new",
        }
    }
}

impl fmt::Display for NodeFile {
    ghost output = { λ file. Some (name_of_file file) };

    /// Writes the name.
    fn fmt<W: fmt::Write>(&self, f: &mut fmt::Formatter<W>) -> fmt::Result {
        f.write_str(self.name())
    }
}
