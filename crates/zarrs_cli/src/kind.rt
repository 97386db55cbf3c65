//! The kinds of what there is to tell.
ghost use Rattle.std.specs.Prelude.{◌≡◌};
ghost use Rattle.zarrs_cli.specs.Kinds.{is_note_kind, kind_word};

/// The kind of what there is to tell of a path: what is wrong with it or makes a reader go wrong, which is a finding, or what is worth knowing,
/// which is a note.
///
/// Source: own.
/// <https://zarr-specs.readthedocs.io/en/latest/v3/core/index.html#hierarchy>
#[derive(Clone, Copy, Debug, PartialEq, Eq)]
pub enum RemarkKind {
    /// A document is bad, or of the other version.
    BadDocument,
    /// A name is made of periods only.
    BadName,
    /// The path that was asked has no document.
    NoNode,
    /// A path has no document, and nodes below it are not reached.
    Orphaned,
    /// The dimensions of an array do not fit.
    BadShape,
    /// The data type of an array does not have its fill value.
    BadFillValue,
    /// An array has no codecs.
    BadCodecs,
    /// A field of a group must be understood, so readers refuse to open it.
    NotOpened,
    /// The block does not read.
    BadBlock,
    /// A key of the block is no path.
    BadKey,
    /// Two keys of the block stand for one path.
    Shadowed,
    /// A key of the block stands for the group itself.
    OwnKey,
    /// The block has other attributes of its group than the store.
    OwnAttributes,
    /// An entry is not what the store has.
    Differs,
    /// An entry hangs from no group of the block.
    Unreachable,
    /// An entry has no document in the store.
    Stale,
    /// An entry has a document in the store, and no listing comes to it.
    Unreached,
    /// A node has no entry.
    Missing,
    /// An array has a block.
    Misplaced,
    /// A document is not read, since another stands beside it.
    Beside,
    /// The names of two nodes of a group differ in case alone.
    Alike,
    /// A file is of a run of writing that was broken off, or that still writes.
    LeftOver,
}

impl RemarkKind {
    /// The word for the kind.
    ///
    /// Source: own.
    pub(crate) fn word(self) -> &'static str
        ensures { result.now ≡ kind_word self }
    {
        match self {
            RemarkKind::BadDocument => "bad-document",
            RemarkKind::BadName => "bad-name",
            RemarkKind::NoNode => "no-node",
            RemarkKind::Orphaned => "orphaned",
            RemarkKind::BadShape => "bad-shape",
            RemarkKind::BadFillValue => "bad-fill-value",
            RemarkKind::BadCodecs => "bad-codecs",
            RemarkKind::NotOpened => "not-opened",
            RemarkKind::BadBlock => "bad-block",
            RemarkKind::BadKey => "bad-key",
            RemarkKind::Shadowed => "shadowed",
            RemarkKind::OwnKey => "own-key",
            RemarkKind::OwnAttributes => "own-attributes",
            RemarkKind::Differs => "differs",
            RemarkKind::Unreachable => "unreachable",
            RemarkKind::Stale => "stale",
            RemarkKind::Unreached => "unreached",
            RemarkKind::Missing => "missing",
            RemarkKind::Misplaced => "misplaced",
            RemarkKind::Beside => "beside",
            RemarkKind::Alike => "alike",
            RemarkKind::LeftOver => "left-over",
        }
    }

    /// Whether what is of the kind is a note, and no finding.
    ///
    /// Source: own.
    pub(crate) fn is_note(self) -> bool
        ensures { result ≡ is_note_kind self }
    {
        matches!(
            self,
            RemarkKind::Misplaced | RemarkKind::Beside | RemarkKind::Alike | RemarkKind::LeftOver
        )
    }
}
