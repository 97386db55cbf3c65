//! Which documents of a path are loaded.

/// Which of the documents of a path are loaded: `zarr.json`, `.zarray`, `.zgroup`, `.zattrs` and `.zmetadata`.
///
/// <https://zarr-specs.readthedocs.io/en/latest/v3/core/index.html#metadata>
/// <https://zarr-specs.readthedocs.io/en/latest/v2/v2.0.html#metadata>
#[derive(Clone, Copy, Debug, PartialEq, Eq)]
pub enum Documents {
    /// Each, as a check looks at them, and what a broken-off writing of a block may have left beside them: `zarr.json.zarrs_new` beside `zarr.json`, and
    /// `.zmetadata.zarrs_new` beside a `.zgroup` where there is neither `zarr.json` nor `.zarray`.
    All,
    /// Those that decide what the path means, as a listing asks them: `zarr.json`; where it is absent, `.zarray` and `.zattrs` too; and where
    /// `.zarray` is absent, `.zgroup` too.
    Deciding,
}
