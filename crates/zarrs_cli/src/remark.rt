//! What there is to tell of a path, and its order.
ghost use Rattle.std.specs.Prelude.{◌≡◌};
ghost use Rattle.std.specs.Cmp.Lexicographic.{slice_cmp};
ghost use Rattle.std.specs.List.{slice_split};
ghost use Rattle.std.specs.Option.{option_cmp};
ghost use Rattle.std.specs.Ordering.{nat_cmp};
ghost use Rattle.zarrs_store.specs.Segments.{bytes_cmp, is_slash};
ghost use Rattle.zarrs_path.specs.Paths.{path_cmp};
ghost use Rattle.zarrs_cli.specs.Report.{remark_cmp};

use crate::kind::RemarkKind;
use std::cmp::Ordering;
use zarrs_form::Text;
use zarrs_path::NodePath;
use zarrs_store::StorePrefix;

/// What there is to tell of a path: its own fault, or what is wrong with the block of a group there.
///
/// Source: own.
/// <https://zarr-specs.readthedocs.io/en/latest/v3/core/index.html#hierarchy>
#[derive(Debug, Drop)]
pub struct Remark {
    /// The path. Its last part may be an invalid name.
    pub path: StorePrefix,
    /// The kind.
    pub kind: RemarkKind,
    /// The group whose block is wrong; `None` if the fault is the path's own.
    pub group: Option<NodePath>,
    /// The wrong key of the block; `None` if no key is wrong.
    pub key: Option<Text>,
    /// What there is to tell.
    pub text: Text,
}

/// The order of remarks: by path, of one path those of no group first and then by group, of one group those of no key first and then by key, of one key
/// by text, and of one text by the word for the kind.
pub(crate) fn cmp_remarks(first: &Remark, second: &Remark) -> Ordering
    ensures { result ≡ remark_cmp first.now second.now }
{
    cmp_paths(&first.path, &second.path)
        .then(cmp_groups(&first.group, &second.group))
        .then(cmp_keys(&first.key, &second.key))
        .then(first.text.as_str().cmp(second.text.as_str()))
        .then(first.kind.word().cmp(second.kind.word()))
}

// The order of two prefixes as paths: `a/b` stands before `a-b`.
fn cmp_paths(first: &StorePrefix, second: &StorePrefix) -> Ordering
    ensures { result ≡ path_cmp first.now second.now }
{
    cmp_by_parts(first.as_str(), second.as_str())
}

// The order of two texts by their parts between slashes.
fn cmp_by_parts(first: &str, second: &str) -> Ordering
    ensures { result
        ≡ slice_cmp (slice_cmp nat_cmp) (slice_split is_slash first.now)
        (slice_split is_slash second.now) }
{
    first.split('/').cmp(second.split('/'))
}

// No group stands before each group, and these stand by their paths.
fn cmp_groups(first: &Option<NodePath>, second: &Option<NodePath>) -> Ordering
    ensures { result ≡ option_cmp path_cmp first.now second.now }
{
    first.cmp(second)
}

// No key stands before each key, and these stand by their bytes.
fn cmp_keys(first: &Option<Text>, second: &Option<Text>) -> Ordering
    ensures { result ≡ option_cmp bytes_cmp first.now second.now }
{
    match (first, second) {
        (None, None) => Ordering::Equal,
        (None, Some(_)) => Ordering::Less,
        (Some(_), None) => Ordering::Greater,
        (Some(first), Some(second)) => first.as_str().cmp(second.as_str()),
    }
}
