//! The paths whose documents are bad.
ghost use Rattle.std.specs.Prelude.{◌≡◌, ◌↔◌, IsTrue, Contains};
ghost use Rattle.zarrs_check.specs.Apart.{AreApart};
ghost use Rattle.zarrs_check.specs.Findings.{IsSpoilt};

use std::marker::Model;
use zarrs_meaning::NodeCreateError;
use zarrs_path::NodePath;

/// Paths whose documents are bad, each with its error, in the order of paths. None of them is below another.
///
/// Contracts see the list of the paths with their errors.
///
/// Source: own.
/// <https://zarr-specs.readthedocs.io/en/latest/v3/core/index.html#metadata>
#[derive(Debug, Drop)]
pub struct BadDocuments {
    entries: Vec<(NodePath, NodeCreateError)>,
}

impl Model for BadDocuments {
    ghost use Rattle.std.specs.Prelude.{List, ℕ};
    ghost use Rattle.std.specs.Coded.{codes, coded_list, coded×, coded_ℕ};
    ghost use Rattle.zarrs_meaning.specs.declared.node_create_error.NodeCreateError.{NodeCreateError};
    ghost use Rattle.zarrs_meaning.specs.contracts.node_create_error.NodeCreateError as e;
    ghost use Rattle.zarrs_check.specs.Apart.{AreApart};

    ghost Value = { List (List (List ℕ) × NodeCreateError) };

    ghost coded = { coded_list (coded× (coded_list (coded_list coded_ℕ)) (Prim.hlevel (codes, e.the_row.coded))) };

    ghost view = { λ a. a.entries.items };

    ghost invariant = { λ a. AreApart a.entries.items };
}

impl BadDocuments {
    // The paths with their errors.
    pub(crate) fn new(entries: Vec<(NodePath, NodeCreateError)>) -> BadDocuments
        requires apart { AreApart entries.items }
        ensures { result ≡ entries.items }
    {
        BadDocuments { entries }
    }

    /// The paths with their errors, in the order of paths.
    pub fn as_slice(&self) -> &[(NodePath, NodeCreateError)]
        ensures entries { result.now ≡ self.now }
        ensures apart { AreApart self.now }
    {
        &self.entries
    }

    /// Whether one of the paths is this path or above it.
    pub fn spoils(&self, path: &NodePath) -> bool
        ensures { IsTrue result
            ↔ IsSpoilt (λ q. (e : NodeCreateError) × Contains self.now (q, e)) path.now }
    {
        match self.entries.binary_search_by(|entry| entry.0.cmp(path)) {
            Ok(_place) => true,
            Err(gap) => gap > 0 && path.is_below(&self.entries[gap - 1].0),
        }
    }
}
