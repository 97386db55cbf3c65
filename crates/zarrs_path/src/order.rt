//! Paths print as their text, and are compared and hashed as lists of names.
//! Zarr core specification 3.1, "Paths".
ghost use Rattle.std.specs.Prelude.{◌≡◌, Some, refl};
ghost use Rattle.std.specs.Cmp.Lexicographic.{slice_cmp};
ghost use Rattle.std.specs.List.{slice_split};
ghost use Rattle.std.specs.Ordering.{nat_cmp};
ghost use Rattle.zarrs_store.specs.Segments.{is_slash};
ghost use Rattle.std.specs.Hash as fed;
ghost use Rattle.std.specs.Cmp.{partial_equiv_from_equiv};
ghost use Rattle.zarrs_path.specs.Paths.{path_text, path_cmp, path_eq};
ghost use Rattle.zarrs_path.specs.PathOrder.{path_equiv, path_po, path_total, path_ties, path_hash};

use crate::NodePath;
use std::cmp::Ordering;
use std::fmt;
use std::hash::{Hash, Hasher};

impl fmt::Display for NodePath {
    ghost output = { λ path. Some (path_text path) };

    fn fmt<W: fmt::Write>(&self, f: &mut fmt::Formatter<W>) -> fmt::Result {
        fmt::Display::fmt(&self.as_str(), f)
    }
}

impl PartialEq for NodePath {
    ghost eq = { path_eq };

    ghost laws = { partial_equiv_from_equiv path_equiv };

    fn eq(&self, other: &NodePath) -> bool {
        self.as_str() == other.as_str()
    }
}

impl Eq for NodePath {
    ghost laws = { path_equiv };
}

impl PartialOrd for NodePath {
    ghost partial_cmp = { λ a b. Some (path_cmp a b) };

    ghost laws = { path_po };

    fn partial_cmp(&self, other: &NodePath) -> Option<Ordering> {
        Some(self.cmp(other))
    }
}

impl Ord for NodePath {
    ghost cmp = { path_cmp };

    ghost total = { path_total };

    ghost matches_partial_cmp = { λ a b. refl };

    ghost matches_eq = { path_ties };

    // By names, so that `/a/b` stands before `/a-b`.
    #[tactic(auto, using(crate::proofs::PathTexts::cmp_texts))]
    fn cmp(&self, other: &NodePath) -> Ordering {
        cmp_by_parts(self.as_str(), other.as_str())
    }
}

// The order of two texts by their parts between slashes.
fn cmp_by_parts(first: &str, second: &str) -> Ordering
    ensures { result
        ≡ slice_cmp (slice_cmp nat_cmp) (slice_split is_slash first.now)
        (slice_split is_slash second.now) }
{
    first.split('/').cmp(second.split('/'))
}

impl Hash for NodePath {
    ghost hash_input = { λ path. fed.str (path_text path) };

    ghost respects_eq = { path_hash };

    fn hash<H: Hasher>(&self, state: &mut H) {
        self.as_str().hash(state);
    }
}
