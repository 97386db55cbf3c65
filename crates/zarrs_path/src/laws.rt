//! What holds of every name and path. A function with an empty body does nothing, and its contract is the law.
//! The others call the code and say what comes out.
ghost use Rattle.std.specs.Prelude.{◌≡◌, ◌↔◌, ◌++◌, IfOk, IfErr, IsOkUnless, IsTrue, Some, None};
ghost use Rattle.zarrs_path.specs.Names.{IsName};
ghost use Rattle.std.specs.declared.cmp.Ordering.TheVariants.{Equal};
ghost use Rattle.zarrs_path.specs.Paths.{IsParent, IsPathText, path_eq, path_cmp, relative_names};
ghost use Rattle.zarrs_path.specs.PathErrors.{RefusesSegments, RefusesJoin};
ghost use Rattle.zarrs_path.specs.Laws.{NamesAre, TextsDiffer, EqualNames, EqualOrder, TotalOrder, HashAlike, BelowIsAfter, BelowIsTransitive, OneParent, RootAlone, ParentOfJoined, DocumentKeysDiffer, RelativeNamesRead, RelativeNamesJoined};

use crate::{NodePath, NodePathError};
use std::alloc::{AllocError, Global};
use std::cmp::Ordering;
use zarrs_store::StorePrefix;

/// A text is a name exactly where it is not empty, holds no slash, is not made of periods only and does not
/// begin with `__`. Source: Zarr core specification 3.1, "Node names".
#[tactic(auto, using(crate::proofs::LawProofs::names_are))]
pub fn names_are()
    ensures { NamesAre }
{}

/// `NodePath::new` accepts exactly the texts of paths.
///
/// # Errors
/// `AllocError` when out of memory for the path.
pub fn accepted_texts(alloc: Global, text: &str) -> Result<bool, AllocError>
    ensures { IfOk result (λ accepted. IsTrue accepted ↔ IsPathText text.now) }
{
    match NodePath::new(alloc, text) {
        Ok(_) => Ok(true),
        Err(NodePathError::Invalid(_)) => Ok(false),
        Err(NodePathError::OutOfMemory) => Err(AllocError),
    }
}

/// A text has one path at most, so different paths have different texts.
#[tactic(auto, using(crate::proofs::LawProofs::texts_differ))]
pub fn texts_differ()
    ensures { TextsDiffer }
{}

/// `==` says whether two paths have the same names.
#[tactic(auto, using(crate::proofs::LawProofs::equal_names))]
pub fn equal_names()
    ensures { EqualNames }
{}

/// Two paths are level in the order exactly where they have the same names.
#[tactic(auto, using(crate::proofs::LawProofs::equal_order))]
pub fn equal_order()
    ensures { EqualOrder }
{}

/// The order of paths is total.
#[tactic(auto, using(crate::specs::PathOrder::path_total))]
pub fn total_order()
    ensures { TotalOrder }
{}

/// `==` and `cmp` agree, which is answered as `true` for all paths.
pub fn order_and_equality(path: &NodePath, other: &NodePath) -> bool
    ensures holds { IsTrue result }
    ensures agree { IsTrue (path_eq path.now other.now) ↔ (path_cmp path.now other.now ≡ Equal) }
{
    (path == other) == (path.cmp(other) == Ordering::Equal)
}

/// Equal paths feed a hasher alike.
#[tactic(auto, using(crate::specs::PathOrder::path_hash))]
pub fn hash_alike()
    ensures { HashAlike }
{}

/// A path stands before every path below it.
#[tactic(auto, using(crate::proofs::LawProofs::below_is_after))]
pub fn below_is_after()
    ensures { BelowIsAfter }
{}

/// What is below a path that is below a base is below the base.
#[tactic(auto, using(crate::proofs::LawProofs::below_is_transitive))]
pub fn below_is_transitive()
    ensures { BelowIsTransitive }
{}

/// A path has one parent at most.
#[tactic(auto, using(crate::proofs::LawProofs::one_parent))]
pub fn one_parent()
    ensures { OneParent }
{}

/// The root alone has no parent.
#[tactic(auto, using(crate::proofs::LawProofs::root_alone))]
pub fn root_alone()
    ensures { RootAlone }
{}

/// The parent of the root, which it does not have.
///
/// # Errors
/// `NodePathError::OutOfMemory` when out of memory for the root.
pub fn parent_of_root(alloc: Global) -> Result<Option<NodePath>, NodePathError>
    ensures ok { IfOk result (λ parent. parent ≡ None) }
    ensures err { IsOkUnless result NodePathError.OutOfMemory }
{
    let root = NodePath::root(alloc)?;
    root.parent(alloc)
}

/// The parent of a path with one more name is the path.
#[tactic(auto, using(crate::proofs::LawProofs::parent_of_joined))]
pub fn parent_of_joined()
    ensures { ParentOfJoined }
{}

/// The parent of a path joined with a relative text: the path itself where the text is one name. Of another text that `NodePath::join`
/// takes it is the joined path without its last name, and nothing where that is the root.
///
/// # Errors
/// `NodePathError::OutOfMemory` when out of memory for the joined path or its parent.
/// `NodePathError::Invalid` where a part of the text is no name, as `NodePath::join` refuses it.
pub fn parent_of_join(
    alloc: Global,
    path: &NodePath,
    name: &str,
) -> Result<Option<NodePath>, NodePathError>
    ensures ok { IsName name.now → IfOk result (λ parent. parent ≡ Some path.now) }
    ensures parent { IfOk result (IsParent (path.now ++ relative_names name.now)) }
    ensures err { IsName name.now → IsOkUnless result NodePathError.OutOfMemory }
    ensures refused { IfErr result (RefusesJoin name.now) }
{
    let joined = path.join(alloc, name)?;
    joined.parent(alloc)
}

/// A path made a prefix, and back, is the path, the root included.
///
/// # Errors
/// `NodePathError::OutOfMemory` when out of memory for the prefix or the path.
pub fn prefix_and_back(alloc: Global, path: &NodePath) -> Result<NodePath, NodePathError>
    ensures ok { IfOk result (λ back. back ≡ path.now) }
    ensures err { IsOkUnless result NodePathError.OutOfMemory }
{
    let prefix = path.to_prefix(alloc)?;
    NodePath::from_prefix(alloc, &prefix)
}

/// A prefix made a path, and back, is the prefix.
///
/// # Errors
/// `NodePathError::Invalid` with the path's text where a segment is no name.
/// `NodePathError::OutOfMemory` when out of memory for the path or the prefix.
pub fn path_and_back(alloc: Global, prefix: &StorePrefix) -> Result<StorePrefix, NodePathError>
    ensures ok { IfOk result (λ back. back ≡ prefix.now) }
    ensures err { IfErr result (RefusesSegments prefix.now) }
{
    let path = NodePath::from_prefix(alloc, prefix)?;
    Ok(path.to_prefix(alloc)?)
}

/// Keys of documents are equal only where the paths and the names of the documents are.
#[tactic(auto, using(crate::proofs::LawProofs::same_fronts))]
pub fn document_keys_differ()
    ensures { DocumentKeysDiffer }
{}

/// Names joined by slashes are read back by `join`, also behind one slash.
#[tactic(auto, using(crate::proofs::Relative::relative_of_text, crate::proofs::Relative::relative_of_slashed))]
pub fn relative_names_read()
    ensures { RelativeNamesRead }
{}

/// What `join` reads is the text after one leading slash.
#[tactic(auto, using(crate::proofs::Relative::text_of_relative))]
pub fn relative_names_joined()
    ensures { RelativeNamesJoined }
{}
