//! Paths of nodes. Zarr core specification 3.1, "Paths".
ghost use Rattle.std.specs.Prelude.{◌≡◌, ◌↔◌, [], ◌++◌, IsTrue, IfOk, IfErr, IfSome, string_bytes, option_copied, IsOkUnless, Some};
ghost use Rattle.std.specs.List.{slice_split};
ghost use Rattle.zarrs_store.specs.Segments.{is_slash, last_segment, IsPrefix};
ghost use Rattle.zarrs_path.specs.Names.{IsName};
ghost use Rattle.zarrs_path.specs.Paths.{IsPath, IsPathText, path_text, IsBelow, IsParent, names_text, relative_names, without_leading_slash, first_bad};
ghost use Rattle.zarrs_path.specs.PathErrors.{RefusesPath, RefusesJoin, RefusesSegments};
ghost use Rattle.zarrs_path.specs.ErrorTexts.{path_error_text};

use crate::node_name::is_name;
use crate::text::joined;
use std::alloc::{AllocError, Global};
use std::error::Error;
use std::fmt;
use std::marker::Model;
use zarrs_store::StorePrefix;

/// Why a text was not made a path.
///
/// <https://zarr-specs.readthedocs.io/en/latest/v3/core/index.html#path>
#[derive(Debug, Drop)]
pub enum NodePathError {
    /// What is wrong: the text that is no path, or the bad part of a joined text.
    Invalid(String),
    /// Out of memory for the path, or for the text of this error.
    OutOfMemory,
}

impl fmt::Display for NodePathError {
    ghost output = { λ error. Some (path_error_text error) };

    /// Writes the error's text.
    fn fmt<W: fmt::Write>(&self, f: &mut fmt::Formatter<W>) -> fmt::Result {
        match self {
            NodePathError::Invalid(text) => write!(f, "invalid node path {text}"),
            NodePathError::OutOfMemory => f.write_str("out of memory"),
        }
    }
}

impl Error for NodePathError {}

impl From<AllocError> for NodePathError {
    ghost use Rattle.zarrs_path.specs.declared.node_path.NodePathError.TheVariants.{OutOfMemory};

    ghost from_gives = { λ _ e. e ≡ OutOfMemory };

    fn from(_e: AllocError) -> NodePathError {
        NodePathError::OutOfMemory
    }
}

/// The path of a node: the names from the root to it.
///
/// Source: Zarr core specification 3.1, "Paths"; `zarrs::node::NodePath`.
/// <https://zarr-specs.readthedocs.io/en/latest/v3/core/index.html#path>
/// <https://docs.rs/zarrs/0.23.13/zarrs/node/struct.NodePath.html>
#[derive(Debug, Drop)]
pub struct NodePath {
    text: String,
}

// Contracts see the list of names.
impl Model for NodePath {
    ghost use Rattle.std.specs.Prelude.{List, ℕ, string_bytes};
    ghost use Rattle.zarrs_store.specs.Segments.{segments_of};
    ghost use Rattle.zarrs_path.specs.Paths.{IsPathText};

    ghost Value = { List (List ℕ) };

    ghost view = { λ p. segments_of (string_bytes p.text) };

    ghost invariant = { λ p. IsPathText (string_bytes p.text) };
}

impl NodePath {
    /// The path with this text.
    ///
    /// # Errors
    /// `NodePathError::Invalid` with the text where it is that of no path.
    /// `NodePathError::OutOfMemory` when out of memory for the text.
    ///
    /// Source: Zarr core specification 3.1, "Paths"; `zarrs::node::NodePath::new`.
    #[tactic(auto, using(crate::proofs::PathTexts::path_of_text, crate::proofs::PathTexts::valid_of_text))]
    pub fn new(alloc: Global, path: &str) -> Result<Self, NodePathError>
        ensures text { IfOk result (λ made. path_text made ≡ path.now) }
        ensures valid { IfOk result IsPath }
        ensures err { IfErr result (RefusesPath path.now) }
    {
        let text = String::from_str(alloc, path)?;
        if NodePath::validate(path) {
            Ok(NodePath { text })
        } else {
            Err(NodePathError::Invalid(text))
        }
    }

    /// The path of the root, which has no names.
    ///
    /// # Errors
    /// `NodePathError::OutOfMemory` when out of memory for the text.
    ///
    /// Source: `zarrs::node::NodePath::root`.
    pub fn root(alloc: Global) -> Result<Self, NodePathError>
        ensures ok { IfOk result (λ root. root ≡ []) }
        ensures err { IsOkUnless result NodePathError.OutOfMemory }
    {
        Ok(NodePath {
            text: String::from_str(alloc, "/")?,
        })
    }

    /// The text of the path: `/` for the root, else each name with a `/` before it.
    ///
    /// Source: Zarr core specification 3.1, "Paths"; `zarrs::node::NodePath::as_str`.
    #[tactic(auto, using(crate::proofs::PathTexts::path_of_text, crate::proofs::PathTexts::valid_of_text))]
    pub fn as_str(&self) -> &str
        ensures value { result.now ≡ path_text self.now }
        ensures valid { IsPath self.now }
    {
        self.text.as_str()
    }

    /// Whether a text is that of a path: `/`, or names with a `/` before each.
    ///
    /// Source: Zarr core specification 3.1, "Paths"; `zarrs::node::NodePath::validate`.
    pub fn validate(path: &str) -> bool
        ensures { IsTrue result ↔ IsPathText path.now }
    {
        match path.strip_prefix('/') {
            Some(names) => names.is_empty() || first_bad(names).is_none(),
            None => false,
        }
    }

    /// Whether this is the root.
    ///
    /// Source: `zarrs::node::NodePath::is_root`.
    pub fn is_root(&self) -> bool
        ensures { IsTrue result ↔ (self.now ≡ []) }
    {
        self.as_str() == "/"
    }

    /// Whether the other path is a proper beginning of this one, name by name: `/a/b` is below `/a`, and
    /// `/ab` is not.
    ///
    /// Source: Zarr core specification 3.1, "Paths".
    pub fn is_below(&self, base: &NodePath) -> bool
        ensures below { IsTrue result ↔ IsBelow base.now self.now }
        ensures valid { IsPath self.now × IsPath base.now }
    {
        match self.slashed().strip_prefix(base.slashed()) {
            Some(rest) => rest.starts_with('/'),
            None => false,
        }
    }

    /// The path without its last name, and `None` for the root alone.
    ///
    /// # Errors
    /// `NodePathError::OutOfMemory` when out of memory for the text.
    ///
    /// Source: Zarr core specification 3.1, "Paths"; `zarrs::node::NodePath::parent`.
    #[tactic(auto, using(crate::proofs::PathTexts::valid_of_text))]
    pub fn parent(&self, alloc: Global) -> Result<Option<Self>, NodePathError>
        ensures ok { IfOk result (IsParent self.now) }
        ensures above { IfOk result (λ parent. IfSome parent IsPath) }
        ensures err { IsOkUnless result NodePathError.OutOfMemory }
        ensures valid { IsPath self.now }
    {
        if self.is_root() {
            return Ok(None);
        }
        let text = self.text.as_str();
        let end = text.rfind('/').unwrap_or(0);
        if end == 0 {
            return Ok(Some(NodePath::root(alloc)?));
        }
        let parent = String::from_str(alloc, &text[..end])?;
        Ok(Some(NodePath { text: parent }))
    }

    /// The path with the names of a relative text behind its own. One leading `/` is taken off that text,
    /// and the empty rest adds no name.
    ///
    /// # Errors
    /// `NodePathError::Invalid` with the first part between slashes that is no name, and the rest.
    /// `NodePathError::OutOfMemory` when out of memory for the text.
    ///
    /// Source: `zarrs::node::NodePath::join`.
    pub fn join(&self, alloc: Global, relative: &str) -> Result<Self, NodePathError>
        ensures ok { IfOk result (λ path. path ≡ self.now ++ relative_names relative.now) }
        ensures valid { IfOk result IsPath }
        ensures err { IfErr result (RefusesJoin relative.now) }
    {
        let rest = without_leading_slash(relative);
        if rest.is_empty() {
            return Ok(self.try_clone(alloc)?);
        }
        if let Some(part) = first_bad(rest) {
            let text = format!(in alloc; "invalid node name `{part}` in '{rest}'")?;
            return Err(NodePathError::Invalid(text));
        }
        let text = joined(alloc, self.slashed(), "/", rest)?;
        Ok(NodePath { text })
    }

    /// The path whose names are the segments of a prefix, which for the empty prefix is the root.
    ///
    /// # Errors
    /// `NodePathError::Invalid` with the path's text where a segment is no name.
    /// `NodePathError::OutOfMemory` when out of memory for the text.
    ///
    /// Source: `TryFrom<&StorePrefix>` of `zarrs::node::NodePath`.
    pub fn from_prefix(alloc: Global, prefix: &StorePrefix) -> Result<Self, NodePathError>
        ensures ok { IfOk result (λ path. path ≡ prefix.now) }
        ensures valid { IfOk result IsPath }
        ensures err { IfErr result (RefusesSegments prefix.now) }
        ensures segments { IsPrefix prefix.now }
    {
        let _valid = prefix.as_str();
        NodePath::from_owned_prefix(prefix.try_clone(alloc)?)
    }

    /// The path that [`NodePath::from_prefix`] answers, made of the text of the prefix without a copy.
    ///
    /// # Errors
    /// `NodePathError::Invalid` with the path's text where a segment is no name.
    /// `NodePathError::OutOfMemory` when out of memory for the slash of the root.
    ///
    /// Source: own.
    pub fn from_owned_prefix(prefix: StorePrefix) -> Result<Self, NodePathError>
        ensures ok { IfOk result (λ path. path ≡ prefix) }
        ensures valid { IfOk result IsPath }
        ensures err { IfErr result (RefusesSegments prefix) }
        ensures segments { IsPrefix prefix }
    {
        let text = NodePath::text_of(prefix)?;
        if NodePath::validate(text.as_str()) {
            Ok(NodePath { text })
        } else {
            Err(NodePathError::Invalid(text))
        }
    }

    /// The path of a prefix whose segments are known to be names, made of the text of the prefix without a copy.
    ///
    /// # Errors
    /// `AllocError` when out of memory for the slash of the root.
    ///
    /// Source: own.
    pub fn from_valid_prefix(prefix: StorePrefix) -> Result<Self, AllocError>
        requires { IsPath prefix }
        ensures { IfOk result (λ path. path ≡ prefix) }
    {
        let text = NodePath::text_of(prefix)?;
        Ok(NodePath { text })
    }

    /// Whether the last segment of a prefix is a name, so that the prefix is that of a path where the segments before it are names.
    ///
    /// Source: own.
    pub fn ends_in_name(prefix: &StorePrefix) -> bool
        ensures { IsTrue result ↔ IsName (last_segment prefix.now) }
    {
        is_name(prefix.name())
    }

    /// The text of a path with the segments of a prefix, also where a segment is no name: the last slash of the prefix's text is moved to
    /// the front, in place.
    ///
    /// # Errors
    /// `AllocError` when out of memory for the slash of the root.
    ///
    /// Source: own.
    pub fn text_of(prefix: StorePrefix) -> Result<String, AllocError>
        ensures ok { IfOk result (λ text. string_bytes text ≡ path_text prefix) }
        ensures segments { IsPrefix prefix }
    {
        let mut text = prefix.into_string();
        text.pop();
        text.insert(0, '/')?;
        Ok(text)
    }

    /// The prefix whose segments are the names of the path, which for the root is empty.
    ///
    /// # Errors
    /// `AllocError` when out of memory for the text.
    ///
    /// Source: `TryInto<StorePrefix>` of `&zarrs::node::NodePath`.
    pub fn to_prefix(&self, alloc: Global) -> Result<StorePrefix, AllocError>
        ensures ok { IfOk result (λ prefix. prefix ≡ self.now) }
        ensures valid { IsPath self.now }
    {
        match self.slashed().strip_prefix('/') {
            Some(names) => {
                let text = joined(alloc, names, "/", "")?;
                Ok(StorePrefix::new_unchecked(text))
            }
            None => Ok(StorePrefix::new_unchecked(String::new(alloc))),
        }
    }

    /// A copy, which equals the path.
    ///
    /// # Errors
    /// `AllocError` when out of memory for the text.
    ///
    /// Source: `Clone` of `zarrs::node::NodePath`.
    #[tactic(auto, using(crate::proofs::PathTexts::valid_of_text))]
    pub fn try_clone(&self, alloc: Global) -> Result<Self, AllocError>
        ensures ok { IfOk result (λ copy. copy ≡ self.now) }
        ensures valid { IsPath self.now }
    {
        Ok(NodePath {
            text: String::from_str(alloc, self.text.as_str())?,
        })
    }

    // Each name with a slash before it, which is nothing for the root.
    pub(crate) fn slashed(&self) -> &str
        ensures text { result.now ≡ names_text self.now }
        ensures valid { IsPath self.now }
    {
        let text = self.as_str();
        if self.is_root() { "" } else { text }
    }
}

/// The text without one leading slash: of a relative path that [`NodePath::join`] takes, the names that are joined.
///
/// Source: own; `zarrs::node::NodePath::join`.
pub fn without_leading_slash(text: &str) -> &str
    ensures { result.now ≡ without_leading_slash text.now }
{
    text.strip_prefix('/').unwrap_or(text)
}

// The first part between slashes that is no name.
fn first_bad(names: &str) -> Option<&str>
    ensures { option_copied result ≡ first_bad (slice_split is_slash names.now) }
{
    names.split('/').find(|name| !is_name(name))
}
