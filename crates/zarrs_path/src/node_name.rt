//! Names of nodes. Zarr core specification 3.1, "Node names".
ghost use Rattle.std.specs.Prelude.{◌≡◌, ◌↔◌, [], not, IsTrue, IfOk, IfErr, Some, string_bytes, bytes_eq};
ghost use Rattle.std.specs.Cmp.{partial_equiv_from_equiv};
ghost use Rattle.std.specs.Cmp.Lexicographic.{nat_list_eq_equiv};
ghost use Rattle.zarrs_store.specs.Segments.{has_no_slash};
ghost use Rattle.zarrs_path.specs.Names.{is_name, is_node_name, IsNodeName, is_all_periods, is_reserved};
ghost use Rattle.zarrs_path.specs.NameErrors.{RefusesName};
ghost use Rattle.zarrs_path.specs.ErrorTexts.{name_error_text};

use std::alloc::{AllocError, Global};
use std::error::Error;
use std::fmt;
use std::marker::Model;

/// Why a text was not made the name of a node.
///
/// <https://zarr-specs.readthedocs.io/en/latest/v3/core/index.html#node-names>
#[derive(Debug, Drop)]
pub enum NodeNameError {
    /// The text, which is neither empty nor a name.
    Invalid(String),
    /// Out of memory for the text.
    OutOfMemory,
}

impl fmt::Display for NodeNameError {
    ghost output = { λ error. Some (name_error_text error) };

    /// Writes the error's text.
    fn fmt<W: fmt::Write>(&self, f: &mut fmt::Formatter<W>) -> fmt::Result {
        match self {
            NodeNameError::Invalid(text) => write!(f, "invalid node name {text}"),
            NodeNameError::OutOfMemory => f.write_str("out of memory"),
        }
    }
}

impl Error for NodeNameError {}

impl From<AllocError> for NodeNameError {
    ghost use Rattle.zarrs_path.specs.declared.node_name.NodeNameError.TheVariants.{OutOfMemory};

    ghost from_gives = { λ _ e. e ≡ OutOfMemory };

    fn from(_e: AllocError) -> NodeNameError {
        NodeNameError::OutOfMemory
    }
}

/// The name of a node. It is empty for the root alone.
///
/// Source: Zarr core specification 3.1, "Node names"; `zarrs::node::NodeName`.
/// <https://zarr-specs.readthedocs.io/en/latest/v3/core/index.html#node-names>
/// <https://docs.rs/zarrs/0.23.13/zarrs/node/struct.NodeName.html>
#[derive(Debug, Drop)]
pub struct NodeName {
    text: String,
}

// Contracts see the text.
impl Model for NodeName {
    ghost use Rattle.std.specs.Prelude.{List, ℕ, string_bytes};
    ghost use Rattle.zarrs_path.specs.Names.{IsNodeName};

    ghost Value = { List ℕ };

    ghost view = { λ n. string_bytes n.text };

    ghost invariant = { λ n. IsNodeName (string_bytes n.text) };
}

impl NodeName {
    /// The name with this text, which is the root's where the text is empty.
    ///
    /// # Errors
    /// `NodeNameError::Invalid` with the text where it is neither empty nor a name.
    /// `NodeNameError::OutOfMemory` when out of memory for the text.
    ///
    /// Source: Zarr core specification 3.1, "Node names"; `zarrs::node::NodeName::new`.
    pub fn new(alloc: Global, name: &str) -> Result<Self, NodeNameError>
        ensures ok { IfOk result (λ made. made ≡ name.now) }
        ensures valid { IfOk result IsNodeName }
        ensures err { IfErr result (RefusesName name.now) }
    {
        let text = String::from_str(alloc, name)?;
        if NodeName::validate(name) {
            Ok(NodeName { text })
        } else {
            Err(NodeNameError::Invalid(text))
        }
    }

    /// The name with a text that is known to be empty or a name, as its condition asks.
    ///
    /// Source: `zarrs::node::NodeName::new_unchecked`.
    pub fn new_unchecked(name: String) -> Self
        requires { IsNodeName (string_bytes name) }
        ensures { result ≡ string_bytes name }
    {
        NodeName { text: name }
    }

    /// The name of the root, which is empty. It takes no memory.
    ///
    /// Source: `zarrs::node::NodeName::root`.
    pub fn root(alloc: Global) -> Self
        ensures { result ≡ [] }
    {
        NodeName {
            text: String::new(alloc),
        }
    }

    /// The text of the name.
    ///
    /// Source: `zarrs::node::NodeName::as_str`.
    pub fn as_str(&self) -> &str
        ensures value { result.now ≡ self.now }
        ensures valid { IsNodeName self.now }
    {
        self.text.as_str()
    }

    /// Whether a text is empty or a name: it holds no `/`, is not made of periods only and does not
    /// begin with `__`.
    ///
    /// Source: Zarr core specification 3.1, "Node names"; `zarrs::node::NodeName::validate`.
    pub fn validate(name: &str) -> bool
        ensures { result ≡ is_node_name name.now }
    {
        name.is_empty() || is_name(name)
    }

    /// Whether this is the name of the root.
    ///
    /// Source: `zarrs::node::NodeName::is_root`.
    pub fn is_root(&self) -> bool
        ensures { IsTrue result ↔ (self.now ≡ []) }
    {
        self.text.is_empty()
    }
}

// Whether a text is a name.
pub(crate) fn is_name(name: &str) -> bool
    ensures { result ≡ is_name name.now }
{
    !name.is_empty() && !has_slash(name) && !is_all_periods(name) && !is_reserved(name)
}

// Whether a text holds a slash.
fn has_slash(text: &str) -> bool
    ensures { result ≡ not (has_no_slash text.now) }
{
    text.contains('/')
}

// Whether a text is made of periods only, or empty.
fn is_all_periods(text: &str) -> bool
    ensures { result ≡ is_all_periods text.now }
{
    text.bytes().all(|b| b == b'.')
}

// Whether a text begins with `__`.
fn is_reserved(text: &str) -> bool
    ensures { result ≡ is_reserved text.now }
{
    text.starts_with("__")
}

impl fmt::Display for NodeName {
    ghost output = { λ name. Some name };

    fn fmt<W: fmt::Write>(&self, f: &mut fmt::Formatter<W>) -> fmt::Result {
        fmt::Display::fmt(&self.as_str(), f)
    }
}

impl PartialEq for NodeName {
    ghost eq = { bytes_eq };

    ghost laws = { partial_equiv_from_equiv nat_list_eq_equiv };

    fn eq(&self, other: &NodeName) -> bool {
        self.as_str() == other.as_str()
    }
}

impl Eq for NodeName {
    ghost laws = { nat_list_eq_equiv };
}
