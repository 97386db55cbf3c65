ghost use Rattle.std.specs.Prelude.{◌≡◌, ◌↔◌, IsTrue, IfOk, IfErr, IfSome, Some, string_bytes};
ghost use Rattle.std.proofs.Common.{rules};
ghost use Rattle.std.specs.Cmp.{partial_order_from_own_ties};
ghost use Rattle.std.specs.Cmp.Rules.{comparing};
ghost use Rattle.std.specs.Ordering.{on, as_partial_cmp};
ghost use Rattle.zarrs_store.specs.Segments.{segments_of, key_text, prefix_text, last_segment, is_segment, bytes_cmp, bytes_eq, IsPrefix, IsPrefixText};
ghost use Rattle.zarrs_store.specs.Faults.{RefusesPrefix};
ghost use Rattle.zarrs_store.specs.ErrorTexts.{prefix_error_text};
ghost use Rattle.std.specs.Prelude.{[], ◌∷◌, ◌++◌};
ghost use Rattle.std.specs.Option.{option_map};
ghost use Rattle.zarrs_store.specs.Segments.{IsSegment};
ghost use Rattle.zarrs_store.specs.Entries.{beyond, is_below};
ghost use Rattle.zarrs_store.specs.StepsOfStores.{child_name};

use crate::key::StoreKey;
use std::alloc::{AllocError, Global};
use std::cmp::Ordering;
use std::error::Error;
use std::fmt;
use std::marker::Model;

/// The beginning of keys: nothing, or nonempty segments with `/` behind each.
///
/// Contracts see it as the list of its segments. Prefixes are equal and ordered by the bytes of their texts.
///
/// Source: Zarr core specification 3.1, "Abstract store interface"; `zarrs::storage::StorePrefix`.
/// <https://zarr-specs.readthedocs.io/en/latest/v3/core/index.html#abstract-store-interface>
#[derive(Debug, Drop)]
pub struct StorePrefix {
    text: String,
}

impl Model for StorePrefix {
    ghost use Rattle.std.specs.Prelude.{List, ℕ, string_bytes};
    ghost use Rattle.zarrs_store.specs.Segments.{segments_of, IsPrefixText};

    ghost Value = { List (List ℕ) };

    ghost view = { λ a. segments_of (string_bytes a.text) };

    ghost invariant = { λ a. IsPrefixText (string_bytes a.text) };
}

/// Why a prefix was not made.
///
/// <https://zarr-specs.readthedocs.io/en/latest/v3/core/index.html#abstract-store-interface>
#[derive(Debug, Drop)]
pub enum StorePrefixError {
    /// The text is not that of a prefix: it does not end in `/`, or a segment of it is empty.
    Invalid(String),
    /// Memory was asked for and refused.
    OutOfMemory,
}

impl fmt::Display for StorePrefixError {
    ghost output = { λ error. Some (prefix_error_text error) };

    /// Writes the error's text.
    fn fmt<W: fmt::Write>(&self, f: &mut fmt::Formatter<W>) -> fmt::Result {
        match self {
            StorePrefixError::Invalid(text) => write!(f, "invalid store prefix {text}"),
            StorePrefixError::OutOfMemory => f.write_str("out of memory"),
        }
    }
}

impl Error for StorePrefixError {}

impl From<AllocError> for StorePrefixError {
    ghost use Rattle.zarrs_store.specs.declared.prefix.StorePrefixError.TheVariants.{OutOfMemory};

    ghost from_gives = { λ _ e. e ≡ OutOfMemory };

    /// Out of memory.
    fn from(_e: AllocError) -> StorePrefixError {
        StorePrefixError::OutOfMemory
    }
}

impl StorePrefix {
    /// The prefix with this text.
    ///
    /// # Errors
    /// `StorePrefixError::Invalid` with the text, where it is not that of a prefix. `StorePrefixError::OutOfMemory`.
    ///
    /// Source: `zarrs::storage::StorePrefix::new`.
    pub fn new(alloc: Global, text: &str) -> Result<StorePrefix, StorePrefixError>
        ensures text { IfOk result (λ prefix. prefix_text prefix ≡ text.now) }
        ensures valid { IfOk result IsPrefix }
        ensures err { IfErr result (RefusesPrefix text.now) }
    {
        let copy = String::from_str(alloc, text)?;
        if !StorePrefix::validate(text) {
            return Err(StorePrefixError::Invalid(copy));
        }
        Ok(StorePrefix { text: copy })
    }

    /// The prefix with a text that is known to be one.
    ///
    /// Source: `zarrs::storage::StorePrefix::new_unchecked`.
    pub fn new_unchecked(text: String) -> StorePrefix
        requires { IsPrefixText (string_bytes text) }
        ensures segments { result ≡ segments_of (string_bytes text) }
        ensures text { prefix_text result ≡ string_bytes text }
    {
        StorePrefix { text }
    }

    /// Whether the text is that of a prefix: it is empty, or a key's text and a slash.
    ///
    /// Source: `zarrs::storage::StorePrefix::validate`.
    pub fn validate(text: &str) -> bool
        ensures { IsTrue result ↔ IsPrefixText text.now }
    {
        match text.strip_suffix('/') {
            Some(inner) => StoreKey::validate(inner),
            None => text.is_empty(),
        }
    }

    /// The text of the prefix.
    ///
    /// Source: `zarrs::storage::StorePrefix::as_str`.
    pub fn as_str(&self) -> &str
        ensures text { result.now ≡ prefix_text self.now }
        ensures valid { IsPrefix self.now }
    {
        self.text.as_str()
    }

    /// A copy of the prefix.
    ///
    /// # Errors
    /// `AllocError`, where memory was refused.
    ///
    /// Source: `Clone` of `zarrs::storage::StorePrefix`.
    pub fn try_clone(&self, alloc: Global) -> Result<StorePrefix, AllocError>
        ensures { IfOk result (λ copy. copy ≡ self.now) }
    {
        let text = String::from_str(alloc, self.text.as_str())?;
        Ok(StorePrefix { text })
    }

    /// The text that the prefix is made of, without a copy.
    ///
    /// Source: own.
    pub fn into_string(self) -> String
        ensures text { string_bytes result ≡ prefix_text self }
        ensures valid { IsPrefix self }
    {
        let _valid = self.as_str();
        let StorePrefix { text } = self;
        text
    }

    /// The key of the prefix and one segment more, in the room of a text, of which nothing else is left.
    ///
    /// # Errors
    /// `AllocError`, where the text has no room and memory was refused.
    ///
    /// Source: own.
    pub fn key_in(&self, mut text: String, segment: &str) -> Result<StoreKey, AllocError>
        requires { IsTrue (is_segment segment.now) }
        ensures { IfOk result (λ key. key ≡ self.now ++ segment.now ∷ []) }
    {
        text.clear();
        text.push_str(self.as_str())?;
        text.push_str(segment)?;
        Ok(StoreKey::new_unchecked(text))
    }

    /// The last segment, and for the empty prefix the empty text.
    ///
    /// Source: own.
    pub fn name(&self) -> &str
        ensures { result.now ≡ last_segment self.now }
    {
        let text = self.text.as_str();
        match text.strip_suffix('/') {
            Some(inner) => match inner.rsplit_once('/') {
                Some((_, name)) => name,
                None => inner,
            },
            None => "",
        }
    }

    // The text of the key behind the prefix, where it begins with it.
    fn strip<'a>(&self, key: &'a StoreKey) -> Option<&'a str>
        ensures { option_map (λ rest. rest.now) result
            ≡ option_map key_text (beyond self.now key.now) }
    {
        key.as_str().strip_prefix(self.as_str())
    }

    // Whether the key has a segment behind the prefix.
    pub(crate) fn is_above(&self, key: &StoreKey) -> bool
        ensures { result ≡ is_below self.now key.now }
    {
        self.strip(key).is_some()
    }

    // The segment of the key behind the prefix, where it has more than one there.
    pub(crate) fn child_name<'a>(&self, key: &'a StoreKey) -> Option<&'a str>
        ensures name { option_map (λ name. name.now) result ≡ child_name self.now key.now }
        ensures segment { IfSome result (λ name. IsSegment name.now) }
    {
        let _valid = key.as_str();
        match self.strip(key) {
            Some(rest) => match rest.split_once('/') {
                Some((name, _)) => Some(name),
                None => None,
            },
            None => None,
        }
    }

    // The prefix and one segment more.
    pub(crate) fn child(&self, alloc: Global, name: &str) -> Result<StorePrefix, AllocError>
        requires { IsSegment name.now }
        ensures { IfOk result (λ child. child ≡ self.now ++ name.now ∷ []) }
    {
        let mut text = with_room(alloc, self.as_str(), name.len().saturating_add(1))?;
        text.push_str(name)?;
        text.push_str("/")?;
        Ok(StorePrefix { text })
    }
}

// A copy of the text with room for more behind it.
fn with_room(alloc: Global, text: &str, more: usize) -> Result<String, AllocError>
    ensures ok { IfOk result (λ copy. string_bytes copy ≡ text.now) }
{
    let mut copy = String::with_capacity(alloc, text.len().saturating_add(more))?;
    copy.push_str(text)?;
    Ok(copy)
}

impl fmt::Display for StorePrefix {
    ghost output = { λ prefix. Some (prefix_text prefix) };

    /// Writes the prefix's text.
    fn fmt<W: fmt::Write>(&self, f: &mut fmt::Formatter<W>) -> fmt::Result {
        fmt::Display::fmt(&self.as_str(), f)
    }
}

impl PartialEq for StorePrefix {
    ghost eq = { on prefix_text bytes_eq };

    ghost laws = { Prim.search (comparing, rules) };

    /// Whether the prefixes have the same text.
    fn eq(&self, other: &StorePrefix) -> bool {
        self.as_str() == other.as_str()
    }
}

impl Eq for StorePrefix {
    ghost laws = { Prim.search (comparing, rules) };
}

impl Ord for StorePrefix {
    ghost cmp = { on prefix_text bytes_cmp };

    ghost total = { Prim.search (comparing, rules) };

    ghost matches_partial_cmp = { Prim.search (comparing, rules) };

    ghost matches_eq = { Prim.search (comparing, rules) };

    /// The order of the prefixes' texts, by bytes.
    fn cmp(&self, other: &StorePrefix) -> Ordering {
        self.as_str().cmp(other.as_str())
    }
}

impl PartialOrd for StorePrefix {
    ghost partial_cmp = { as_partial_cmp (on prefix_text bytes_cmp) };

    ghost laws = { partial_order_from_own_ties (Prim.search (comparing, rules)) (Prim.search (comparing, rules)) };

    /// The order of the prefixes' texts, by bytes.
    fn partial_cmp(&self, other: &StorePrefix) -> Option<Ordering> {
        Some(self.cmp(other))
    }
}
