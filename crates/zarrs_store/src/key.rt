ghost use Rattle.std.specs.Prelude.{◌≡◌, ◌↔◌, IsTrue, IfOk, IfErr, Some, string_bytes};
ghost use Rattle.std.proofs.Common.{rules};
ghost use Rattle.std.specs.Cmp.{partial_order_from_own_ties};
ghost use Rattle.std.specs.Cmp.Rules.{comparing};
ghost use Rattle.std.specs.Ordering.{on, as_partial_cmp};
ghost use Rattle.zarrs_store.specs.Segments.{segments_of, key_text, bytes_cmp, bytes_eq, IsKey, IsKeyText};
ghost use Rattle.zarrs_store.specs.Faults.{RefusesKey};
ghost use Rattle.zarrs_store.specs.ErrorTexts.{key_error_text};

use std::alloc::{AllocError, Global};
use std::cmp::Ordering;
use std::error::Error;
use std::fmt;
use std::marker::Model;

/// The key of a value in a store: one or more nonempty segments, joined by `/`.
///
/// Contracts see it as the list of its segments. Keys are equal and ordered by the bytes of their texts.
///
/// Source: Zarr core specification 3.1, "Abstract store interface"; `zarrs::storage::StoreKey`.
/// <https://zarr-specs.readthedocs.io/en/latest/v3/core/index.html#abstract-store-interface>
#[derive(Debug, Drop)]
pub struct StoreKey {
    text: String,
}

impl Model for StoreKey {
    ghost use Rattle.std.specs.Prelude.{List, ℕ, string_bytes};
    ghost use Rattle.zarrs_store.specs.Segments.{segments_of, IsKeyText};

    ghost Value = { List (List ℕ) };

    ghost view = { λ a. segments_of (string_bytes a.text) };

    ghost invariant = { λ a. IsKeyText (string_bytes a.text) };
}

/// Why a key was not made.
///
/// <https://zarr-specs.readthedocs.io/en/latest/v3/core/index.html#abstract-store-interface>
#[derive(Debug, Drop)]
pub enum StoreKeyError {
    /// The text is not that of a key: it is empty, or a segment of it is.
    Invalid(String),
    /// Memory was asked for and refused.
    OutOfMemory,
}

impl fmt::Display for StoreKeyError {
    ghost output = { λ error. Some (key_error_text error) };

    /// Writes the error's text.
    fn fmt<W: fmt::Write>(&self, f: &mut fmt::Formatter<W>) -> fmt::Result {
        match self {
            StoreKeyError::Invalid(text) => write!(f, "invalid store key {text}"),
            StoreKeyError::OutOfMemory => f.write_str("out of memory"),
        }
    }
}

impl Error for StoreKeyError {}

impl From<AllocError> for StoreKeyError {
    ghost use Rattle.zarrs_store.specs.declared.key.StoreKeyError.TheVariants.{OutOfMemory};

    ghost from_gives = { λ _ e. e ≡ OutOfMemory };

    /// Out of memory.
    fn from(_e: AllocError) -> StoreKeyError {
        StoreKeyError::OutOfMemory
    }
}

impl StoreKey {
    /// The key with this text.
    ///
    /// # Errors
    /// `StoreKeyError::Invalid` with the text, where it is not that of a key. `StoreKeyError::OutOfMemory`.
    ///
    /// Source: `zarrs::storage::StoreKey::new`.
    pub fn new(alloc: Global, text: &str) -> Result<StoreKey, StoreKeyError>
        ensures text { IfOk result (λ key. key_text key ≡ text.now) }
        ensures valid { IfOk result IsKey }
        ensures err { IfErr result (RefusesKey text.now) }
    {
        let copy = String::from_str(alloc, text)?;
        if !StoreKey::validate(text) {
            return Err(StoreKeyError::Invalid(copy));
        }
        Ok(StoreKey { text: copy })
    }

    /// The key with a text that is known to be one.
    ///
    /// Source: `zarrs::storage::StoreKey::new_unchecked`.
    pub fn new_unchecked(text: String) -> StoreKey
        requires { IsKeyText (string_bytes text) }
        ensures segments { result ≡ segments_of (string_bytes text) }
        ensures text { key_text result ≡ string_bytes text }
    {
        StoreKey { text }
    }

    /// Whether the text is that of a key: each part between its slashes is nonempty.
    ///
    /// Source: `zarrs::storage::StoreKey::validate`.
    pub fn validate(text: &str) -> bool
        ensures { IsTrue result ↔ IsKeyText text.now }
    {
        text.split('/').all(|part| !part.is_empty())
    }

    /// The text of the key.
    ///
    /// Source: `zarrs::storage::StoreKey::as_str`.
    pub fn as_str(&self) -> &str
        ensures text { result.now ≡ key_text self.now }
        ensures valid { IsKey self.now }
    {
        self.text.as_str()
    }

    /// A copy of the key.
    ///
    /// # Errors
    /// `AllocError`, where memory was refused.
    ///
    /// Source: `Clone` of `zarrs::storage::StoreKey`.
    pub fn try_clone(&self, alloc: Global) -> Result<StoreKey, AllocError>
        ensures { IfOk result (λ copy. copy ≡ self.now) }
    {
        let text = String::from_str(alloc, self.text.as_str())?;
        Ok(StoreKey { text })
    }

    /// The text that the key is made of, without a copy.
    ///
    /// Source: own.
    pub fn into_string(self) -> String
        ensures text { string_bytes result ≡ key_text self }
        ensures valid { IsKey self }
    {
        let _valid = self.as_str();
        let StoreKey { text } = self;
        text
    }
}

impl PartialEq for StoreKey {
    ghost eq = { on key_text bytes_eq };

    ghost laws = { Prim.search (comparing, rules) };

    /// Whether the keys have the same text.
    fn eq(&self, other: &StoreKey) -> bool {
        self.as_str() == other.as_str()
    }
}

impl Eq for StoreKey {
    ghost laws = { Prim.search (comparing, rules) };
}

impl Ord for StoreKey {
    ghost cmp = { on key_text bytes_cmp };

    ghost total = { Prim.search (comparing, rules) };

    ghost matches_partial_cmp = { Prim.search (comparing, rules) };

    ghost matches_eq = { Prim.search (comparing, rules) };

    /// The order of the keys' texts, by bytes.
    fn cmp(&self, other: &StoreKey) -> Ordering {
        self.as_str().cmp(other.as_str())
    }
}

impl PartialOrd for StoreKey {
    ghost partial_cmp = { as_partial_cmp (on key_text bytes_cmp) };

    ghost laws = { partial_order_from_own_ties (Prim.search (comparing, rules)) (Prim.search (comparing, rules)) };

    /// The order of the keys' texts, by bytes.
    fn partial_cmp(&self, other: &StoreKey) -> Option<Ordering> {
        Some(self.cmp(other))
    }
}

impl fmt::Display for StoreKey {
    ghost output = { λ key. Some (key_text key) };

    /// Writes the key's text.
    fn fmt<W: fmt::Write>(&self, f: &mut fmt::Formatter<W>) -> fmt::Result {
        fmt::Display::fmt(&self.as_str(), f)
    }
}
