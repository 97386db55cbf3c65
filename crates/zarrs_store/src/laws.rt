//! What holds of every key, by the definitions alone. A function here is empty; its contract is the law.
ghost use Rattle.zarrs_store.specs.Laws.{KeysReadBack};

/// The segments of a key's text are those of the key, so a key that is made of its text is that key.
///
/// Source: Zarr core specification 3.1, "Abstract store interface".
pub fn keys_read_back()
    ensures { KeysReadBack }
{}
