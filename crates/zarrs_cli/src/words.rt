//! What the words of a call ask.
ghost use Rattle.std.specs.Prelude.{◌≡◌, ◌≢◌, [], ◌∷◌, false, IfOk, IfErr, codes, string_bytes};
ghost use Rattle.zarrs_program.specs.Words.{texts};
ghost use Rattle.zarrs_cli.specs.Words.{AreWords, AskFor, IsRequestSource, is_option, with_leading_slash};
ghost use Rattle.zarrs_cli.specs.StepsOfWords.{Spells};

use crate::fault::ZarrsFault;
use std::alloc::{AllocError, Global};

/// What is asked about a store, which stays as it is.
///
/// Source: own.
/// <https://zarr-specs.readthedocs.io/en/latest/v3/core/index.html#hierarchy>
#[derive(Clone, Copy, Debug, PartialEq, Eq)]
pub enum Word {
    /// The tree, by the block of the group at the path where it has one.
    Tree,
    /// The tree by the store, whatever block there is.
    StoreTree,
    /// The paths of the nodes, by the store.
    List,
    /// The document of the node at the path, with its attributes.
    Show,
    /// The report on what is bad.
    Check(CheckOptions),
}

/// What the report of a check has, and how it is written.
///
/// Source: own.
/// <https://zarr-specs.readthedocs.io/en/latest/v3/core/index.html#hierarchy>
#[derive(Clone, Copy, Debug, PartialEq, Eq)]
pub struct CheckOptions {
    /// Whether it has notes beside the findings.
    pub notes: bool,
    /// Whether it is JSON, and not lines.
    pub json: bool,
}

/// What becomes of the block of a group, and whether it is only told.
///
/// Source: own.
/// <https://zarr-specs.readthedocs.io/en/latest/v3/core/index.html#group-metadata>
#[derive(Clone, Copy, Debug, PartialEq, Eq)]
pub struct ConsolidateOptions {
    /// Whether nothing is written, and what would be is told.
    pub dry_run: bool,
    /// Whether the block is removed, and not made anew.
    pub remove: bool,
}

/// What is asked of a store: what it has is shown, or the block of a group is written back.
///
/// Source: own.
/// <https://zarr-specs.readthedocs.io/en/latest/v3/core/index.html#hierarchy>
#[derive(Clone, Copy, Debug, PartialEq, Eq)]
pub enum Request {
    /// What it has is shown.
    Look(Word),
    /// The block of the group at the path is made of what a listing finds, and written; or it is removed.
    Consolidate(ConsolidateOptions),
}

/// Of which group the block is made or removed, and how.
///
/// Source: own; `zarr.consolidate_metadata` of zarr-python.
/// <https://zarr.readthedocs.io/en/stable/user-guide/consolidated_metadata/>
#[derive(Clone, Copy, Debug)]
pub struct BlockRequest<'a> {
    /// What is done with it.
    pub options: ConsolidateOptions,
    /// The path of the group.
    pub path: &'a str,
}

/// A request, where the store is, and the path that is asked about.
///
/// Source: own.
/// <https://zarr-specs.readthedocs.io/en/latest/v3/core/index.html#hierarchy>
#[derive(Clone, Copy, Debug)]
pub struct Command<'a> {
    /// What is asked.
    pub request: Request,
    /// A folder, or, of what is shown, `-` for an image on standard input.
    pub source: &'a str,
    /// The text of the path, which is `/` where it is left out. A slash in front may be left out.
    pub path: &'a str,
}

/// What the words ask.
///
/// Source: own.
/// <https://zarr-specs.readthedocs.io/en/latest/v3/core/index.html#hierarchy>
#[derive(Clone, Copy, Debug)]
pub enum Asked<'a> {
    /// The usage.
    Help,
    /// The version.
    Version,
    /// A word of a store.
    Store(Command<'a>),
}

/// What the words ask. Options stand before the source, in either order; no source and no path begins with two dashes.
///
/// # Errors
/// `Usage` where they are no call's.
///
/// Source: own.
pub fn parse(words: &[String]) -> Result<Asked<'_>, ZarrsFault>
    ensures ok { IfOk result (AskFor (texts words.now)) }
    ensures err { IfErr result
        (λ fault. (fault ≡ ZarrsFault.Usage) × (AreWords (texts words.now) → ⊥)) }
{
    match words {
        [option] => asked_alone(option.as_str()),
        [word, source] => asked_of(word.as_str(), source.as_str()),
        [word, second, third] => asked_at(word.as_str(), second.as_str(), third.as_str()),
        [word, second, third, fourth] => asked_by_option(
            word.as_str(),
            second.as_str(),
            third.as_str(),
            fourth.as_str(),
        ),
        [word, first, second, source, path] => asked_by_options(
            word.as_str(),
            first.as_str(),
            second.as_str(),
            source.as_str(),
            path.as_str(),
        ),
        _ => Err(ZarrsFault::Usage),
    }
}

// What one word asks.
fn asked_alone(option: &str) -> Result<Asked<'static>, ZarrsFault>
    ensures ok { IfOk result (AskFor (option.now ∷ [])) }
    ensures err { IfErr result
        (λ fault. (fault ≡ ZarrsFault.Usage) × (AreWords (option.now ∷ []) → ⊥)) }
{
    match option {
        "--help" => Ok(Asked::Help),
        "--version" => Ok(Asked::Version),
        _ => Err(ZarrsFault::Usage),
    }
}

// What two words ask.
fn asked_of<'a>(word: &str, source: &'a str) -> Result<Asked<'a>, ZarrsFault>
    ensures ok { IfOk result (AskFor (word.now ∷ source.now ∷ [])) }
    ensures err { IfErr result
        (λ fault. (fault ≡ ZarrsFault.Usage) × (AreWords (word.now ∷ source.now ∷ []) → ⊥)) }
{
    let request = request_of(word, source)?;
    let path = "/";
    Ok(Asked::Store(Command {
        request,
        source,
        path,
    }))
}

// What three words ask: a word, a source and a path, or a word with an option, and a source.
fn asked_at<'a>(word: &str, second: &'a str, third: &'a str) -> Result<Asked<'a>, ZarrsFault>
    ensures ok { IfOk result (AskFor (word.now ∷ second.now ∷ third.now ∷ [])) }
    ensures err { IfErr result
        (λ fault. (fault ≡ ZarrsFault.Usage)
        × (AreWords (word.now ∷ second.now ∷ third.now ∷ []) → ⊥)) }
{
    if let Ok(request) = request_by(word, second, third) {
        return Ok(Asked::Store(Command {
            request,
            source: third,
            path: "/",
        }));
    }
    let request = request_of(word, second)?;
    Ok(Asked::Store(Command {
        request,
        source: second,
        path: path_word(third)?,
    }))
}

// What four words ask: a word with an option, a source and a path, or a word with two options, and a source.
fn asked_by_option<'a>(
    word: &str,
    second: &str,
    third: &'a str,
    fourth: &'a str,
) -> Result<Asked<'a>, ZarrsFault>
    ensures ok { IfOk result
        (AskFor (word.now ∷ second.now ∷ third.now ∷ fourth.now ∷ [])) }
    ensures err { IfErr result
        (λ fault. (fault ≡ ZarrsFault.Usage)
        × (AreWords (word.now ∷ second.now ∷ third.now ∷ fourth.now ∷ []) → ⊥)) }
{
    if let Ok(request) = request_by_two(word, second, third, fourth) {
        return Ok(Asked::Store(Command {
            request,
            source: fourth,
            path: "/",
        }));
    }
    let request = request_by(word, second, third)?;
    Ok(Asked::Store(Command {
        request,
        source: third,
        path: path_word(fourth)?,
    }))
}

// What five words ask: a word with two options, a source and a path.
fn asked_by_options<'a>(
    word: &str,
    first: &str,
    second: &str,
    source: &'a str,
    path: &'a str,
) -> Result<Asked<'a>, ZarrsFault>
    ensures ok { IfOk result
        (AskFor (word.now ∷ first.now ∷ second.now ∷ source.now ∷ path.now ∷ [])) }
    ensures err { IfErr result
        (λ fault. (fault ≡ ZarrsFault.Usage)
        × (AreWords (word.now ∷ first.now ∷ second.now ∷ source.now ∷ path.now ∷ []) → ⊥)) }
{
    let request = request_by_two(word, first, second, source)?;
    Ok(Asked::Store(Command {
        request,
        source,
        path: path_word(path)?,
    }))
}

// The path that a word names: an option is none.
fn path_word(word: &str) -> Result<&str, ZarrsFault>
    ensures ok { IfOk result (λ path. (path.now ≡ word.now) × (is_option word.now ≡ false)) }
    ensures err { IfErr result
        (λ fault. (fault ≡ ZarrsFault.Usage) × (is_option word.now ≢ false)) }
{
    if is_option(word) {
        return Err(ZarrsFault::Usage);
    }
    Ok(word)
}

// The request before a source.
fn request_of(word: &str, source: &str) -> Result<Request, ZarrsFault>
    ensures ok { IfOk result
        (λ found. Spells found (word.now ∷ []) × IsRequestSource found source.now) }
    ensures err { IfErr result (λ fault. (fault ≡ ZarrsFault.Usage)
        × ((found : Request) → Spells found (word.now ∷ [])
        × IsRequestSource found source.now → ⊥)) }
{
    match word {
        "tree" => look_at(Word::Tree, source),
        "list" => look_at(Word::List, source),
        "show" => look_at(Word::Show, source),
        "check" => check_of(false, false, source),
        "consolidate" => consolidate_of(false, false, source),
        _ => Err(ZarrsFault::Usage),
    }
}

// The request with an option before a source.
fn request_by(word: &str, option: &str, source: &str) -> Result<Request, ZarrsFault>
    ensures ok { IfOk result
        (λ found. Spells found (word.now ∷ option.now ∷ [])
        × IsRequestSource found source.now) }
    ensures err { IfErr result (λ fault. (fault ≡ ZarrsFault.Usage)
        × ((found : Request) → Spells found (word.now ∷ option.now ∷ [])
        × IsRequestSource found source.now → ⊥)) }
{
    match word {
        "tree" if option == "--store" => look_at(Word::StoreTree, source),
        "check" if option == "--notes" => check_of(true, false, source),
        "check" if option == "--json" => check_of(false, true, source),
        "consolidate" if option == "--dry-run" => consolidate_of(true, false, source),
        "consolidate" if option == "--remove" => consolidate_of(false, true, source),
        _ => Err(ZarrsFault::Usage),
    }
}

// The request with two options before a source, in either order.
fn request_by_two(
    word: &str,
    first: &str,
    second: &str,
    source: &str,
) -> Result<Request, ZarrsFault>
    ensures ok { IfOk result
        (λ found. Spells found (word.now ∷ first.now ∷ second.now ∷ [])
        × IsRequestSource found source.now) }
    ensures err { IfErr result (λ fault. (fault ≡ ZarrsFault.Usage)
        × ((found : Request) → Spells found (word.now ∷ first.now ∷ second.now ∷ [])
        × IsRequestSource found source.now → ⊥)) }
{
    match word {
        "check" if first == "--notes" && second == "--json" => check_of(true, true, source),
        "check" if first == "--json" && second == "--notes" => check_of(true, true, source),
        "consolidate" if first == "--dry-run" && second == "--remove" => {
            consolidate_of(true, true, source)
        }
        "consolidate" if first == "--remove" && second == "--dry-run" => {
            consolidate_of(true, true, source)
        }
        _ => Err(ZarrsFault::Usage),
    }
}

// The word `check` with its options before a source.
fn check_of(notes: bool, json: bool, source: &str) -> Result<Request, ZarrsFault>
    ensures ok { IfOk result
        (λ found. (found ≡ Request.Look (Word.Check (record { notes = notes; json = json })))
        × (is_option source.now ≡ false)) }
    ensures err { IfErr result
        (λ fault. (fault ≡ ZarrsFault.Usage) × (is_option source.now ≢ false)) }
{
    look_at(Word::Check(CheckOptions { notes, json }), source)
}

// A word before a source.
fn look_at(word: Word, source: &str) -> Result<Request, ZarrsFault>
    ensures ok { IfOk result
        (λ found. (found ≡ Request.Look word) × (is_option source.now ≡ false)) }
    ensures err { IfErr result
        (λ fault. (fault ≡ ZarrsFault.Usage) × (is_option source.now ≢ false)) }
{
    if is_option(source) {
        return Err(ZarrsFault::Usage);
    }
    Ok(Request::Look(word))
}

// The word `consolidate` with its options before a source.
fn consolidate_of(dry_run: bool, remove: bool, source: &str) -> Result<Request, ZarrsFault>
    ensures ok { IfOk result
        (λ found. (found
        ≡ Request.Consolidate (record { dry_run = dry_run; remove = remove }))
        × (is_option source.now ≡ false) × (source.now ≢ codes "-")) }
    ensures err { IfErr result
        (λ fault. (fault ≡ ZarrsFault.Usage)
        × ((is_option source.now ≡ false) × (source.now ≢ codes "-") → ⊥)) }
{
    if source == "-" || is_option(source) {
        return Err(ZarrsFault::Usage);
    }
    Ok(Request::Consolidate(ConsolidateOptions { dry_run, remove }))
}

// Whether a word is written as an option is, with two dashes in front.
fn is_option(word: &str) -> bool
    ensures { result ≡ is_option word.now }
{
    word.starts_with("--")
}

// The path that a text names: with a slash in front, which may be left out.
pub(crate) fn with_leading_slash(alloc: Global, text: &str) -> Result<String, AllocError>
    ensures { IfOk result (λ path. string_bytes path ≡ with_leading_slash text.now) }
{
    if text.starts_with("/") {
        return String::from_str(alloc, text);
    }
    format!(in alloc; "/{text}")
}
