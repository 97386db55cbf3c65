//! A word over a folder: what it asks of the folder, and no more, is loaded first.
ghost use Rattle.std.specs.Prelude.{◌≡◌, false, None, IfOk, IfErr, IfSome, Contains, map, string_bytes};
ghost use Rattle.std.specs.Io.KnownBytes.{Keeps};
ghost use Rattle.zarrs_store.specs.Contents.{Values};
ghost use Rattle.zarrs_path.specs.Paths.{IsBelow, IsParent, IsPath, Path};
ghost use Rattle.zarrs_meta.specs.declared.node.GroupMetadata.{GroupMetadata};
ghost use Rattle.zarrs_meta.specs.declared.node.NodeMetadata.TheVariants.{Group};
ghost use Rattle.zarrs_config.specs.declared.version.MetadataRetrieveVersion.TheVariants.{Default};
ghost use Rattle.zarrs_meaning.specs.Meaning.{meaning, node};
ghost use Rattle.zarrs_block.specs.Policy.{list_store};
ghost use Rattle.zarrs_node.specs.OpeningNodes.{choice};
ghost use Rattle.zarrs_folder.specs.Folders.{in_any, values_of};
ghost use Rattle.zarrs_folder.specs.Openings.{OpenSame};
ghost use Rattle.zarrs_folder.specs.PrunedStores.{IsLoadedFrom};
ghost use Rattle.zarrs_folder.specs.declared.documents.Documents.TheVariants.{All};
ghost use Rattle.zarrs_cli.specs.Output.{IsWordText, WritesOverEach, WritesOverSome};
ghost use Rattle.zarrs_cli.specs.Refusals.{IsOfWriter, IsUnreadOnlyOf, RefusesFolder, RefusesOverEach, RefusesOverSome};
ghost use Rattle.zarrs_check.specs.PathChecks.{IsPathCheckOf};
ghost use Rattle.zarrs_cli.specs.StepsOfRuns.{HoldsAbove, IsAnswerFault, IsCheckable, IsChecked, IsEnough, IsFaultOfEach, IsFaultOfSome, IsWrittenOfEach, IsWrittenOfSome, has_more, has_more_from, is_stale, loaded_store, passed_from, passed_paths, stale_among, stale_of, stale_paths};

use crate::fault::ZarrsFault;
use crate::output::write_output;
use crate::report::{Tally, report_of_check};
use crate::run::output_of;
use crate::shown::tree_text;
use crate::words::Word;
use log::Log;
use log::sink::Discard;
use std::alloc::{AllocError, Global};
use std::io::Write;
use std::mem;
use zarrs_check::{BadDocuments, CheckedFrom, Finding, FindingKind, PathCheck};
use zarrs_config::{MetadataRetrieveVersion, UseConsolidatedMetadata};
use zarrs_folder::{
    Documents, Folder, load_base, load_children, load_nodes, load_passed, load_paths,
};
use zarrs_meaning::NodeCreateError;
use zarrs_meta::NodeMetadata;
use zarrs_node::{Node, consolidated_metadata_at};
use zarrs_path::NodePath;
use zarrs_program::path_of;
use zarrs_store::{
    AnyNumbers, ListableStorageTraits, MemoryStore, ReadableStorageTraits, StorageError,
};

/// Loads what a word asks of a folder from a path on, and writes its answer, as [`run_store`] does: of a group whose block is used, of an array, and where a
/// document is shown, the documents at the path only; else what a walk from the path on asks. Documents may hold any number. The memory of what was loaded
/// is not given back, since a run ends with its answer.
///
/// # Errors
/// `Folder`, of a folder that can fail, where a folder or a file is not read; the refusals of [`run_store`].
///
/// [`run_store`]: crate::run::run_store
///
/// Source: own.
pub fn run_of_folder<L: Log, F: Folder, W: Write>(
    log: &L,
    alloc: Global,
    word: Word,
    path: &str,
    folder: &mut F,
    writer: &mut W,
) -> Result<Option<Tally>, ZarrsFault>
    ensures ok { IfOk result
        (WritesOverSome word path.now (W.contents writer.old) (W.contents writer.new)) }
    ensures whole { IfOk result (WritesOverEach word path.now (F.agrees folder.new)
        (W.contents writer.old) (W.contents writer.new)) }
    ensures refused { IfErr result (RefusesOverSome word path.now) }
    ensures whole_refused { IfErr result (RefusesOverEach word path.now (F.agrees folder.new)) }
    ensures unread { IfErr result (IsUnreadOnlyOf (F.can_fail folder.new)) }
    ensures silent { IfErr result (λ fault. (IsOfWriter fault → ⊥)
        → Keeps (W.contents writer.old) (W.contents writer.new)) }
{
    let base = path_of(alloc, path)?;
    let made = output_of_folder(log, alloc, word, folder, &base)?;
    write_output(made.1.as_str(), writer)?;
    Ok(made.0)
}

// What was loaded of a folder for a word; and its check, where that is the check of the whole folder.
#[derive(Drop)]
struct Loaded {
    store: AnyNumbers<MemoryStore>,
    checked: Option<PathCheck>,
}

// What a word writes of a folder from a path on. What was loaded is not given back: a run ends with its answer, and to free it piece by piece takes an
// eighth of a listing's time.
fn output_of_folder<L: Log, F: Folder>(
    log: &L,
    alloc: Global,
    word: Word,
    folder: &mut F,
    base: &NodePath,
) -> Result<(Option<Tally>, String), ZarrsFault>
    ensures valid { IsPath base.now }
    ensures ok { IfOk result (IsWrittenOfSome word base.now) }
    ensures whole { IfOk result (IsWrittenOfEach word base.now (F.agrees folder.new)) }
    ensures err { IfErr result (IsFaultOfSome word base.now) }
    ensures whole_err { IfErr result (IsFaultOfEach word base.now (F.agrees folder.new)) }
    ensures unread { IfErr result (IsUnreadOnlyOf (F.can_fail folder.new)) }
{
    let _valid = base.as_str();
    if let Some(text) = tree_by_block(log, alloc, word, folder, base)? {
        return Ok((None, text));
    }
    let loaded = load_for(alloc, word, folder, base)?;
    let made = output_of_loaded(log, alloc, word, &loaded, base);
    mem::forget(loaded);
    made
}

// The tree of a folder from a path on, where it hangs on the documents at the path alone: by the block there, or of an array. So a block is read once;
// where there is none, those documents are read once more.
fn tree_by_block<L: Log, F: Folder>(
    log: &L,
    alloc: Global,
    word: Word,
    folder: &mut F,
    base: &NodePath,
) -> Result<Option<String>, ZarrsFault>
    ensures ok { IfOk result (λ made.
        IfSome made (λ text. IsWrittenOfSome word base.now (None, text))) }
    ensures whole { IfOk result (λ made.
        IfSome made (λ text. IsWrittenOfEach word base.now (F.agrees folder.new) (None, text))) }
    ensures err { IfErr result RefusesFolder }
    ensures unread { IfErr result (IsUnreadOnlyOf (F.can_fail folder.new)) }
{
    let _valid = base.as_str();
    let Word::Tree = word else {
        return Ok(None);
    };
    let store = load_base(alloc, folder, base)?;
    let shown = tree_text(log, alloc, &store, base, UseConsolidatedMetadata::Must);
    mem::forget(store);
    Ok(shown.ok())
}

// What a word writes of what was loaded for it.
fn output_of_loaded<L: Log>(
    log: &L,
    alloc: Global,
    word: Word,
    loaded: &Loaded,
    base: &NodePath,
) -> Result<(Option<Tally>, String), ZarrsFault>
    requires checked { IsChecked loaded.now base.now }
    ensures ok { IfOk result (λ made.
        IsWordText word (loaded_store loaded.now) base.now made.0 (string_bytes made.1)) }
    ensures err { IfErr result (IsAnswerFault false word (loaded_store loaded.now) base.now) }
{
    match (word, &loaded.checked) {
        (Word::Check(options), Some(checked)) => {
            let made = report_of_check(alloc, options, base, checked)?;
            Ok((Some(made.0), made.1))
        }
        _ => output_of(log, alloc, word, &loaded.store, base),
    }
}

// The part of a folder that a word asks for from a path on.
fn load_for<F: Folder>(
    alloc: Global,
    word: Word,
    folder: &mut F,
    base: &NodePath,
) -> Result<Loaded, ZarrsFault>
    ensures ok { IfOk result (λ loaded. (V : Values) → F.agrees folder.new V
        → IsEnough word (in_any V) (loaded_store loaded) base.now) }
    ensures checked { IfOk result (λ loaded. IsChecked loaded base.now) }
    ensures err { IfErr result RefusesFolder }
    ensures unread { IfErr result (IsUnreadOnlyOf (F.can_fail folder.new)) }
{
    let store = match word {
        Word::Tree => load_shown(alloc, UseConsolidatedMetadata::Auto, folder, base)?,
        Word::StoreTree => load_shown(alloc, UseConsolidatedMetadata::Never, folder, base)?,
        Word::List => load_shown(alloc, UseConsolidatedMetadata::Never, folder, base)?,
        Word::Show => load_document(alloc, folder, base)?,
        Word::Check(_) => return load_checked(alloc, folder, base),
    };
    Ok(Loaded {
        store,
        checked: None,
    })
}

// What a check looks at: what a walk asks; the files of the paths above; the documents below the paths at which a walk goes no further; and those at
// the entries of blocks to which it does not come. Where there are no such paths and entries, the check of what a walk asks is that of the folder.
fn load_checked<F: Folder>(
    alloc: Global,
    folder: &mut F,
    base: &NodePath,
) -> Result<Loaded, ZarrsFault>
    ensures ok { IfOk result (λ loaded. (V : Values) → F.agrees folder.new V
        → IsCheckable (in_any V) (loaded_store loaded) base.now) }
    ensures checked { IfOk result (λ loaded. IsChecked loaded base.now) }
    ensures err { IfErr result RefusesFolder }
    ensures unread { IfErr result (IsUnreadOnlyOf (F.can_fail folder.new)) }
{
    let store = load_walked(alloc, folder, base)?;
    let checked = first_check(alloc, &store, base)?;
    if !has_more(&checked) {
        return Ok(Loaded {
            store,
            checked: Some(checked),
        });
    }
    let store = load_more(alloc, folder, base, checked, store)?;
    Ok(Loaded {
        store,
        checked: None,
    })
}

// What a walk from a path on asks, and the files of each path above.
fn load_walked<F: Folder>(
    alloc: Global,
    folder: &mut F,
    base: &NodePath,
) -> Result<AnyNumbers<MemoryStore>, ZarrsFault>
    ensures loaded { IfOk result (λ store. (V : Values) → F.agrees folder.new V
        → IsLoadedFrom All (in_any V) (in_any (values_of store.inner)) base.now) }
    ensures above { IfOk result (λ store. (V : Values) → F.agrees folder.new V
        → HoldsAbove (in_any V) (in_any (values_of store.inner)) base.now) }
    ensures err { IfErr result RefusesFolder }
    ensures unread { IfErr result (IsUnreadOnlyOf (F.can_fail folder.new)) }
{
    let above = paths_above(alloc, base)?;
    let store = load_nodes(alloc, folder, Documents::All, base)?;
    let store = load_paths(alloc, folder, base, &above, store)?;
    Ok(store)
}

// Each path above a path.
fn paths_above(alloc: Global, base: &NodePath) -> Result<Vec<NodePath>, AllocError>
    ensures { IfOk result (λ paths. (g : Path) → IsBelow g base.now → Contains paths.items g) }
{
    let mut paths = Vec::new(alloc);
    let mut above = parent_of(alloc, base)?;
    while let Some(path) = above {
        above = parent_of(alloc, &path)?;
        paths.push(path)?;
    }
    Ok(paths)
}

// The path without its last name; none for the root.
fn parent_of(alloc: Global, path: &NodePath) -> Result<Option<NodePath>, AllocError>
    ensures { IfOk result (IsParent path.now) }
{
    match path.parent(alloc) {
        Ok(parent) => Ok(parent),
        Err(_) => Err(AllocError),
    }
}

// The check of a store from a path on.
fn first_check<S: ReadableStorageTraits + ListableStorageTraits>(
    alloc: Global,
    store: &S,
    base: &NodePath,
) -> Result<PathCheck, ZarrsFault>
    ensures ok { IfOk result (IsPathCheckOf (S.contents store.now) Default base.now) }
    ensures err { IfErr result (λ fault. fault ≡ ZarrsFault.OutOfMemory) }
{
    let version = MetadataRetrieveVersion::Default;
    match PathCheck::of_store(&Discard, alloc, store, base, &version) {
        Ok(checked) => Ok(checked),
        Err(_) => Err(ZarrsFault::OutOfMemory),
    }
}

// Whether more of a folder has to be looked at than what was checked.
fn has_more(checked: &PathCheck) -> bool
    ensures { result ≡ has_more checked.now }
{
    stale_among(&checked.above) > 0 || has_more_from(&checked.from)
}

// The same of what was checked from the path on.
fn has_more_from(from: &CheckedFrom) -> bool
    ensures { result ≡ has_more_from from.now }
{
    let CheckedFrom::Tree(check) = from else {
        return false;
    };
    !check.ignored.is_empty()
        || !check.bad_documents.as_slice().is_empty()
        || stale_among(&check.findings) > 0
}

// The number of stale entries among findings.
fn stale_among(findings: &[Finding]) -> usize
    ensures { result ≡ stale_among findings.now }
{
    findings
        .iter()
        .filter(|finding| is_stale(&finding.kind))
        .count()
}

// A store that was loaded, and more of it: the documents below the paths at which a walk goes no further, and those at stale entries.
fn load_more<F: Folder>(
    alloc: Global,
    folder: &mut F,
    base: &NodePath,
    checked: PathCheck,
    store: AnyNumbers<MemoryStore>,
) -> Result<AnyNumbers<MemoryStore>, ZarrsFault>
    ensures ok { IfOk result (λ more. (V : Values) → F.agrees folder.new V
        → IsLoadedFrom All (in_any V) (in_any (values_of store.inner)) base.now
        → HoldsAbove (in_any V) (in_any (values_of store.inner)) base.now
        → IsPathCheckOf (in_any (values_of store.inner)) Default base.now checked
        → IsCheckable (in_any V) (in_any (values_of more.inner)) base.now) }
    ensures before { (V : Values) → F.agrees folder.new V → F.agrees folder.old V }
    ensures err { IfErr result RefusesFolder }
    ensures unread { IfErr result (IsUnreadOnlyOf (F.can_fail folder.new)) }
{
    let (passed, stale) = paths_of_more(alloc, checked)?;
    let store = load_passed(alloc, folder, base, &passed, store)?;
    let store = load_paths(alloc, folder, base, &stale, store)?;
    Ok(store)
}

// The paths at which a walk goes no further, and those of stale entries.
fn paths_of_more(
    alloc: Global,
    checked: PathCheck,
) -> Result<(Vec<NodePath>, Vec<NodePath>), AllocError>
    ensures passed { IfOk result (λ paths. paths.0.items ≡ passed_from checked.from) }
    ensures stale { IfOk result (λ paths. paths.1.items ≡ stale_of checked) }
{
    let PathCheck { from, above } = checked;
    let mut stale = paths_of_stale(alloc, above)?;
    let CheckedFrom::Tree(check) = from else {
        return Ok((Vec::new(alloc), stale));
    };
    let passed = passed_paths(alloc, check.ignored, &check.bad_documents)?;
    stale.append(&mut paths_of_stale(alloc, check.findings)?)?;
    Ok((passed, stale))
}

// The paths at which a walk goes no further: those without documents, and those whose documents are bad.
fn passed_paths(
    alloc: Global,
    ignored: Vec<NodePath>,
    bad_documents: &BadDocuments,
) -> Result<Vec<NodePath>, AllocError>
    ensures { IfOk result (λ paths.
        paths.items ≡ passed_paths ignored.items bad_documents.now) }
{
    let mut paths = ignored;
    for (path, _error) in bad_documents.as_slice() {
        paths.push(path.try_clone(alloc)?)?;
    }
    Ok(paths)
}

// The paths of those findings that are stale entries.
fn paths_of_stale(alloc: Global, mut findings: Vec<Finding>) -> Result<Vec<NodePath>, AllocError>
    ensures { IfOk result (λ paths. paths.items ≡ stale_paths findings.items) }
{
    findings.retain(|finding| is_stale(&finding.kind));
    let paths = paths_of(alloc, findings)?;
    Ok(paths)
}

// The paths of findings.
fn paths_of(alloc: Global, findings: Vec<Finding>) -> Result<Vec<NodePath>, AllocError>
    ensures { IfOk result (λ paths. paths.items ≡ map (λ f. f.path) findings.items) }
{
    let mut paths = Vec::new(alloc);
    for finding in findings {
        paths.push(finding.path)?;
    }
    Ok(paths)
}

// Whether an entry is stale.
fn is_stale(kind: &FindingKind) -> bool
    ensures { result ≡ is_stale kind.now }
{
    matches!(kind, FindingKind::Stale)
}

// What a tree or a list looks at: the documents at a path, and what is below it where that is listed.
fn load_shown<F: Folder>(
    alloc: Global,
    policy: UseConsolidatedMetadata,
    folder: &mut F,
    base: &NodePath,
) -> Result<AnyNumbers<MemoryStore>, ZarrsFault>
    ensures ok { IfOk result (λ loaded. (V : Values) → F.agrees folder.new V
        → OpenSame (in_any V) (in_any (values_of loaded.inner)) policy base.now) }
    ensures err { IfErr result RefusesFolder }
    ensures unread { IfErr result (IsUnreadOnlyOf (F.can_fail folder.new)) }
{
    let store = load_base(alloc, folder, base)?;
    if !is_listed(alloc, &store, base, policy) {
        return Ok(store);
    }
    let store = load_children(alloc, folder, Documents::Deciding, base, store)?;
    Ok(store)
}

// What the document that is shown looks at: the documents of the path.
fn load_document<F: Folder>(
    alloc: Global,
    folder: &mut F,
    base: &NodePath,
) -> Result<AnyNumbers<MemoryStore>, ZarrsFault>
    ensures ok { IfOk result (λ loaded. (V : Values) → F.agrees folder.new V
        → meaning (in_any (values_of loaded.inner)) Default base.now
        ≡ meaning (in_any V) Default base.now) }
    ensures err { IfErr result RefusesFolder }
    ensures unread { IfErr result (IsUnreadOnlyOf (F.can_fail folder.new)) }
{
    let store = load_base(alloc, folder, base)?;
    Ok(store)
}

// Whether the nodes below a path may have to be listed: not where the path is no group, nor where its block is used.
fn is_listed<S: ReadableStorageTraits>(
    alloc: Global,
    store: &S,
    base: &NodePath,
    policy: UseConsolidatedMetadata,
) -> bool
    ensures { result ≡ false → (g : GroupMetadata)
        → meaning (S.contents store.now) Default base.now ≡ node (Group g)
        → choice (S.contents store.now) policy base.now (Group g) ≡ list_store → ⊥ }
{
    match Node::get_metadata(alloc, store, base, &MetadataRetrieveVersion::Default) {
        Ok(metadata) => is_group_listed(alloc, store, base, &metadata, policy),
        Err(NodeCreateError::MissingMetadata(_)) => false,
        Err(NodeCreateError::MetadataVersionMismatch) => false,
        Err(NodeCreateError::StorageError(StorageError::InvalidMetadata(_, _))) => false,
        Err(_) => true,
    }
}

// The same of a path that means a node with these metadata.
fn is_group_listed<S: ReadableStorageTraits>(
    alloc: Global,
    store: &S,
    base: &NodePath,
    metadata: &NodeMetadata,
    policy: UseConsolidatedMetadata,
) -> bool
    ensures { result ≡ false → (g : GroupMetadata) → metadata.now ≡ Group g
        → choice (S.contents store.now) policy base.now (Group g) ≡ list_store → ⊥ }
{
    if !metadata.is_group() {
        return false;
    }
    match consolidated_metadata_at(alloc, store, base, metadata, policy) {
        Ok(Some(_)) => false,
        Ok(None) => true,
        Err(_) => true,
    }
}
