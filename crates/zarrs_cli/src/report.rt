//! The report on a store.
ghost use Rattle.std.specs.Prelude.{◌≡◌, ◌++◌, None, Some, IfOk, IfErr, OnOk, filter, map, string_bytes};
ghost use Rattle.zarrs_meaning.specs.Refusals.{IsExcused};
ghost use Rattle.zarrs_store.specs.Contents.{Contents};
ghost use Rattle.zarrs_config.specs.declared.version.MetadataRetrieveVersion.TheVariants.{Default};
ghost use Rattle.zarrs_check.specs.PathChecks.{IsPathCheckOf};
ghost use Rattle.zarrs_cli.specs.Kinds.{error_kind, finding_kind, told_kind, wrong_key};
ghost use Rattle.zarrs_cli.specs.Report.{IsReportFrom, alike_remark, error_remark, findings_among, is_asked, document_remark, line_of, notes_among, orphan_remark, own_remark, remark_of, remarks_text, report_text, tally_of, told_remark};
ghost use Rattle.zarrs_cli.specs.StepsOfReports.{AreSorted, all_remarks, asked_of, base_remarks, document_remarks, name_remark, node_remarks, nodes_from, own_remarks, remarks_from};
ghost use Rattle.zarrs_cli.specs.Texts.{tally_text};

use crate::escapes::push_line;
use crate::kind::RemarkKind;
use crate::remark::{Remark, cmp_remarks};
use crate::remarks_json::json_text;
use crate::texts::{alike_text, document_text, kind_text, name_text, orphan_text};
use crate::words::CheckOptions;
use log::Log;
use std::alloc::{AllocError, Global};
use std::fmt;
use zarrs_check::{Check, CheckedFrom, Finding, FindingKind, PathCheck};
use zarrs_config::MetadataRetrieveVersion;
use zarrs_form::Text;
use zarrs_meaning::NodeCreateError;
use zarrs_notes::NodeFinding;
use zarrs_path::NodePath;
use zarrs_store::{ListableStorageTraits, ReadableStorageTraits, StorePrefix};

/// How much a check looked at and found.
///
/// Source: own.
/// <https://zarr-specs.readthedocs.io/en/latest/v3/core/index.html#hierarchy>
#[derive(Clone, Copy, Debug, PartialEq, Eq)]
pub struct Tally {
    /// The number of nodes, including the base if it is a node.
    pub nodes: usize,
    /// The number of findings.
    pub findings: usize,
    /// The number of notes; `None` if they are not asked for.
    pub notes: Option<usize>,
}

impl fmt::Display for Tally {
    ghost output = { λ tally. Some (tally_text tally) };

    /// Writes the numbers, each with what it counts.
    fn fmt<W: fmt::Write>(&self, f: &mut fmt::Formatter<W>) -> fmt::Result {
        let nodes = self.nodes;
        let findings = self.findings;
        let node = if nodes == 1 { "node" } else { "nodes" };
        let finding = if findings == 1 { "finding" } else { "findings" };
        write!(f, "{nodes} {node}, {findings} {finding}")?;
        let Some(notes) = self.notes else {
            return Ok(());
        };
        let note = if notes == 1 { "note" } else { "notes" };
        write!(f, ", {notes} {note}")
    }
}

/// The report on what a store has at a path and below it, and on what the blocks of the groups above the path say otherwise. Nothing below an array is
/// looked at: it is one node.
///
/// # Errors
/// `StorageError::Fault` of a store that can fail, and `OutOfMemory`.
///
/// Source: own.
pub(crate) fn report<L: Log, S: ReadableStorageTraits + ListableStorageTraits>(
    log: &L,
    alloc: Global,
    options: CheckOptions,
    store: &S,
    base: &NodePath,
) -> Result<(Tally, String), NodeCreateError>
    ensures ok { IfOk result (λ made.
        IsReportFrom (S.contents store.now) base.now options made.0 (string_bytes made.1)) }
    ensures excused { IfErr result (IsExcused (S.can_fail store.now)) }
{
    let version = MetadataRetrieveVersion::Default;
    let checked = PathCheck::of_store(log, alloc, store, base, &version)?;
    let made = report_of_check(alloc, options, base, &checked)?;
    Ok(made)
}

/// The report on what was checked from a path on.
pub(crate) fn report_of_check(
    alloc: Global,
    options: CheckOptions,
    base: &NodePath,
    checked: &PathCheck,
) -> Result<(Tally, String), AllocError>
    ensures { IfOk result (λ made. (s : Contents) → IsPathCheckOf s Default base.now checked.now
        → IsReportFrom s base.now options made.0 (string_bytes made.1)) }
{
    let (nodes, mut remarks) = remarks_from(alloc, base, &checked.from)?;
    add_findings(alloc, &checked.above, &mut remarks)?;
    arrange(options, &mut remarks)?;
    let made = made_of(alloc, options, nodes, remarks)?;
    Ok(made)
}

// The number of nodes from a path on, and what there is to tell of them.
fn remarks_from(
    alloc: Global,
    base: &NodePath,
    from: &CheckedFrom,
) -> Result<(usize, Vec<Remark>), AllocError>
    ensures nodes { IfOk result (λ told. told.0 ≡ nodes_from from.now) }
    ensures remarks { IfOk result (λ told. told.1.items ≡ remarks_from base.now from.now) }
{
    match from {
        CheckedFrom::Array(found) => Ok((1, node_remarks(alloc, base, found)?)),
        CheckedFrom::Tree(check) => Ok((check.nodes, all_remarks(alloc, check)?)),
    }
}

// What the documents of one node tell.
fn node_remarks(
    alloc: Global,
    path: &NodePath,
    found: &[NodeFinding],
) -> Result<Vec<Remark>, AllocError>
    ensures { IfOk result (λ remarks. remarks.items ≡ node_remarks path.now found.now) }
{
    let mut remarks = Vec::new(alloc);
    for finding in found {
        remarks.push(told_remark(alloc, path, finding)?)?;
    }
    Ok(remarks)
}

// The numbers and the text of what was told of so many nodes.
fn made_of(
    alloc: Global,
    options: CheckOptions,
    nodes: usize,
    remarks: Vec<Remark>,
) -> Result<(Tally, String), AllocError>
    ensures tally { IfOk result (λ made. made.0 ≡ tally_of options nodes remarks.items) }
    ensures text { IfOk result (λ made. string_bytes made.1 ≡ remarks_text options remarks.items) }
{
    let tally = tally_of(options, nodes, &remarks);
    let text = remarks_text(alloc, options, remarks)?;
    Ok((tally, text))
}

// How much was told of so many nodes.
fn tally_of(options: CheckOptions, nodes: usize, remarks: &[Remark]) -> Tally
    ensures { result ≡ tally_of options nodes remarks.now }
{
    Tally {
        nodes,
        findings: findings_among(remarks),
        notes: if options.notes {
            Some(notes_among(remarks))
        } else {
            None
        },
    }
}

// The number of findings among remarks.
fn findings_among(remarks: &[Remark]) -> usize
    ensures { result ≡ findings_among remarks.now }
{
    remarks
        .iter()
        .filter(|remark| !remark.kind.is_note())
        .count()
}

// The number of notes among remarks.
fn notes_among(remarks: &[Remark]) -> usize
    ensures { result ≡ notes_among remarks.now }
{
    remarks
        .iter()
        .filter(|remark| remark.kind.is_note())
        .count()
}

// Leaves those remarks that are asked for, in their order.
fn arrange(options: CheckOptions, remarks: &mut Vec<Remark>) -> Result<(), AllocError>
    ensures { OnOk result (AreSorted (asked_of options remarks.old.items) remarks.new.items) }
{
    keep_asked(options.notes, remarks);
    sort_remarks(remarks)
}

// All that there is to tell.
fn all_remarks(alloc: Global, checked: &Check) -> Result<Vec<Remark>, AllocError>
    ensures { IfOk result (λ remarks. remarks.items ≡ all_remarks checked.now) }
{
    let mut remarks = own_remarks(alloc, checked)?;
    add_alike(alloc, &checked.alike, &mut remarks)?;
    add_findings(alloc, &checked.findings, &mut remarks)?;
    Ok(remarks)
}

// Leaves the notes out, where they are not asked for.
fn keep_asked(notes: bool, remarks: &mut Vec<Remark>)
    ensures { remarks.new.items ≡ filter (is_asked notes) remarks.old.items }
{
    if notes {
        return;
    }
    remarks.retain(|remark| !remark.kind.is_note());
}

// The own faults of paths, what is lost below those without documents, and what the documents of nodes tell.
fn own_remarks(alloc: Global, checked: &Check) -> Result<Vec<Remark>, AllocError>
    ensures { IfOk result (λ remarks. remarks.items ≡ own_remarks checked.now) }
{
    let mut remarks = Vec::new(alloc);
    add_base(alloc, &checked.path, &checked.base_fault, &mut remarks)?;
    add_documents(alloc, checked, &mut remarks)?;
    add_names(alloc, &checked.bad_names, &mut remarks)?;
    add_orphans(alloc, &checked.orphans, &mut remarks)?;
    add_told(alloc, &checked.told, &mut remarks)?;
    Ok(remarks)
}

// Puts the fault of the base behind the other remarks, where it has one.
fn add_base(
    alloc: Global,
    path: &NodePath,
    fault: &Option<NodeCreateError>,
    remarks: &mut Vec<Remark>,
) -> Result<(), AllocError>
    ensures { OnOk result
        (remarks.new.items ≡ remarks.old.items ++ base_remarks path.now fault.now) }
{
    if let Some(error) = fault {
        remarks.push(error_remark(alloc, path, error)?)?;
    }
    Ok(())
}

// The remark on why a path is no node.
fn error_remark(
    alloc: Global,
    path: &NodePath,
    error: &NodeCreateError,
) -> Result<Remark, AllocError>
    ensures { IfOk result (λ remark. remark ≡ error_remark path.now error.now) }
{
    let text = format!(in alloc; "{error}")?;
    Ok(own_remark(path.to_prefix(alloc)?, error_kind(error), text))
}

// The kind of why a path is no node.
fn error_kind(error: &NodeCreateError) -> RemarkKind
    ensures { result ≡ error_kind error.now }
{
    match error {
        NodeCreateError::MissingMetadata(_) => RemarkKind::NoNode,
        _ => RemarkKind::BadDocument,
    }
}

// Puts the faults of bad documents behind the other remarks.
fn add_documents(
    alloc: Global,
    checked: &Check,
    remarks: &mut Vec<Remark>,
) -> Result<(), AllocError>
    ensures { OnOk result (remarks.new.items ≡ remarks.old.items
        ++ document_remarks checked.now.bad_documents checked.now.hidden.items) }
{
    let mut counts = checked.hidden.as_slice();
    for (path, error) in checked.bad_documents.as_slice() {
        let [hidden, rest @ ..] = counts else {
            return Ok(());
        };
        remarks.push(document_remark(alloc, path, error, *hidden)?)?;
        counts = rest;
    }
    Ok(())
}

// The remark on a bad document, below which so many paths have one.
fn document_remark(
    alloc: Global,
    path: &NodePath,
    error: &NodeCreateError,
    hidden: usize,
) -> Result<Remark, AllocError>
    ensures { IfOk result
        (λ remark. remark ≡ document_remark (path.now, error.now) hidden) }
{
    let text = document_text(alloc, error, hidden)?;
    Ok(own_remark(path.to_prefix(alloc)?, error_kind(error), text))
}

// Puts the bad names behind the other remarks.
fn add_names(
    alloc: Global,
    names: &[StorePrefix],
    remarks: &mut Vec<Remark>,
) -> Result<(), AllocError>
    ensures { OnOk result
        (remarks.new.items ≡ remarks.old.items ++ map name_remark names.now) }
{
    for name in names {
        remarks.push(name_remark(alloc, name)?)?;
    }
    Ok(())
}

// The remark on a bad name.
fn name_remark(alloc: Global, name: &StorePrefix) -> Result<Remark, AllocError>
    ensures { IfOk result (λ remark. remark ≡ name_remark name.now) }
{
    let text = name_text(alloc, name)?;
    Ok(own_remark(name.try_clone(alloc)?, RemarkKind::BadName, text))
}

// Puts what is lost below paths without documents behind the other remarks.
fn add_orphans(
    alloc: Global,
    orphans: &[(NodePath, usize)],
    remarks: &mut Vec<Remark>,
) -> Result<(), AllocError>
    ensures { OnOk result
        (remarks.new.items ≡ remarks.old.items ++ map orphan_remark orphans.now) }
{
    for (path, nodes) in orphans {
        remarks.push(orphan_remark(alloc, path, *nodes)?)?;
    }
    Ok(())
}

// The remark on a path without a document, below which so many have one.
fn orphan_remark(alloc: Global, path: &NodePath, nodes: usize) -> Result<Remark, AllocError>
    ensures { IfOk result (λ remark. remark ≡ orphan_remark (path.now, nodes)) }
{
    let text = orphan_text(alloc, nodes)?;
    Ok(own_remark(path.to_prefix(alloc)?, RemarkKind::Orphaned, text))
}

// Puts what the documents of nodes tell behind the other remarks.
fn add_told(
    alloc: Global,
    told: &[(NodePath, NodeFinding)],
    remarks: &mut Vec<Remark>,
) -> Result<(), AllocError>
    ensures { OnOk result
        (remarks.new.items ≡ remarks.old.items ++ map told_remark told.now) }
{
    for (path, finding) in told {
        remarks.push(told_remark(alloc, path, finding)?)?;
    }
    Ok(())
}

// Puts the nodes whose names differ in case alone behind the other remarks.
fn add_alike(
    alloc: Global,
    alike: &[(NodePath, NodePath)],
    remarks: &mut Vec<Remark>,
) -> Result<(), AllocError>
    ensures { OnOk result
        (remarks.new.items ≡ remarks.old.items ++ map alike_remark alike.now) }
{
    for (path, before) in alike {
        remarks.push(alike_remark(alloc, path, before)?)?;
    }
    Ok(())
}

// The remark on a path whose name is that of another one but for case.
fn alike_remark(alloc: Global, path: &NodePath, before: &NodePath) -> Result<Remark, AllocError>
    ensures { IfOk result (λ remark. remark ≡ alike_remark (path.now, before.now)) }
{
    let text = alike_text(alloc, before, path)?;
    Ok(own_remark(path.to_prefix(alloc)?, RemarkKind::Alike, text))
}

// The remark on what the documents of a node tell.
fn told_remark(alloc: Global, path: &NodePath, finding: &NodeFinding) -> Result<Remark, AllocError>
    ensures { IfOk result (λ remark. remark ≡ told_remark (path.now, finding.now)) }
{
    let text = format!(in alloc; "{finding}")?;
    Ok(own_remark(path.to_prefix(alloc)?, told_kind(finding), text))
}

// The kind of what the documents of a node tell.
fn told_kind(finding: &NodeFinding) -> RemarkKind
    ensures { result ≡ told_kind finding.now }
{
    match finding {
        NodeFinding::NoLengths => RemarkKind::BadShape,
        NodeFinding::GridRank { .. } => RemarkKind::BadShape,
        NodeFinding::ZeroLength => RemarkKind::BadShape,
        NodeFinding::NameCount { .. } => RemarkKind::BadShape,
        NodeFinding::FillValue(_) => RemarkKind::BadFillValue,
        NodeFinding::NoCodecs => RemarkKind::BadCodecs,
        NodeFinding::UnknownField(_) => RemarkKind::NotOpened,
        NodeFinding::DemandingBlock(_) => RemarkKind::NotOpened,
        NodeFinding::MisplacedBlock => RemarkKind::Misplaced,
        NodeFinding::Beside { .. } => RemarkKind::Beside,
        NodeFinding::LeftOver(_) => RemarkKind::LeftOver,
    }
}

// What there is to tell of a path itself.
fn own_remark(path: StorePrefix, kind: RemarkKind, text: String) -> Remark
    ensures { result ≡ own_remark path kind (string_bytes text) }
{
    Remark {
        path,
        kind,
        group: None,
        key: None,
        text: Text::new(text),
    }
}

// Puts what there is to tell of blocks behind the other remarks.
fn add_findings(
    alloc: Global,
    findings: &[Finding],
    remarks: &mut Vec<Remark>,
) -> Result<(), AllocError>
    ensures { OnOk result
        (remarks.new.items ≡ remarks.old.items ++ map remark_of findings.now) }
{
    for finding in findings {
        remarks.push(remark_of(alloc, finding)?)?;
    }
    Ok(())
}

// The remark on a finding.
fn remark_of(alloc: Global, finding: &Finding) -> Result<Remark, AllocError>
    ensures { IfOk result (λ remark. remark ≡ remark_of finding.now) }
{
    let text = kind_text(alloc, &finding.group, &finding.kind)?;
    Ok(Remark {
        path: finding.path.to_prefix(alloc)?,
        kind: finding_kind(&finding.kind),
        group: Some(finding.group.try_clone(alloc)?),
        key: wrong_key(alloc, &finding.kind)?,
        text: Text::new(text),
    })
}

// The kind of what is wrong with a block.
fn finding_kind(kind: &FindingKind) -> RemarkKind
    ensures { result ≡ finding_kind kind.now }
{
    match kind {
        FindingKind::BlockFault(_) => RemarkKind::BadBlock,
        FindingKind::BadKey(_) => RemarkKind::BadKey,
        FindingKind::Shadowed(_) => RemarkKind::Shadowed,
        FindingKind::OwnKey(_) => RemarkKind::OwnKey,
        FindingKind::OwnAttributes => RemarkKind::OwnAttributes,
        FindingKind::Unreachable => RemarkKind::Unreachable,
        FindingKind::Stale => RemarkKind::Stale,
        FindingKind::Unreached => RemarkKind::Unreached,
        FindingKind::Differs => RemarkKind::Differs,
        FindingKind::Missing => RemarkKind::Missing,
    }
}

// The key of the block that is wrong, if it is one.
fn wrong_key(alloc: Global, kind: &FindingKind) -> Result<Option<Text>, AllocError>
    ensures { IfOk result (λ key. key ≡ wrong_key kind.now) }
{
    match kind {
        FindingKind::BadKey(key) => Ok(Some(Text::from_str(alloc, key.as_str())?)),
        FindingKind::Shadowed(key) => Ok(Some(Text::from_str(alloc, key.as_str())?)),
        FindingKind::OwnKey(key) => Ok(Some(Text::from_str(alloc, key.as_str())?)),
        _ => Ok(None),
    }
}

// Puts remarks in their order.
fn sort_remarks(remarks: &mut Vec<Remark>) -> Result<(), AllocError>
    ensures { OnOk result (AreSorted remarks.old.items remarks.new.items) }
{
    remarks.sort_by(|a, b| cmp_remarks(a, b))
}

// The lines of remarks, or where it is asked for their JSON.
fn remarks_text(
    alloc: Global,
    options: CheckOptions,
    remarks: Vec<Remark>,
) -> Result<String, AllocError>
    ensures { IfOk result (λ text. string_bytes text ≡ remarks_text options remarks.items) }
{
    if options.json {
        return json_text(alloc, remarks);
    }
    report_text(alloc, remarks)
}

// The lines of remarks.
fn report_text(alloc: Global, remarks: Vec<Remark>) -> Result<String, AllocError>
    ensures { IfOk result (λ text. string_bytes text ≡ report_text remarks.items) }
{
    let mut text = String::new(alloc);
    for remark in remarks {
        let line = line_of(alloc, remark)?;
        push_line(&mut text, line.as_str())?;
    }
    Ok(text)
}

// What the line of a remark says.
fn line_of(alloc: Global, remark: Remark) -> Result<String, AllocError>
    ensures { IfOk result (λ line. string_bytes line ≡ line_of remark) }
{
    let mark = if remark.kind.is_note() { "note: " } else { "" };
    let path = NodePath::text_of(remark.path)?;
    let text = remark.text.as_str();
    format!(in alloc; "{mark}{path}: {text}")
}
