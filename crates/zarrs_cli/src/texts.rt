//! The texts of bad documents and names, of paths without documents, and of findings.
ghost use Rattle.std.specs.Prelude.{◌≡◌, IfOk, string_bytes};
ghost use Rattle.zarrs_path.specs.Paths.{without_leading_slash};
ghost use Rattle.zarrs_cli.specs.Texts as texts;

use std::alloc::{AllocError, Global};
use zarrs_check::FindingKind;
use zarrs_meaning::NodeCreateError;
use zarrs_path::{NodePath, without_leading_slash};
use zarrs_store::StorePrefix;

/// That the last name of a path is none, with the path.
pub(crate) fn name_text(alloc: Global, path: &StorePrefix) -> Result<String, AllocError>
    ensures { IfOk result (λ text. string_bytes text ≡ texts.name_text path.now) }
{
    let path = NodePath::text_of(path.try_clone(alloc)?)?;
    format!(in alloc; "invalid node path {path}")
}

/// Why a document is bad, and how many paths below its own were not looked at.
pub(crate) fn document_text(
    alloc: Global,
    error: &NodeCreateError,
    hidden: usize,
) -> Result<String, AllocError>
    ensures { IfOk result (λ text. string_bytes text ≡ texts.document_text error.now hidden) }
{
    let more = hidden_text(alloc, hidden)?;
    format!(in alloc; "{error}{more}")
}

// That so many paths were not looked at, if there are any.
fn hidden_text(alloc: Global, hidden: usize) -> Result<String, AllocError>
    ensures { IfOk result (λ text. string_bytes text ≡ texts.hidden_text hidden) }
{
    if hidden == 0 {
        return Ok(String::new(alloc));
    }
    format!(in alloc; "; {hidden} documents below it were not looked at")
}

/// That a path has no document, and how many nodes below it are not reached.
pub(crate) fn orphan_text(alloc: Global, nodes: usize) -> Result<String, AllocError>
    ensures { IfOk result (λ text. string_bytes text ≡ texts.orphan_text nodes) }
{
    format!(in alloc; "orphaned: it has no document, and {nodes} nodes below it are not reached")
}

/// That the name of a path is that of another one but for case, with both.
pub(crate) fn alike_text(
    alloc: Global,
    before: &NodePath,
    path: &NodePath,
) -> Result<String, AllocError>
    ensures { IfOk result (λ text. string_bytes text ≡ texts.alike_text before.now path.now) }
{
    let before = before.to_prefix(alloc)?;
    let path = path.to_prefix(alloc)?;
    let name = before.name();
    let other = path.name();
    format!(in alloc; "alike: {name} and {other} differ in case alone")
}

/// What there is to tell of the block of a group, with the group's path.
pub(crate) fn kind_text(
    alloc: Global,
    group: &NodePath,
    kind: &FindingKind,
) -> Result<String, AllocError>
    ensures { IfOk result (λ text. string_bytes text ≡ texts.kind_text group.now kind.now) }
{
    match kind {
        FindingKind::BlockFault(fault) => {
            format!(in alloc; "bad block: the block of {group} has the fault `{fault}`")
        }
        FindingKind::BadKey(key) => bad_key_text(alloc, group, key.as_str()),
        FindingKind::Shadowed(key) => shadowed_text(alloc, group, key.as_str()),
        FindingKind::OwnKey(key) => own_key_text(alloc, group, key.as_str()),
        FindingKind::OwnAttributes => {
            format!(in alloc;
                "differs: the block of {group} has other attributes of it than the store"
            )
        }
        FindingKind::Unreachable => {
            format!(in alloc; "unreachable: the block of {group} has no group above it")
        }
        FindingKind::Stale => {
            format!(in alloc; "stale: the block of {group} has it, and the store has not")
        }
        FindingKind::Unreached => {
            format!(in alloc;
                "unreached: the block of {group} has it, and a listing does not reach it"
            )
        }
        FindingKind::Differs => {
            format!(in alloc; "differs: the block of {group} has other metadata than the store")
        }
        FindingKind::Missing => {
            format!(in alloc; "missing: the block of {group} has no entry of it")
        }
    }
}

// What there is to tell of a key that is no relative path.
fn bad_key_text(alloc: Global, group: &NodePath, key: &str) -> Result<String, AllocError>
    ensures { IfOk result (λ text. string_bytes text ≡ texts.bad_key_text group.now key.now) }
{
    format!(in alloc; "bad key: the block of {group} has the key `{key}`")
}

// What there is to tell of a key that begins with a slash, where the block has it without the slash too.
fn shadowed_text(alloc: Global, group: &NodePath, key: &str) -> Result<String, AllocError>
    ensures { IfOk result (λ text. string_bytes text ≡ texts.shadowed_text group.now key.now) }
{
    let rest = without_leading_slash(key);
    format!(in alloc; "shadowed: the block of {group} has the key `{key}` beside `{rest}`")
}

// What there is to tell of a key that stands for the group itself.
fn own_key_text(alloc: Global, group: &NodePath, key: &str) -> Result<String, AllocError>
    ensures { IfOk result (λ text. string_bytes text ≡ texts.own_key_text group.now key.now) }
{
    format!(in alloc; "own key: the block of {group} has the key `{key}`, which is {group} itself")
}
