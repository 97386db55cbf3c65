//! How deep a JSON value nests.
ghost use Rattle.std.specs.Prelude.{◌≤◌, ◌↔◌, IsTrue};
ghost use Rattle.serde_json.specs.Data.{depth, items_depth, members_depth};
ghost use Rattle.serde_json.specs.Read.{max_depth};
ghost use Rattle.serde_json.specs.View.{view, items_view, members_view};

use serde_json::{Map, Value};

// A document is read where it nests at most this deep.
const MAX_DEPTH: usize = 127;

/// Whether a value nests at most 127 levels, so that what is written of it is read.
///
/// Source: own; `serde_json` reads 127 levels.
pub fn is_shallow(value: &Value) -> bool
    ensures { IsTrue result ↔ (depth (view value.now) ≤ max_depth) }
{
    nests_within(value, MAX_DEPTH)
}

// Whether a value nests at most so many levels.
#[cycle(nests_within)]
fn nests_within(value: &Value, levels: usize) -> bool
    ensures { IsTrue result ↔ (depth (view value.now) ≤ levels) }
{
    match value {
        Value::Array(items) => levels > 0 && items_nest_within(items, levels - 1),
        Value::Object(members) => levels > 0 && members_nest_within(members, levels - 1),
        _ => true,
    }
}

#[cycle(nests_within)]
fn items_nest_within(items: &Vec<Value>, levels: usize) -> bool
    ensures { IsTrue result ↔ (items_depth (items_view items.now.items) ≤ levels) }
{
    for item in items {
        if !nests_within(item, levels) {
            return false;
        }
    }
    true
}

#[cycle(nests_within)]
fn members_nest_within(members: &Map<String, Value>, levels: usize) -> bool
    ensures { IsTrue result ↔ (members_depth (members_view members.now.entries) ≤ levels) }
{
    for (_name, member) in members.iter() {
        if !nests_within(member, levels) {
            return false;
        }
    }
    true
}
