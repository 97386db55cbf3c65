//! What holds of every hierarchy. Each function does nothing, and its contract is the law.
ghost use Rattle.zarrs_hierarchy.specs.Laws.{PrintingAgrees, ShownIsTree};

/// Both printings of one group agree behind their first lines.
///
/// Source: `zarrs::node::Node::hierarchy_tree` and `zarrs::hierarchy::Hierarchy::tree_of`.
pub fn printing_agrees()
    ensures { PrintingAgrees }
{}

/// What is shown of a hierarchy is its tree from the root on.
///
/// Source: `zarrs::hierarchy::Hierarchy`, its `Display`.
pub fn shown_is_tree()
    ensures { ShownIsTree }
{}
