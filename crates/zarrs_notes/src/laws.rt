//! What holds of all that there is to tell of a node. A function here is empty; its contract is the law.
ghost use Rattle.zarrs_notes.specs.Laws.{SameFilesTellSame, UntoldIsUnderstood};

/// Of two stores that have the same at the documents of a node that are looked at, the same is told of it.
pub fn same_files_tell_same()
    ensures { SameFilesTellSame }
{}

/// Where no field is told of a group, none of its additional fields must be understood.
pub fn untold_is_understood()
    ensures { UntoldIsUnderstood }
{}
