//! Laws of the definitions.
ghost use Rattle.zarrs_convert.specs.Laws.{ConvertedArrayIsPlain, ConvertedArrayKeeps, ConvertedGroupIsPlain};

/// A plain version 2 group is converted to a plain version 3 group.
pub fn converted_group_is_plain()
    ensures { ConvertedGroupIsPlain }
{}

/// A plain version 2 array that is converted is a plain version 3 array.
pub fn converted_array_is_plain()
    ensures { ConvertedArrayIsPlain }
{}

/// An array that is converted keeps its shape, its attributes, its chunk shape as a regular grid, and its dimension separator.
pub fn converted_array_keeps()
    ensures { ConvertedArrayKeeps }
{}
