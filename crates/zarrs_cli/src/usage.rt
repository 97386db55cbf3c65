//! What the program says of itself.

/// How the program is called.
pub const USAGE: &str = "\
usage: zarrs tree DIR [PATH]          the tree, by the block of the group at PATH where it has one
       zarrs tree --store DIR [PATH]  the tree, by the store
       zarrs list DIR [PATH]          the path of each node at and below PATH, one a line
       zarrs show DIR [PATH]          the document of the node at PATH, with its attributes
       zarrs check DIR [PATH]         what is bad in the store, and where its blocks say something else
       zarrs check [--notes] [--json] DIR [PATH]
                                      the same, with what is worth knowing too, and as JSON
       zarrs consolidate DIR [PATH]   makes the block of the group at PATH anew, and writes it back
       zarrs consolidate [--dry-run] [--remove] DIR [PATH]
                                      only says what it would write; removes the block
       zarrs --help | --version
DIR is the folder of a store, or - for an image on standard input. PATH is as /a/b or a/b, and / if
it is left out. Options stand before DIR.
Status 0: done. 1: check has findings, or a dry run would write. 2: wrong words, refused, unreadable,
out of memory, or not written.
";

/// The release of the Rust crate `zarrs` whose names and behaviour the library has.
pub const VERSION: &str = "zarrs 0.23.13\n";
