//! Reading to the end, and loading an image and a folder.

mod answers;
mod asserts;
mod faults;
mod folders;
mod images;
mod planned;
