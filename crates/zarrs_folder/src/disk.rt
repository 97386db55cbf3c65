//! A folder of the system.
ghost use Rattle.std.specs.Prelude.{◌≡◌, [], true, IfOk, IfErr};
ghost use Rattle.zarrs_store.specs.Contents.{Values};
ghost use Rattle.zarrs_folder.specs.Answers.{HasAnswers};
ghost use Rattle.zarrs_folder.specs.Folders.{IsFaultAt, IsFaultOfFolder};

use crate::fault::FolderFault;
use crate::folder::Folder;
use crate::progress::Progress;
use crate::record::Record;
use log::{Log, warn};
use std::alloc::{AllocError, Global};
use std::collections::BTreeSet;
use std::fs::{File, Metadata};
use std::io::{Eprint, ErrorKind, Read};
use std::os::unix::fs::MetadataExt;
use std::rt::Files;
use std::time::Clock;
use std::{fs, io};
use zarrs_path::NodePath;
use zarrs_store::{StoreKey, StorePrefix};

/// A folder of the system, by its path. Links are followed, its own and those below it. A link that leads to a folder on its own way is passed
/// over, and a warning names it; from then on nothing stands behind it. What is neither a file nor a folder is passed over too. A warning names
/// each node that no listing shows, since its name begins with `__`.
///
/// Its answers are noted, for contracts only: it agrees with each store that has all answers so far. So it promises nothing where the files
/// change meanwhile in such a way that no store has them all.
///
/// Source: Zarr core specification 3.1, "Storage keys".
/// <https://zarr-specs.readthedocs.io/en/latest/v3/core/index.html#storage-keys>
#[derive(Drop)]
pub struct Disk<'a, R> {
    system: System<'a, R>,
    progress: Progress,
    documents: Record<StoreKey, Option<Vec<u8>>>,
    listings: Record<StorePrefix, Vec<StorePrefix>>,
    searches: Record<StorePrefix, Option<StoreKey>>,
}

// The system, asked of what stands below a folder.
#[derive(Drop)]
struct System<'a, R> {
    rt: &'a R,
    folder: &'a str,
    // The names of each link to a folder on its own way that a look came upon.
    passed: BTreeSet<String>,
}

// What stands at a path, once links are followed.
#[derive(Clone, Copy)]
enum Kind {
    File,
    Folder,
    Neither,
}

impl<'a, R: Log + Files + Clock + Eprint + AllocGlobal> Disk<'a, R> {
    /// The folder with this path. It has given no answer, so it agrees with each store.
    ///
    /// # Errors
    /// `Unread` where nothing stands there or it is not looked at, `NoFolder` where something else does: both with this path. `OutOfMemory`.
    ///
    /// Source: own.
    pub fn open(rt: &'a R, folder: &'a str) -> Result<Disk<'a, R>, FolderFault>
        ensures ok { IfOk result (λ disk. (V : Values) → ⟦<Disk<'a, R> as Folder>⟧.agrees disk V) }
        ensures err { IfErr result (IsFaultOfFolder true) }
        ensures named { IfErr result (IsFaultAt folder.now) }
    {
        match fs::metadata(rt, folder) {
            Ok(metadata) if metadata.is_dir() => Ok(unasked(rt, folder)),
            Ok(_) => Err(FolderFault::NoFolder(String::from_str(rt.alloc(), folder)?)),
            Err(e) => Err(unread(rt.alloc(), folder, &e)?),
        }
    }

    /// The folder, which tells how far reading is where that is wanted, as where standard error is a terminal: each two seconds a line there says
    /// how many nodes were read so far. Where the clock is not read, no line is written.
    ///
    /// Source: own.
    pub fn telling(self, is_wanted: bool) -> Disk<'a, R>
        ensures before { (V : Values) → ⟦<Disk<'a, R> as Folder>⟧.agrees result V
            → ⟦<Disk<'a, R> as Folder>⟧.agrees self.entry V }
        ensures after { (V : Values) → ⟦<Disk<'a, R> as Folder>⟧.agrees self.entry V
            → ⟦<Disk<'a, R> as Folder>⟧.agrees result V }
    {
        let mut disk = self;
        disk.progress = Progress::new(disk.system.rt, is_wanted);
        disk
    }

    /// Looks at the names of a path from the first on, and passes over a link to a folder on its own way there, as where a listing comes upon it. At what
    /// is no path it does not look.
    ///
    /// # Errors
    /// `Unread` where what stands at a name is not looked at. `OutOfMemory`.
    ///
    /// Source: own.
    pub fn look_along(&mut self, path: &str) -> Result<(), FolderFault>
        ensures before { (V : Values) → ⟦<Disk<'a, R> as Folder>⟧.agrees self.new V
            → ⟦<Disk<'a, R> as Folder>⟧.agrees self.old V }
        ensures after { (V : Values) → ⟦<Disk<'a, R> as Folder>⟧.agrees self.old V
            → ⟦<Disk<'a, R> as Folder>⟧.agrees self.new V }
        ensures err { IfErr result (IsFaultOfFolder true) }
    {
        let alloc = self.system.rt.alloc();
        match path.strip_prefix('/') {
            Some(names) if !names.is_empty() && NodePath::validate(path) => {
                self.system.look_along(alloc, names)
            }
            _ => Ok(()),
        }
    }
}

impl<R: Log + Files + AllocGlobal> System<'_, R> {
    // The path of what has this text as its key or its prefix. It has no slash behind it.
    fn path(&self, alloc: Global, text: &str) -> Result<String, AllocError> {
        let names = text.strip_suffix('/').unwrap_or(text);
        let mut path = with_room(alloc, self.folder, names)?;
        if names.is_empty() {
            return Ok(path);
        }
        if !self.folder.ends_with('/') {
            path.push('/')?;
        }
        path.push_str(names)?;
        Ok(path)
    }

    // The bytes of the file with this key. What is no file has none, and so has what stands behind a link that was passed over.
    fn read(&self, alloc: Global, key: &str) -> Result<Option<Vec<u8>>, FolderFault>
        ensures err { IfErr result (IsFaultOfFolder true) }
    {
        if self.is_behind_passed(alloc, key)? {
            return Ok(None);
        }
        let path = self.path(alloc, key)?;
        let length = match fs::metadata(self.rt, path.as_str()) {
            Ok(metadata) if metadata.is_file() => metadata.len(),
            Ok(_) => return Ok(None),
            Err(e) if is_absent(&e) => return Ok(None),
            Err(e) => return Err(unread(alloc, path.as_str(), &e)?),
        };
        match bytes_of(alloc, self.rt, path.as_str(), length) {
            Ok(bytes) => Ok(Some(bytes)),
            Err(e) => Err(unread(alloc, path.as_str(), &e)?),
        }
    }

    // Whether what has this text as its key or its prefix stands behind a link that was passed over.
    fn is_behind_passed(&self, alloc: Global, text: &str) -> Result<bool, AllocError> {
        if self.passed.is_empty() {
            return Ok(false);
        }
        let mut way = String::new(alloc);
        for name in text.split('/') {
            way.push_str(name)?;
            if self.passed.contains(way.as_str()) {
                return Ok(true);
            }
            way.push('/')?;
        }
        Ok(false)
    }

    // The folders in a folder, in descending order of their names.
    fn list(&mut self, alloc: Global, prefix: &str) -> Result<Vec<StorePrefix>, FolderFault>
        ensures err { IfErr result (IsFaultOfFolder true) }
    {
        let mut children = Vec::new(alloc);
        for mut names in self.names(alloc, prefix)? {
            if let Kind::Folder = self.kind(alloc, names.as_str())? {
                names.push('/')?;
                children.push(prefix_of(alloc, names)?)?;
            }
        }
        children.sort_unstable();
        for child in &children {
            self.warn_of_hidden(alloc, child)?;
        }
        children.reverse();
        Ok(children)
    }

    // Warns of a node that no listing shows, since its name begins with `__`.
    fn warn_of_hidden(&self, alloc: Global, child: &StorePrefix) -> Result<(), AllocError> {
        if !child.name().starts_with("__") || !self.is_node(alloc, child.as_str())? {
            return Ok(());
        }
        let path = self.path(alloc, child.as_str())?;
        warn!(self.rt; "{path} was passed over: its name begins with __, so no listing shows it, and no block gets it");
        Ok(())
    }

    // Whether a document of a node stands in a folder. What is not looked at does not count.
    fn is_node(&self, alloc: Global, prefix: &str) -> Result<bool, AllocError> {
        for file in ["zarr.json", ".zarray", ".zgroup"] {
            let names = joined(alloc, prefix, file)?;
            let path = self.path(alloc, names.as_str())?;
            match fs::metadata(self.rt, path.as_str()) {
                Ok(metadata) if metadata.is_file() => return Ok(true),
                _ => {}
            }
        }
        Ok(false)
    }

    // The key of the first file that a search below a prefix comes upon.
    fn search(&mut self, alloc: Global, prefix: &str) -> Result<Option<StoreKey>, FolderFault>
        ensures err { IfErr result (IsFaultOfFolder true) }
    {
        let mut ahead = self.names(alloc, prefix)?;
        for _turn in 0..u64::MAX {
            let Some(mut names) = ahead.pop() else {
                return Ok(None);
            };
            match self.kind(alloc, names.as_str())? {
                Kind::File => return Ok(Some(key_of(alloc, names)?)),
                Kind::Folder => {
                    names.push('/')?;
                    let mut below = self.names(alloc, names.as_str())?;
                    ahead.append(&mut below)?;
                }
                Kind::Neither => {}
            }
        }
        Err(FolderFault::OutOfMemory)
    }

    // The names in a folder, each behind the text of the folder's prefix. A folder that is absent has none, nor has one behind a link that was passed over.
    fn names(&self, alloc: Global, prefix: &str) -> Result<Vec<String>, FolderFault>
        ensures err { IfErr result (IsFaultOfFolder true) }
    {
        let mut names = Vec::new(alloc);
        if self.is_behind_passed(alloc, prefix)? {
            return Ok(names);
        }
        let path = self.path(alloc, prefix)?;
        let entries = match fs::read_dir(&self.rt, path.as_str()) {
            Ok(entries) => entries,
            Err(e) if is_absent(&e) => return Ok(names),
            Err(e) => return Err(unread(alloc, path.as_str(), &e)?),
        };
        for entry in entries {
            match entry {
                Ok(entry) => names.push(joined(alloc, prefix, entry.file_name())?)?,
                Err(e) => return Err(unlisted(alloc, path.as_str(), &e)?),
            }
        }
        Ok(names)
    }

    // What stands behind these names.
    fn kind(&mut self, alloc: Global, names: &str) -> Result<Kind, FolderFault>
        ensures err { IfErr result (IsFaultOfFolder true) }
    {
        let path = self.path(alloc, names)?;
        match fs::symlink_metadata(self.rt, path.as_str()) {
            Ok(metadata) if metadata.is_symlink() => self.led_to(alloc, names, path.as_str()),
            Ok(metadata) => Ok(kind_of(&metadata)),
            Err(e) if is_absent(&e) => Ok(Kind::Neither),
            Err(e) => Err(unread(alloc, path.as_str(), &e)?),
        }
    }

    // Looks at these names from the first on, to the first that is no folder.
    fn look_along(&mut self, alloc: Global, names: &str) -> Result<(), FolderFault>
        ensures err { IfErr result (IsFaultOfFolder true) }
    {
        let mut way = String::new(alloc);
        for name in names.split('/') {
            way.push_str(name)?;
            match self.kind(alloc, way.as_str())? {
                Kind::Folder => way.push('/')?,
                Kind::File | Kind::Neither => return Ok(()),
            }
        }
        Ok(())
    }

    // What a link leads to.
    fn led_to(&mut self, alloc: Global, names: &str, path: &str) -> Result<Kind, FolderFault>
        ensures err { IfErr result (IsFaultOfFolder true) }
    {
        match fs::metadata(self.rt, path) {
            Ok(metadata) if metadata.is_dir() => {
                if self.is_on_way(alloc, names, &metadata)? {
                    warn!(self.rt; "{path} was passed over: it is a link to a folder on its own way");
                    self.passed.insert(String::from_str(alloc, names)?)?;
                    return Ok(Kind::Neither);
                }
                Ok(Kind::Folder)
            }
            Ok(metadata) => Ok(kind_of(&metadata)),
            Err(e) if is_absent(&e) => Ok(Kind::Neither),
            Err(e) if e.kind() == ErrorKind::FilesystemLoop => {
                warn!(self.rt; "{path} was passed over: it is a link that leads to itself");
                Ok(Kind::Neither)
            }
            Err(e) => Err(unread(alloc, path, &e)?),
        }
    }

    // Whether a folder is one of those that the names lead through.
    fn is_on_way(&self, alloc: Global, names: &str, folder: &Metadata) -> Result<bool, FolderFault>
        ensures err { IfErr result (IsFaultOfFolder true) }
    {
        let mut way = String::new(alloc);
        for name in names.split('/') {
            let path = self.path(alloc, way.as_str())?;
            match fs::metadata(self.rt, path.as_str()) {
                Ok(above) if is_same(&above, folder) => return Ok(true),
                Ok(_) => {}
                Err(e) => return Err(unread(alloc, path.as_str(), &e)?),
            }
            way.push_str(name)?;
            way.push('/')?;
        }
        Ok(false)
    }
}

impl<R: Log + Files + Clock + Eprint + AllocGlobal> Folder for Disk<'_, R> {
    ghost agrees = { λ disk V. HasAnswers disk.documents.answers disk.listings.answers disk.searches.answers V };

    ghost can_fail = { λ _. true };

    /// The bytes of the file, which is read to its end. What is no file has none. Each `zarr.json`, `.zarray` and `.zgroup` counts
    /// as a node that was read.
    ///
    /// # Errors
    /// `Unread` where the file is not looked at or not read. `OutOfMemory`.
    fn document(&mut self, alloc: Global, key: &StoreKey) -> Result<Option<Vec<u8>>, FolderFault> {
        let found = self.system.read(alloc, key.as_str())?;
        let is_node = found.is_some() && is_of_node(key.as_str());
        self.progress.count(self.system.rt, is_node);
        self.documents = self.documents.with(key, &found);
        Ok(found)
    }

    /// The folders in the folder, in descending order of their names. One with a document of a node and a name that begins with `__` is among them, and
    /// a warning names it: no listing shows it.
    ///
    /// # Errors
    /// `Unread` where the folder is not listed, a name in it is not UTF-8, or what stands there is not looked at. `OutOfMemory`.
    fn children(
        &mut self,
        alloc: Global,
        prefix: &StorePrefix,
    ) -> Result<Vec<StorePrefix>, FolderFault> {
        let children = self.system.list(alloc, prefix.as_str())?;
        self.listings = self.listings.with(prefix, &children);
        Ok(children)
    }

    /// The key of the first file that a search comes upon. No file is opened.
    ///
    /// # Errors
    /// `Unread` where a folder on the way of the search is not listed, a name in it is not UTF-8, or what stands there is not looked at.
    /// `OutOfMemory`.
    fn any_below(
        &mut self,
        alloc: Global,
        prefix: &StorePrefix,
    ) -> Result<Option<StoreKey>, FolderFault> {
        let found = self.system.search(alloc, prefix.as_str())?;
        self.searches = self.searches.with(prefix, &found);
        Ok(found)
    }
}

// A folder that was asked nothing.
fn unasked<'a, R: Clock + AllocGlobal>(rt: &'a R, folder: &'a str) -> Disk<'a, R>
    ensures documents { result.documents.answers ≡ [] }
    ensures listings { result.listings.answers ≡ [] }
    ensures searches { result.searches.answers ≡ [] }
{
    Disk {
        system: System {
            rt,
            folder,
            passed: BTreeSet::new(rt.alloc()),
        },
        progress: Progress::new(rt, false),
        documents: Record::new(),
        listings: Record::new(),
        searches: Record::new(),
    }
}

// Whether a node stands where there is a document with this key.
fn is_of_node(key: &str) -> bool {
    key.ends_with("zarr.json") || key.ends_with(".zarray") || key.ends_with(".zgroup")
}

// The longest file for which there is room before it is read.
const LONGEST_AT_ONCE: u64 = 64 * 1024;

// All bytes of a file, which had this length when it was looked at. A first reading that had room for more, and came to just this length, has found the
// end. Of any other file the rest is read until there is no more.
fn bytes_of<R: Files>(alloc: Global, rt: &R, path: &str, length: u64) -> io::Result<Vec<u8>> {
    let mut file = File::open(rt, path)?;
    let mut bytes = zeros(alloc, length.min(LONGEST_AT_ONCE) as usize + 1)?;
    let room = bytes.len();
    let read = read_once(&mut file, &mut bytes)?;
    bytes.truncate(read);
    if read < room && read as u64 == length {
        return Ok(bytes);
    }
    file.read_to_end(&mut bytes)?;
    Ok(bytes)
}

// What one reading came to; nothing where a signal interrupted it.
fn read_once<F: Read>(file: &mut F, bytes: &mut [u8]) -> io::Result<usize> {
    match file.read(bytes) {
        Err(e) if e.kind() == ErrorKind::Interrupted => Ok(0),
        read => read,
    }
}

// A buffer of a size that is a parameter, so that no proof sees its bytes.
fn zeros(alloc: Global, size: usize) -> Result<Vec<u8>, AllocError> {
    vec![in alloc; 0u8; size]
}

// What stands where there is no link.
fn kind_of(metadata: &Metadata) -> Kind {
    if metadata.is_dir() {
        return Kind::Folder;
    }
    if metadata.is_file() {
        return Kind::File;
    }
    Kind::Neither
}

// Whether both are of one folder.
fn is_same(one: &Metadata, other: &Metadata) -> bool {
    one.dev() == other.dev() && one.ino() == other.ino()
}

// A name behind the text of a prefix.
fn joined(alloc: Global, prefix: &str, name: &str) -> Result<String, AllocError> {
    let mut names = with_room(alloc, prefix, name)?;
    names.push_str(name)?;
    Ok(names)
}

// A text with room for another and a slash.
fn with_room(alloc: Global, text: &str, more: &str) -> Result<String, AllocError> {
    let room = text.len().saturating_add(more.len()).saturating_add(1);
    let mut out = String::with_capacity(alloc, room)?;
    out.push_str(text)?;
    Ok(out)
}

// The prefix with this text. A system whose names make none is refused.
fn prefix_of(alloc: Global, text: String) -> Result<StorePrefix, FolderFault>
    ensures err { IfErr result (IsFaultOfFolder true) }
{
    if !StorePrefix::validate(text.as_str()) {
        return Err(refused(alloc, text.as_str(), "its names are no store prefix")?);
    }
    Ok(StorePrefix::new_unchecked(text))
}

// The key with this text. A system whose names make none is refused.
fn key_of(alloc: Global, text: String) -> Result<StoreKey, FolderFault>
    ensures err { IfErr result (IsFaultOfFolder true) }
{
    if !StoreKey::validate(text.as_str()) {
        return Err(refused(alloc, text.as_str(), "its names are no store key")?);
    }
    Ok(StoreKey::new_unchecked(text))
}

// Whether nothing stands at a path.
fn is_absent(error: &io::Error) -> bool {
    error.kind() == ErrorKind::NotFound || error.kind() == ErrorKind::NotADirectory
}

// Why the names in a folder are not read. A name that is not UTF-8 is told by a kind without the system's number.
fn unlisted(alloc: Global, path: &str, error: &io::Error) -> Result<FolderFault, AllocError>
    ensures { IfOk result (IsFaultOfFolder true) }
{
    if error.kind() == ErrorKind::InvalidFilename && error.raw_os_error().is_none() {
        return refused(alloc, path, "a name in it is not UTF-8");
    }
    unread(alloc, path, error)
}

// Why a folder or a file is not read, in the system's words.
fn unread(alloc: Global, path: &str, error: &io::Error) -> Result<FolderFault, AllocError>
    ensures err { IfOk result (IsFaultOfFolder true) }
    ensures named { IfOk result (IsFaultAt path.now) }
{
    if error.kind() == ErrorKind::OutOfMemory {
        return Ok(FolderFault::OutOfMemory);
    }
    let text = format!(in alloc; "{error}")?;
    match text.as_str().split_once(" (os error ") {
        Some((words, _)) => refused(alloc, path, words),
        None => refused(alloc, path, text.as_str()),
    }
}

// Names the folder or the file that is not read, and why.
fn refused(alloc: Global, path: &str, why: &str) -> Result<FolderFault, AllocError>
    ensures err { IfOk result (IsFaultOfFolder true) }
    ensures named { IfOk result (IsFaultAt path.now) }
{
    Ok(FolderFault::Unread {
        path: String::from_str(alloc, path)?,
        why: String::from_str(alloc, why)?,
    })
}
