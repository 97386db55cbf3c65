//! The version 2 document of consolidated metadata, `.zmetadata`, read as a block.
ghost use Rattle.std.specs.Prelude.{◌≡◌, ◌⊎◌, ℕ, List, [], IfOk, IfErr, IfSome, Ok, Some, None, ◌&&◌, if◌then◌else◌, codes, bytes_eq, string_bytes, IsTrue, option_map};
ghost use Rattle.std.specs.Result.{result_ok};
ghost use Rattle.std.specs.List.{list_all};
ghost use Rattle.std.specs.List.Sorted.{IsSortedBy};
ghost use Rattle.serde_json.specs.Data.{object, Members};
ghost use Rattle.serde_json.specs.View.{view, members_view};
ghost use Rattle.zarrs_path.specs.Names.{is_name};
ghost use Rattle.zarrs_form.specs.Documents.{Gives, document_in, form_or_fault, of_bytes, required_member};
ghost use Rattle.zarrs_form.specs.Forms.{fits_in};
ghost use Rattle.zarrs_meta.specs.ArrayV2.{array_v2_in};
ghost use Rattle.zarrs_meta.specs.GroupV2.{group_v2_in};
ghost use Rattle.zarrs_meta.specs.Node.{array_with, group_with};
ghost use Rattle.zarrs_meta.specs.declared.node.ArrayMetadata.TheVariants.{V2 as array_v2};
ghost use Rattle.zarrs_meta.specs.declared.node.GroupMetadata.TheVariants.{V2 as group_v2};
ghost use Rattle.zarrs_meta.specs.declared.node.NodeMetadata.TheVariants.{Group, Array};
ghost use Rattle.zarrs_block.specs.Block.{IsAscending, node_at_key};
ghost use Rattle.zarrs_store.specs.Segments.{stretches};
ghost use Rattle.zarrs_block.specs.Zmetadata.{one, small_block_in, zmetadata_members_in, zmetadata_in, HoldsStoreIn, IsCleanIn, IsZmetadataFaultIn};
ghost use Rattle.zarrs_block.specs.declared.zmetadata.File.{File};
ghost use Rattle.zarrs_block.specs.StepsOfZmetadata.{is_file, is_before, member_at, first_tree, tree_in, tree_among, gathered_at, read_with, read_files, IsFile, IsPlace, are_named, RefusesNames, AllFit, HoldsNodes, IsJoined, RunsAscend, RefusesTrees, zmetadata_taken};
ghost use Rattle.zarrs_fault.specs.declared.numbers.Numbers.TheVariants.{Whole};

use crate::asked::asked_owned;
use crate::consolidated::{ConsolidatedMetadata, ConsolidatedMetadataMetadata, take_documents};
use serde_json::{Map, Value};
use std::alloc::{AllocError, Global};
use zarrs_form::{document_copy_in, document_in, member, parse};
use zarrs_meta::{
    ArrayMetadata, ArrayMetadataV2, AttributesDocument, BoxedArray, GroupMetadata, GroupMetadataV2,
    NodeMetadata,
};
use zarrs_path::NodeName;
use zarrs_store::{MemberName, MetadataFault, Numbers};

impl ConsolidatedMetadata {
    /// The block that a document `.zmetadata` is: the nodes of version 2 below the group, each with the attributes beside it, at its
    /// path relative to the group. The documents of the group itself are passed over, and so are members that are none of `.zarray`,
    /// `.zgroup` and `.zattrs`. A `.zattrs` alone makes no node.
    ///
    /// # Errors
    ///
    /// The first that applies: `UnsupportedNumber` where some number is neither `u64` nor `i64`, `NotAnObject`, `MissingMember` or
    /// `BadMember` of `zarr_consolidated_format`, which has to be 1, `MissingMember` or `BadMember` of `metadata`, which has to be an
    /// object, and `BadMember` of it where a document stands below what is no name of a node, or where that of a node does not read.
    /// `OutOfMemory` where there is no memory.
    ///
    /// Source: zarr-python, consolidated metadata of version 2.
    pub fn from_zmetadata(
        alloc: Global,
        value: &Value,
    ) -> Result<ConsolidatedMetadata, MetadataFault>
        ensures gives { Gives (λ block. block.metadata) result
            (zmetadata_in Whole (view value.now)) }
        ensures store { IfOk result
            (λ block. (ms : Members) × (zmetadata_members_in Whole (view value.now) ≡ Ok ms)
            × HoldsStoreIn Whole ms block.metadata × IsCleanIn Whole ms) }
        ensures refused { IfErr result (λ fault. (fault ≡ MetadataFault.OutOfMemory)
            ⊎ IsZmetadataFaultIn Whole (view value.now) fault) }
        ensures ascending { IfOk result (λ block. IsAscending block.metadata) }
    {
        ConsolidatedMetadata::from_zmetadata_in(alloc, Numbers::Whole, value)
    }

    /// The block that a document `.zmetadata` is, where it may hold these numbers.
    ///
    /// # Errors
    ///
    /// As [`ConsolidatedMetadata::from_zmetadata`], except that `UnsupportedNumber` comes only where the numbers are `Whole`.
    ///
    /// Source: own; zarr-python, consolidated metadata of version 2.
    pub fn from_zmetadata_in(
        alloc: Global,
        numbers: Numbers,
        value: &Value,
    ) -> Result<ConsolidatedMetadata, MetadataFault>
        ensures gives { Gives (λ block. block.metadata) result
            (zmetadata_in numbers (view value.now)) }
        ensures store { IfOk result
            (λ block. (ms : Members) × (zmetadata_members_in numbers (view value.now) ≡ Ok ms)
            × HoldsStoreIn numbers ms block.metadata × IsCleanIn numbers ms) }
        ensures refused { IfErr result (λ fault. (fault ≡ MetadataFault.OutOfMemory)
            ⊎ IsZmetadataFaultIn numbers (view value.now) fault) }
        ensures ascending { IfOk result (λ block. IsAscending block.metadata) }
    {
        block_of(alloc, numbers, document_copy_in(numbers, value)?)
    }

    /// The block that a document `.zmetadata` is, whose parts it takes over.
    ///
    /// # Errors
    ///
    /// As [`ConsolidatedMetadata::from_zmetadata`].
    ///
    /// Source: zarr-python, consolidated metadata of version 2.
    pub fn from_owned_zmetadata(
        alloc: Global,
        value: Value,
    ) -> Result<ConsolidatedMetadata, MetadataFault>
        ensures gives { Gives (λ block. block.metadata) result (zmetadata_in Whole (view value)) }
        ensures store { IfOk result
            (λ block. (ms : Members) × (zmetadata_members_in Whole (view value) ≡ Ok ms)
            × HoldsStoreIn Whole ms block.metadata × IsCleanIn Whole ms) }
        ensures refused { IfErr result (λ fault. (fault ≡ MetadataFault.OutOfMemory)
            ⊎ IsZmetadataFaultIn Whole (view value) fault) }
        ensures ascending { IfOk result (λ block. IsAscending block.metadata) }
    {
        ConsolidatedMetadata::from_owned_zmetadata_in(alloc, Numbers::Whole, value)
    }

    /// The block that a document `.zmetadata` is, where it may hold these numbers; its parts are taken over.
    ///
    /// # Errors
    ///
    /// As [`ConsolidatedMetadata::from_zmetadata_in`].
    ///
    /// Source: own; zarr-python, consolidated metadata of version 2.
    pub fn from_owned_zmetadata_in(
        alloc: Global,
        numbers: Numbers,
        value: Value,
    ) -> Result<ConsolidatedMetadata, MetadataFault>
        ensures gives { Gives (λ block. block.metadata) result
            (zmetadata_in numbers (view value)) }
        ensures store { IfOk result
            (λ block. (ms : Members) × (zmetadata_members_in numbers (view value) ≡ Ok ms)
            × HoldsStoreIn numbers ms block.metadata × IsCleanIn numbers ms) }
        ensures refused { IfErr result (λ fault. (fault ≡ MetadataFault.OutOfMemory)
            ⊎ IsZmetadataFaultIn numbers (view value) fault) }
        ensures ascending { IfOk result (λ block. IsAscending block.metadata) }
    {
        block_of(alloc, numbers, document_in(numbers, value)?)
    }

    /// The block that the bytes of a document `.zmetadata` are, where it may hold these numbers.
    ///
    /// # Errors
    ///
    /// `NotJson` where the bytes are no JSON text, and else as [`ConsolidatedMetadata::from_zmetadata_in`].
    ///
    /// Source: own; zarr-python, consolidated metadata of version 2.
    pub fn from_zmetadata_bytes_in(
        alloc: Global,
        numbers: Numbers,
        bytes: &[u8],
    ) -> Result<ConsolidatedMetadata, MetadataFault>
        ensures gives { Gives (λ block. block.metadata) result
            (of_bytes (zmetadata_in numbers) bytes.now) }
    {
        ConsolidatedMetadata::from_owned_zmetadata_in(alloc, numbers, parse(alloc, bytes)?)
    }
}

// The block of the members of a document, which may hold these numbers.
fn block_of(
    alloc: Global,
    numbers: Numbers,
    mut members: Map<String, Value>,
) -> Result<ConsolidatedMetadata, MetadataFault>
    requires { document_in numbers (object (members_view members.entries))
        ≡ Ok (members_view members.entries) }
    ensures { Gives (λ block. block.metadata) result
        (zmetadata_taken numbers (object (members_view members.entries))) }
{
    ask_consolidated_format(&members)?;
    let documents = take_documents(&mut members)?;
    let metadata = small_block(alloc, numbers, documents)?;
    Ok(ConsolidatedMetadata { metadata })
}

// Asks whether the member `zarr_consolidated_format` is the number 1.
fn ask_consolidated_format(members: &Map<String, Value>) -> Result<(), MetadataFault>
    ensures { result
        ≡ required_member (codes "zarr_consolidated_format") one
        (object (members_view members.now.entries)) }
{
    let Some(format) = member(members, "zarr_consolidated_format") else {
        return Err(MetadataFault::MissingMember(MemberName::new("zarr_consolidated_format")));
    };
    match format.as_u64() {
        Some(number) if number == 1 => Ok(()),
        _ => Err(MetadataFault::BadMember(MemberName::new("zarr_consolidated_format"))),
    }
}

// The nodes below the group that the documents are.
fn small_block(
    alloc: Global,
    numbers: Numbers,
    documents: Map<String, Value>,
) -> Result<ConsolidatedMetadataMetadata, MetadataFault>
    requires { IsTrue (fits_in numbers (object (members_view documents.entries))) }
    ensures { Gives (λ all. all) result
        (small_block_in numbers (members_view documents.entries)) }
{
    let runs = runs_of(alloc, documents)?;
    nodes_of(alloc, numbers, joined(alloc, sorted(runs)?)?)
}

// The documents of version 2 of one path.
#[derive(Debug, Drop)]
struct Documents {
    array: Option<Value>,
    group: Option<Value>,
    attributes: Option<Value>,
}

// One of the documents of version 2.
#[derive(Clone, Copy, Debug)]
enum File {
    Array,
    Group,
    Attributes,
}

// The documents of version 2 of one path whose members stand side by side.
#[derive(Debug, Drop)]
struct Run {
    path: String,
    documents: Documents,
}

impl Run {
    // The run of no documents, at the empty path.
    fn empty(alloc: Global) -> Run
        ensures path { string_bytes result.path ≡ [] }
        ensures none { (file : File) → tree_in result.documents file ≡ None }
    {
        Run {
            path: String::new(alloc),
            documents: Documents::none(),
        }
    }

    // The next run with the documents of this one, where they are of one path; else the next, once this one is put behind those before it.
    fn join(self, all: &mut Vec<Run>, next: Run) -> Result<Run, AllocError>
        ensures { IfOk result (IsJoined self next all.old.items all.new.items) }
    {
        if self.path == next.path {
            let Run { path, documents } = next;
            return Ok(Run {
                path,
                documents: documents.or(self.documents),
            });
        }
        all.push(self)?;
        Ok(next)
    }
}

impl Documents {
    // No documents.
    fn none() -> Documents
        ensures { (file : File) → tree_in result file ≡ None }
    {
        Documents {
            array: None,
            group: None,
            attributes: None,
        }
    }

    // These documents, and of the files of which there is none those of the others.
    fn or(self, others: Documents) -> Documents
        ensures { (file : File)
            → tree_in result file ≡ first_tree (tree_in self file) (tree_in others file) }
    {
        Documents {
            array: self.array.or(others.array),
            group: self.group.or(others.group),
            attributes: self.attributes.or(others.attributes),
        }
    }

    // Puts a document in the place of the one that was there.
    fn put(&mut self, file: File, document: Value)
        ensures { (other : File)
            → tree_in self.new other
            ≡ (if is_file file other then Some (view document) else tree_in self.old other) }
    {
        match file {
            File::Array => self.array = Some(document),
            File::Group => self.group = Some(document),
            File::Attributes => self.attributes = Some(document),
        }
    }
}

// The documents of version 2 below the group, in runs of those of one path, as they come.
fn runs_of(alloc: Global, documents: Map<String, Value>) -> Result<Vec<Run>, MetadataFault>
    ensures all { IfOk result
        (λ runs. (t : List ℕ) (file : File)
        → tree_among runs.items t file ≡ member_at (members_view documents.entries) t file) }
    ensures named { IfOk result (λ _. IsTrue (are_named (members_view documents.entries))) }
    ensures err { IfErr result (RefusesNames (members_view documents.entries)) }
{
    let mut runs = Vec::new(alloc);
    let mut run = Run::empty(alloc);
    for (key, document) in documents {
        match place_of(key.as_str())? {
            Some((path, file)) => {
                run = put_document(alloc, &mut runs, run, path, file, document)?;
            }
            None => drop(document),
        }
    }
    runs.push(run)?;
    Ok(runs)
}

// The run with a document more where it is that of the path, and else a new run of that document, once the other is put behind the
// runs before it.
fn put_document(
    alloc: Global,
    runs: &mut Vec<Run>,
    run: Run,
    path: &str,
    file: File,
    document: Value,
) -> Result<Run, AllocError>
    ensures { IfOk result
        (λ next. (t : List ℕ) (other : File)
        → gathered_at runs.new.items next t other
        ≡ (if bytes_eq path.now t
        && is_file file other then Some
        (view document) else gathered_at runs.old.items run t other)) }
{
    let Run {
        path,
        mut documents,
    } = run_of(alloc, runs, run, path)?;
    documents.put(file, document);
    Ok(Run { path, documents })
}

// The run where it is that of the path, and else a new one, once the other is put behind the runs before it.
fn run_of(alloc: Global, runs: &mut Vec<Run>, run: Run, path: &str) -> Result<Run, AllocError>
    ensures path { IfOk result (λ next. string_bytes next.path ≡ path.now) }
    ensures same { IfOk result
        (λ next. (t : List ℕ) (file : File)
        → gathered_at runs.new.items next t file ≡ gathered_at runs.old.items run t file) }
{
    if run.path.as_str() == path {
        return Ok(run);
    }
    runs.push(run)?;
    Ok(Run {
        path: String::from_str(alloc, path)?,
        documents: Documents::none(),
    })
}

// The runs in the order of their paths.
fn sorted(mut runs: Vec<Run>) -> Result<Vec<Run>, AllocError>
    ensures same { IfOk result
        (λ all. (t : List ℕ) (file : File)
        → tree_among all.items t file ≡ tree_among runs.items t file) }
    ensures sorted { IfOk result (λ all. IsSortedBy is_before all.items) }
{
    runs.sort_by(|a, b| a.path.cmp(&b.path))?;
    Ok(runs)
}

// The runs, those of one path joined to one.
fn joined(alloc: Global, runs: Vec<Run>) -> Result<Vec<Run>, AllocError>
    requires { IsSortedBy is_before runs.items }
    ensures same { IfOk result
        (λ all. (t : List ℕ) (file : File)
        → tree_among all.items t file ≡ tree_among runs.items t file) }
    ensures ascend { IfOk result (λ all. RunsAscend all.items) }
{
    let mut all = Vec::new(alloc);
    let mut run = Run::empty(alloc);
    for next in runs {
        run = run.join(&mut all, next)?;
    }
    all.push(run)?;
    Ok(all)
}

// The path and the file that the name of a member tells, or nothing where it does not count below the group.
fn place_of(key: &str) -> Result<Option<(&str, File)>, MetadataFault>
    ensures { IsPlace key.now result }
{
    let Some((path, name)) = key.rsplit_once('/') else {
        return Ok(None);
    };
    let Some(file) = file_of(name) else {
        return Ok(None);
    };
    if are_names(path) {
        Ok(Some((path, file)))
    } else {
        Err(MetadataFault::BadMember(MemberName::new("metadata")))
    }
}

// The file of this name.
fn file_of(name: &str) -> Option<File>
    ensures { IsFile name.now result }
{
    match name {
        ".zarray" => Some(File::Array),
        ".zgroup" => Some(File::Group),
        ".zattrs" => Some(File::Attributes),
        _ => None,
    }
}

// Whether each part of a text between its slashes is the name of a node.
fn are_names(text: &str) -> bool
    ensures { result ≡ list_all is_name (stretches text.now) }
{
    text.split('/')
        .all(|name| !name.is_empty() && NodeName::validate(name))
}

// The nodes that the documents are, at their paths.
fn nodes_of(
    alloc: Global,
    numbers: Numbers,
    runs: Vec<Run>,
) -> Result<ConsolidatedMetadataMetadata, MetadataFault>
    requires ascend { RunsAscend runs.items }
    requires fit { (t : List ℕ) → AllFit numbers (tree_among runs.items t) }
    ensures nodes { IfOk result
        (λ block. HoldsNodes numbers (tree_among runs.items) (node_at_key block)) }
    ensures ascending { IfOk result IsAscending }
    ensures err { IfErr result (RefusesTrees numbers (tree_among runs.items)) }
{
    let mut block = ConsolidatedMetadataMetadata::new(alloc);
    for run in runs {
        let Run { path, documents } = run;
        match node_of(alloc, numbers, documents)? {
            Some(node) => block.insert(path, node)?,
            None => drop(path),
        }
    }
    Ok(block)
}

// The node that the documents of a path are, if they are one.
fn node_of(
    alloc: Global,
    numbers: Numbers,
    documents: Documents,
) -> Result<Option<NodeMetadata>, MetadataFault>
    requires { AllFit numbers (tree_in documents) }
    ensures { Gives (λ node. node) result
        (form_or_fault (codes "metadata") (result_ok (read_files numbers (tree_in documents)))) }
{
    match read_node(alloc, numbers, documents) {
        Ok(node) => Ok(node),
        Err(MetadataFault::OutOfMemory) => Err(MetadataFault::OutOfMemory),
        Err(_) => Err(MetadataFault::BadMember(MemberName::new("metadata"))),
    }
}

// The node that the documents of a path are: the array, or else the group, with the attributes beside it.
fn read_node(
    alloc: Global,
    numbers: Numbers,
    documents: Documents,
) -> Result<Option<NodeMetadata>, MetadataFault>
    requires { AllFit numbers (tree_in documents) }
    ensures { Gives (λ node. node) result (read_files numbers (tree_in documents)) }
{
    let Documents {
        array,
        group,
        attributes,
    } = documents;
    if let Some(value) = array {
        return Ok(Some(read_array(alloc, numbers, value, attributes)?));
    }
    match group {
        Some(value) => Ok(Some(read_group(alloc, numbers, value, attributes)?)),
        None => Ok(None),
    }
}

// The array that a document is, with the attributes beside it.
fn read_array(
    alloc: Global,
    numbers: Numbers,
    value: Value,
    attributes: Option<Value>,
) -> Result<NodeMetadata, MetadataFault>
    requires document { IsTrue (fits_in numbers (view value)) }
    requires attributes { IfSome (option_map view attributes) (λ d. IsTrue (fits_in numbers d)) }
    ensures { Gives (λ node. node) result
        (read_with numbers array_v2_in (λ m. Array (array_v2 m)) array_with (view value)
        (option_map view attributes)) }
{
    let mut array: ArrayMetadataV2 = asked_owned(alloc, numbers, value)?;
    if let Some(value) = attributes {
        let document: AttributesDocument = asked_owned(alloc, numbers, value)?;
        array.attributes = document.0;
    }
    let boxed = BoxedArray::new(alloc, ArrayMetadata::V2(array))?;
    Ok(NodeMetadata::Array(boxed))
}

// The group that a document is, with the attributes beside it.
fn read_group(
    alloc: Global,
    numbers: Numbers,
    value: Value,
    attributes: Option<Value>,
) -> Result<NodeMetadata, MetadataFault>
    requires document { IsTrue (fits_in numbers (view value)) }
    requires attributes { IfSome (option_map view attributes) (λ d. IsTrue (fits_in numbers d)) }
    ensures { Gives (λ node. node) result
        (read_with numbers group_v2_in (λ m. Group (group_v2 m)) group_with (view value)
        (option_map view attributes)) }
{
    let mut group: GroupMetadataV2 = asked_owned(alloc, numbers, value)?;
    if let Some(value) = attributes {
        let document: AttributesDocument = asked_owned(alloc, numbers, value)?;
        group.attributes = document.0;
    }
    Ok(NodeMetadata::Group(GroupMetadata::V2(group)))
}
