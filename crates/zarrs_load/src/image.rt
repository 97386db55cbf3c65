//! A store from an image, a JSON object from keys to texts.
ghost use Rattle.std.specs.Prelude.{◌≡◌, IfOk, IfErr, IfSome, OnOk, option_map};
ghost use Rattle.std.specs.FinMap as map;
ghost use Rattle.std.specs.Io.KnownBytes.{IsAtEnd};
ghost use Rattle.serde_json.specs.View.{members_view, view};
ghost use Rattle.serde_json.specs.Find.{as_object};
ghost use Rattle.zarrs_store.specs.Segments.{key_cmp};
ghost use Rattle.zarrs_load.specs.Reading.{IsWithinBound};
ghost use Rattle.zarrs_load.specs.Image.{HoldsMembers, IsLoaded, IsObject, RefusedImage, member_list};
ghost use Rattle.zarrs_load.specs.StepsOfLoading.{IsMemberFault, RefusedObject};

use crate::fault::LoadFault;
use crate::read::read_whole;
use serde_json::{Map, Value};
use std::alloc::Global;
use std::io::Read;
use zarrs_store::{MemoryStore, StoreKey};

/// The store of an image, which is read to its end, in at most 1,000,000 reads of at most 65,536 bytes.
///
/// # Errors
/// What reading refuses; `Image` where the bytes are no JSON object; and at the first member, by
/// ascending names, that is no key with a text: `ImageKey` where the name is no store key, else
/// `ImageValue`. `OutOfMemory` at any time.
pub fn load_image<R: Read>(alloc: Global, reader: &mut R) -> Result<MemoryStore, LoadFault>
    ensures ok { IfOk result (λ store.
        IsLoaded (R.remaining reader.old) (map.from_entries {R = key_cmp} store)) }
    ensures end { OnOk result (IsAtEnd (R.remaining reader.new)) }
    ensures bound { OnOk result (IfSome (R.remaining reader.old) IsWithinBound) }
    ensures err { IfErr result (RefusedImage (R.remaining reader.old) (R.remaining reader.new)) }
{
    let members = read_object(alloc, reader)?;
    store_of(alloc, &members)
}

// The members of the JSON object that a reader gives.
fn read_object<R: Read>(alloc: Global, reader: &mut R) -> Result<Map<String, Value>, LoadFault>
    ensures ok { IfOk result
        (λ members. IfSome (R.remaining reader.old) (IsObject (members_view members.entries))) }
    ensures end { OnOk result (IsAtEnd (R.remaining reader.new)) }
    ensures bound { OnOk result (IfSome (R.remaining reader.old) IsWithinBound) }
    ensures err { IfErr result (RefusedObject (R.remaining reader.old) (R.remaining reader.new)) }
{
    let bytes = read_whole(alloc, reader)?;
    let image = match Value::from_slice(alloc, &bytes) {
        Ok(image) => image,
        Err(e) if e.is_memory() => return Err(LoadFault::OutOfMemory),
        Err(_) => return Err(LoadFault::Image),
    };
    members_of(image).ok_or(LoadFault::Image)
}

// The members of an object.
fn members_of(value: Value) -> Option<Map<String, Value>>
    ensures { option_map (λ members. members_view members.entries) result ≡ as_object (view value) }
{
    match value {
        Value::Object(members) => Some(members),
        _ => None,
    }
}

// The store of an object's members. Names and texts are copied out of members that are lent, which
// are then dropped whole and leave one free piece of memory. Members that are taken apart leave a
// hole for each few of them, and whatever is read later lies scattered over those holes.
fn store_of(alloc: Global, members: &Map<String, Value>) -> Result<MemoryStore, LoadFault>
    ensures ok { IfOk result
        (λ store. HoldsMembers (member_list (members_view members.now.entries))
        (map.from_entries {R = key_cmp} store)) }
    ensures err { IfErr result (IsMemberFault (member_list (members_view members.now.entries))) }
{
    let mut store = MemoryStore::new(alloc);
    for (name, value) in members.iter() {
        let name = String::from_str(alloc, name.as_str())?;
        if !StoreKey::validate(name.as_str()) {
            return Err(LoadFault::ImageKey(name));
        }
        let Some(text) = value.as_str() else {
            return Err(LoadFault::ImageValue(name));
        };
        let bytes = Vec::from_slice(alloc, text.as_bytes())?;
        store.insert(StoreKey::new_unchecked(name), bytes)?;
    }
    Ok(store)
}
