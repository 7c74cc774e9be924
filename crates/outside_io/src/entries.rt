ghost use Rattle.outside_io.specs.EntryIndexes.{HasNoEntry, IsEntryIndex};
ghost use Rattle.outside_io.specs.MemEntries.{file_in, exceeds_room, room_in, with_bytes_appended, with_content, with_file, with_room};
ghost use Rattle.std.specs.Bool.{OnTrue, OnFalse};
ghost use Rattle.std.specs.Prelude.{◌≡◌, [], not, IfSome, IfNone, OnOk, OnErr, is_some, IsSome};

use crate::entry::Entry;
use design_model::Memory;
use std::alloc::Global;

/// Returns the index of the entry of that name.
fn entry_index(entries: &[Entry], name: &[u8]) -> Option<usize>
    ensures some { IfSome result (λ place. IsEntryIndex entries.now name.now place) }
    ensures none { IfNone result (HasNoEntry entries.now name.now) }
{
    for (place, entry) in entries.iter().enumerate() {
        if entry.is_named(name) {
            return Some(place);
        }
    }
    None
}

/// Returns the content of the named file, if there is one.
pub(crate) fn content_of<'a>(entries: &'a [Entry], name: &[u8]) -> Option<&'a [u8]>
    ensures some { IfSome result (λ content. file_in entries.now name.now ≡ Some content.now) }
    ensures none { IfNone result (file_in entries.now name.now ≡ None) }
{
    match entry_index(entries, name) {
        Some(place) => entries[place].content(),
        None => None,
    }
}

/// Makes the named file empty if the name has room, and returns whether it has.
pub(crate) fn make_file(entries: &mut Vec<Entry>, name: &[u8]) -> bool
    ensures has_room { result ≡ is_some (room_in entries.old.items name.now) }
    ensures made { OnTrue result (entries.new.items ≡ with_content entries.old.items name.now []) }
    ensures kept { OnFalse result (entries.new.items ≡ entries.old.items) }
{
    match entry_index(entries, name) {
        Some(place) => {
            let entry = &mut entries[place];
            entry.make();
            true
        }
        None => false,
    }
}

/// Appends bytes to the named file if they fit, and returns whether they do.
pub(crate) fn add_to_file(entries: &mut Vec<Entry>, name: &[u8], bytes: &[u8]) -> bool
    requires { IsSome (file_in entries.old.items name.now) }
    ensures fits { result ≡ not (exceeds_room entries.old.items name.now bytes.now) }
    ensures added { OnTrue result (entries.new.items
        ≡ with_bytes_appended entries.old.items name.now bytes.now) }
    ensures kept { OnFalse result (entries.new.items ≡ entries.old.items) }
{
    match entry_index(entries, name) {
        Some(place) => {
            let entry = &mut entries[place];
            if !entry.fits(bytes) {
                return false;
            }
            entry.add(bytes);
            true
        }
        None => unreachable!(),
    }
}

/// Raises the room of a name. An error leaves the entries unchanged.
pub(crate) fn raise_room(
    alloc: Global,
    entries: &mut Vec<Entry>,
    name: &[u8],
    room: usize,
) -> Result<(), Memory>
    ensures ok { OnOk result (entries.new.items ≡ with_room entries.old.items name.now room) }
    ensures err { OnErr result (entries.new.items ≡ entries.old.items) }
{
    match entry_index(entries, name) {
        Some(place) => {
            let entry = &mut entries[place];
            entry.raise(room)
        }
        None => {
            entries.push(Entry::new(alloc, name, room)?)?;
            Ok(())
        }
    }
}

/// Sets the file of a name, and raises its room. An error leaves the entries unchanged.
pub(crate) fn set_file(
    alloc: Global,
    entries: &mut Vec<Entry>,
    name: &[u8],
    bytes: &[u8],
) -> Result<(), Memory>
    ensures ok { OnOk result (entries.new.items ≡ with_file entries.old.items name.now bytes.now) }
    ensures err { OnErr result (entries.new.items ≡ entries.old.items) }
{
    match entry_index(entries, name) {
        Some(place) => {
            let entry = &mut entries[place];
            entry.raise(bytes.len())?;
            entry.make();
            entry.add(bytes);
        }
        None => {
            let mut entry = Entry::new(alloc, name, bytes.len())?;
            entry.make();
            entry.add(bytes);
            entries.push(entry)?;
        }
    }
    Ok(())
}
