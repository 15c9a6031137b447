// The entries of a store in memory, of which the first with a name decides what the store has of it.
ghost use Rattle.std.specs.Prelude.{◌≡◌, ◌<◌, IfOk, OnOk, OnErr, MatchOption, None, Some};
ghost use Rattle.std.specs.Bool.{OnTrue, OnFalse};
ghost use Rattle.std.specs.FinMap.{get, insert};
ghost use Rattle.std.specs.List.{position};
ghost use Rattle.outside.specs.inside.Entry.{files_of, rooms_of, is_named, IsFirstEntry};
ghost use Rattle.outside.specs.MemStore.{room_with};
ghost use Rattle.outside.specs.MemStore.{FitsRoom, LacksRoom};

use crate::entry::Entry;
use std::alloc::{AllocError, Global};

/// The bytes of the named file, where there is one.
pub(crate) fn file_of<'a>(entries: &'a [Entry], name: &str) -> Option<&'a [u8]>
    ensures { let file = get (files_of entries.now) name.now in
        MatchOption result (file ≡ None) (λ bytes. file ≡ Some bytes.now) }
{
    let place = place_of(entries, name)?;
    entries[place].file()
}

/// Makes the named file hold exactly the bytes.
pub(crate) fn put_file(
    alloc: Global,
    entries: &mut Vec<Entry>,
    name: &str,
    bytes: &[u8],
) -> Result<(), AllocError>
    ensures ok { OnOk result
        (files_of entries.new.items ≡ insert (files_of entries.old.items) name.now bytes.now) }
    ensures err { OnErr result (files_of entries.new.items ≡ files_of entries.old.items) }
    ensures rooms { rooms_of entries.new.items ≡ rooms_of entries.old.items }
{
    let place = place_for(alloc, entries, name)?;
    let entry = &mut entries[place];
    entry.replace(alloc, bytes)
}

/// Makes room for so many bytes of the named file, unless there is more.
pub(crate) fn put_room(
    alloc: Global,
    entries: &mut Vec<Entry>,
    name: &str,
    bytes: usize,
) -> Result<(), AllocError>
    ensures ok { OnOk result
        (let rooms = rooms_of entries.old.items in
        rooms_of entries.new.items ≡ insert rooms name.now (room_with (get rooms name.now) bytes)) }
    ensures err { OnErr result (rooms_of entries.new.items ≡ rooms_of entries.old.items) }
    ensures files { files_of entries.new.items ≡ files_of entries.old.items }
{
    let place = place_for(alloc, entries, name)?;
    let entry = &mut entries[place];
    entry.make_room(bytes)
}

/// Makes the named file hold exactly the bytes, where they fit the room made for it.
pub(crate) fn refill(entries: &mut Vec<Entry>, name: &str, bytes: &[u8]) -> bool
    ensures done { OnTrue result
        (files_of entries.new.items ≡ insert (files_of entries.old.items) name.now bytes.now) }
    ensures fits { OnTrue result (FitsRoom (rooms_of entries.old.items) name.now bytes.now) }
    ensures left { OnFalse result (files_of entries.new.items ≡ files_of entries.old.items) }
    ensures lacks_room { OnFalse result (LacksRoom (rooms_of entries.old.items) name.now bytes.now) }
    ensures rooms { rooms_of entries.new.items ≡ rooms_of entries.old.items }
{
    match place_of(entries, name) {
        Some(place) => {
            let entry = &mut entries[place];
            entry.refill(bytes)
        }
        None => false,
    }
}

// The place of the entry with the name, counted from 0. A new entry has neither file nor room.
fn place_for(alloc: Global, entries: &mut Vec<Entry>, name: &str) -> Result<usize, AllocError>
    ensures first { IfOk result (λ place. IsFirstEntry name.now entries.new.items place) }
    ensures files { files_of entries.new.items ≡ files_of entries.old.items }
    ensures rooms { rooms_of entries.new.items ≡ rooms_of entries.old.items }
{
    if let Some(place) = place_of(entries, name) {
        return Ok(place);
    }
    let place = entries.len();
    entries.push(Entry::new(alloc, name)?)?;
    Ok(place)
}

// The place of the first entry with the name, counted from 0.
fn place_of(entries: &[Entry], name: &str) -> Option<usize>
    ensures { result ≡ position (is_named name.now) entries.now }
{
    entries.iter().position(|entry| entry.is_named(name))
}
