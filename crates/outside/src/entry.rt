// What a store in memory keeps of one name.
ghost use Rattle.std.specs.Prelude.{◌≡◌, ◌≤◌, ◌<◌, Option, Some, None, length, IfOk, OnOk, OnErr, IsSomeAnd, MatchOption, ⊤};
ghost use Rattle.std.specs.Bool.{OnTrue, OnFalse};
ghost use Rattle.outside.specs.inside.Entry.{NamedFile, unused, is_named};
ghost use Rattle.outside.specs.MemStore.{room_with};

use std::alloc::{AllocError, Global};
use std::marker::Model;

#[derive(Drop)]
pub(crate) struct Entry {
    name: String,
    /// Its bytes are the file's, where there is a file. The room made for the name fits it.
    bytes: Vec<u8>,
    is_file: bool,
    room: Option<usize>,
}

impl Model for Entry {
    ghost use Rattle.std.specs.Prelude.{Some, None, IfSome, ◌≤◌, vec_capacity, if◌then◌else◌, string_bytes};
    ghost use Rattle.outside.specs.inside.Entry.{NamedFile};

    ghost Value = { NamedFile };

    ghost view = { λ e. record {
      name = string_bytes e.name;
      file = if e.is_file then Some e.bytes.items else None;
      room = e.room;
    } };

    ghost invariant = { λ e. IfSome e.room (λ room. room ≤ vec_capacity e.bytes) };
}

impl Entry {
    pub(crate) fn new(alloc: Global, name: &str) -> Result<Entry, AllocError>
        ensures { IfOk result (λ entry. entry ≡ unused name.now) }
    {
        Ok(Entry {
            name: String::from_str(alloc, name)?,
            bytes: Vec::new(alloc),
            is_file: false,
            room: None,
        })
    }

    pub(crate) fn is_named(&self, name: &str) -> bool
        ensures { result ≡ is_named name.now self.now }
    {
        name == self.name.as_str()
    }

    pub(crate) fn file(&self) -> Option<&[u8]>
        ensures { MatchOption result (self.now.file ≡ None) (λ bytes. self.now.file ≡ Some bytes.now) }
    {
        if self.is_file {
            Some(&self.bytes)
        } else {
            None
        }
    }

    /// Puts a file there, in the place of any that was there. The room stays.
    pub(crate) fn replace(&mut self, alloc: Global, bytes: &[u8]) -> Result<(), AllocError>
        ensures ok { OnOk result (self.new ≡ record self.old { file = Some bytes.now }) }
        ensures err { OnErr result (self.new ≡ self.old) }
    {
        let room = self.room.unwrap_or(0);
        let mut copy = Vec::with_capacity(alloc, room.max(bytes.len()))?;
        copy.extend_from_slice(bytes)?;
        self.bytes = copy;
        self.is_file = true;
        Ok(())
    }

    /// Makes room for so many bytes, unless there is more.
    pub(crate) fn make_room(&mut self, bytes: usize) -> Result<(), AllocError>
        ensures ok { OnOk result
            (self.new ≡ record self.old { room = Some (room_with self.old.room bytes) }) }
        ensures err { OnErr result (self.new ≡ self.old) }
    {
        let room = self.room.unwrap_or(0).max(bytes);
        let more = room.saturating_sub(self.bytes.len());
        self.bytes.reserve(more)?;
        self.room = Some(room);
        Ok(())
    }

    /// Puts a file there, where it fits the room. It takes no memory.
    pub(crate) fn refill(&mut self, bytes: &[u8]) -> bool
        ensures fits { OnTrue result (IsSomeAnd self.old.room (λ room. length bytes.now ≤ room)) }
        ensures done { OnTrue result (self.new ≡ record self.old { file = Some bytes.now }) }
        ensures lacks_room { OnFalse result (MatchOption self.old.room ⊤ (λ room. room < length bytes.now)) }
        ensures left { OnFalse result (self.new ≡ self.old) }
    {
        match self.room {
            Some(room) if bytes.len() <= room => {}
            _ => return false,
        }
        self.bytes.clear();
        if self.bytes.extend_from_slice(bytes).is_err() {
            unreachable!();
        }
        self.is_file = true;
        true
    }
}
