// A store in memory, for tests: it fails where it is told to.
ghost use Rattle.std.specs.Prelude.{◌≡◌, ◌⊎◌, ◌↔◌, ◌≤◌, take, Some, None, option_map, IfOk, OnOk, OnErr, IsOkUnless, IsErrOf};
ghost use Rattle.std.specs.FinMap.{empty, insert, get};
ghost use Rattle.outside.specs.Calls.{FailsNext, next_call};
ghost use Rattle.outside.specs.MemStore.{room_with};
ghost use Rattle.outside.specs.Faults.{one_more};
ghost use Rattle.outside.specs.inside.Entry.{files_of};
ghost use Rattle.outside.specs.MemStore.{FitsRoom, LacksRoom};

use crate::calls::{count_call, count_fault, fails_at};
use crate::entries::{file_of, put_file, put_room, refill};
use crate::entry::Entry;
use crate::{Store, StoreErr};
use std::alloc::{AllocError, Global};
use std::marker::Model;

/// A store in memory. It tells its files, and fails at the calls whose numbers it was made with.
#[derive(Drop)]
pub struct MemStore {
    alloc: Global,
    entries: Vec<Entry>,
    fails: Vec<u64>,
    calls: u128,
    read_faults: u64,
    write_faults: u64,
}

impl Model for MemStore {
    ghost use Rattle.outside.specs.inside.Entry.{files_of, rooms_of};
    ghost use Rattle.outside.specs.MemStore.{MemoryStore, memory_store_code};

    ghost Value = { MemoryStore };

    ghost coded = { memory_store_code };

    ghost view = { λ s. record {
      files = files_of s.entries.items;
      rooms = rooms_of s.entries.items;
      calls = s.calls;
      fails = s.fails.items;
      read_faults = s.read_faults;
      write_faults = s.write_faults;
    } };
}

impl MemStore {
    /// A store without files. Its calls of `read` and `write` are counted together from 1, and those
    /// with the numbers in `fails` fail. An error where memory ran out.
    pub fn new(alloc: Global, fails: &[u64]) -> Result<MemStore, AllocError>
        ensures { IfOk result (λ store. store ≡ record {
          files = empty;
          rooms = empty;
          calls = 0;
          fails = fails.now;
          read_faults = 0;
          write_faults = 0;
        }) }
    {
        Ok(MemStore {
            alloc,
            entries: Vec::new(alloc),
            fails: Vec::from_slice(alloc, fails)?,
            calls: 0,
            read_faults: 0,
            write_faults: 0,
        })
    }

    /// Makes the named file hold exactly the bytes. It isn't counted as a call, and makes no room for
    /// writes. An error where memory ran out, and then nothing has changed.
    pub fn file(&mut self, name: &str, bytes: &[u8]) -> Result<(), AllocError>
        ensures ok { OnOk result
            (self.new ≡ record self.old { files = insert self.old.files name.now bytes.now }) }
        ensures err { OnErr result (self.new ≡ self.old) }
    {
        put_file(self.alloc, &mut self.entries, name, bytes)
    }

    /// Makes room for writes of so many bytes to the named file. The room stays for later writes, and
    /// never shrinks. An error where memory ran out, and then nothing has changed.
    pub fn room(&mut self, name: &str, bytes: usize) -> Result<(), AllocError>
        ensures ok { OnOk result
            (let room = room_with (get self.old.rooms name.now) bytes in
            self.new ≡ record self.old { rooms = insert self.old.rooms name.now room }) }
        ensures err { OnErr result (self.new ≡ self.old) }
    {
        put_room(self.alloc, &mut self.entries, name, bytes)
    }

    /// How many reads have failed.
    pub fn read_faults(&self) -> u64
        ensures { result ≡ self.now.read_faults }
    {
        self.read_faults
    }

    /// How many writes have failed.
    pub fn write_faults(&self) -> u64
        ensures { result ≡ self.now.write_faults }
    {
        self.write_faults
    }
}

impl Store for MemStore {
    ghost files = { λ s. Some s.files };

    ghost read_faults = { λ s. s.read_faults };

    ghost write_faults = { λ s. s.write_faults };

    /// Fails exactly where its call is one of those that fail. `Missing` exactly where it isn't, and
    /// no file has the name.
    fn read(&mut self, alloc: Global, name: &str, most: usize) -> Result<Vec<u8>, StoreErr>
        ensures bytes { IfOk result
            (λ bytes. option_map (take most) (get self.old.files name.now) ≡ Some bytes.items) }

        ensures failed { IsErrOf result StoreErr.Failed ↔ FailsNext self.old.fails self.old.calls }
        ensures missing { IsErrOf result StoreErr.Missing
            ↔ (¬ FailsNext self.old.fails self.old.calls × (get self.old.files name.now ≡ None)) }

        ensures fault { IsErrOf result StoreErr.Failed → self.new ≡ record self.old {
          calls = next_call self.old.calls;
          read_faults = one_more self.old.read_faults;
        } }
        ensures no_fault { ¬ IsErrOf result StoreErr.Failed →
            self.new ≡ record self.old { calls = next_call self.old.calls } }
        ensures never_falls { self.old.read_faults ≤ self.new.read_faults }
    {
        count_call(&mut self.calls);
        if fails_at(&self.fails, self.calls) {
            count_fault(&mut self.read_faults);
            return Err(StoreErr::Failed);
        }
        first_bytes(alloc, &self.entries, name, most)
    }

    /// Fails exactly where its call is one of those that fail, or the bytes don't fit the room made
    /// for the name. It then changes no file.
    fn write(&mut self, name: &str, bytes: &[u8]) -> Result<(), StoreErr>
        ensures written { OnOk result (self.new ≡ record self.old {
          files = insert self.old.files name.now bytes.now;
          calls = next_call self.old.calls;
        }) }
        ensures fits { OnOk result
            (¬ FailsNext self.old.fails self.old.calls × FitsRoom self.old.rooms name.now bytes.now) }

        ensures fault { OnErr result (self.new ≡ record self.old {
          calls = next_call self.old.calls;
          write_faults = one_more self.old.write_faults;
        }) }
        ensures failed { OnErr result
            (FailsNext self.old.fails self.old.calls ⊎ LacksRoom self.old.rooms name.now bytes.now) }
        ensures only_failed { IsOkUnless result StoreErr.Failed }
        ensures never_falls { self.old.write_faults ≤ self.new.write_faults }
    {
        count_call(&mut self.calls);
        if !fails_at(&self.fails, self.calls) && refill(&mut self.entries, name, bytes) {
            Ok(())
        } else {
            count_fault(&mut self.write_faults);
            Err(StoreErr::Failed)
        }
    }
}

// The first `most` bytes of the named file, or all where it is shorter. `Missing` where no file has the name.
fn first_bytes(
    alloc: Global,
    entries: &[Entry],
    name: &str,
    most: usize,
) -> Result<Vec<u8>, StoreErr>
    ensures bytes { IfOk result
        (λ bytes. option_map (take most) (get (files_of entries.now) name.now) ≡ Some bytes.items) }
    ensures missing { IsErrOf result StoreErr.Missing ↔ (get (files_of entries.now) name.now ≡ None) }
    ensures never_failed { IsErrOf result StoreErr.Failed → ⊥ }
{
    let Some(bytes) = file_of(entries, name) else {
        return Err(StoreErr::Missing);
    };
    Ok(Vec::from_slice(alloc, &bytes[..most.min(bytes.len())])?)
}
