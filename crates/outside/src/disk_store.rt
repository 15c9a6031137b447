// The files of the system.
ghost use Rattle.std.specs.Prelude.{◌≡◌, ◌≤◌, length, IfOk, OnOk, OnErr, IsErrOf, IsOkUnless, None};
ghost use Rattle.outside.specs.Faults.{one_more};

use crate::calls::count_fault;
use crate::pieces::{read_whole, write_whole};
use crate::{Store, StoreErr};
use std::alloc::Global;
use std::marker::Model;
use std::rt::Files;
use std::{fs, io};

/// The files of the system by their paths. It tells no bytes, and counts its faults.
#[derive(Drop)]
pub struct DiskStore<'a, R: Files> {
    rt: &'a R,
    read_faults: u64,
    write_faults: u64,
}

impl<'a, R: Files> Model for DiskStore<'a, R> {
    ghost use Rattle.outside.specs.Faults.{FaultCounts};

    ghost Value = { FaultCounts };

    ghost view = { λ s. record { read = s.read_faults; write = s.write_faults } };
}

impl<'a, R: Files> DiskStore<'a, R> {
    /// The files of the runtime, with no faults so far.
    pub fn new(rt: &'a R) -> DiskStore<'a, R>
        ensures { result ≡ record { read = 0; write = 0 } }
    {
        DiskStore {
            rt,
            read_faults: 0,
            write_faults: 0,
        }
    }
}

impl<'a, R: Files> Store for DiskStore<'a, R> {
    ghost files = { λ _. None };

    ghost read_faults = { λ s. s.read };

    ghost write_faults = { λ s. s.write };

    /// `Missing` where opening fails because there is no such file. Each other failure is a fault.
    fn read(&mut self, alloc: Global, name: &str, most: usize) -> Result<Vec<u8>, StoreErr>
        ensures most { IfOk result (λ bytes. length bytes.items ≤ most) }
        ensures fault { IsErrOf result StoreErr.Failed →
            self.new ≡ record self.old { read = one_more self.old.read } }
        ensures no_fault { ¬ IsErrOf result StoreErr.Failed → self.new ≡ self.old }
        ensures never_falls { self.old.read ≤ self.new.read }
        ensures write_faults { self.new.write ≡ self.old.write }
    {
        let answer = read_file(alloc, self.rt, name, most);
        if let Err(StoreErr::Failed) = answer {
            count_fault(&mut self.read_faults);
        }
        answer
    }

    /// Makes the file where there is none. Each failure is a fault.
    fn write(&mut self, name: &str, bytes: &[u8]) -> Result<(), StoreErr>
        ensures fault { OnErr result
            (self.new ≡ record self.old { write = one_more self.old.write }) }
        ensures no_fault { OnOk result (self.new ≡ self.old) }
        ensures only_failed { IsOkUnless result StoreErr.Failed }
        ensures never_falls { self.old.write ≤ self.new.write }
        ensures read_faults { self.new.read ≡ self.old.read }
    {
        if write_file(self.rt, name, bytes) {
            Ok(())
        } else {
            count_fault(&mut self.write_faults);
            Err(StoreErr::Failed)
        }
    }
}

// Missing where no file has the name, and Failed at each other failure of the system.
fn read_file<R: Files>(alloc: Global, rt: &R, name: &str, most: usize) -> Result<Vec<u8>, StoreErr>
    ensures { IfOk result (λ bytes. length bytes.items ≤ most) }
{
    match fs::open(rt, name) {
        Ok(mut file) => read_whole(alloc, &mut file, most),
        Err(error) if error.kind() == io::ErrorKind::NotFound => Err(StoreErr::Missing),
        Err(_) => Err(StoreErr::Failed),
    }
}

// Whether all was written.
fn write_file<R: Files>(rt: &R, name: &str, bytes: &[u8]) -> bool {
    match fs::create(rt, name) {
        Ok(mut file) => write_whole(&mut file, bytes).is_ok(),
        Err(_) => false,
    }
}
