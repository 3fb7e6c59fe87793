ghost use Rattle.std.specs.Prelude.{◌≡◌, ◌≤◌, Some, Ok, Err, position, length, IfOk, OnOk, OnErr};
ghost use Rattle.vet_base.specs.Outside.{Puts, AnswersRead, told_after_read, WritesFile, FileCause};
ghost use Rattle.std.specs.Option.{option_map};
ghost use Rattle.vet_base.specs.MemoryFiles.{file_in, has_name, told_by, fails_next, FailsAsNumbered, CountsCall};

use crate::{FailedCall, FileFault, Files, Name};
use std::alloc::Global;
use std::marker::Model;

/// Files in memory. They tell what they hold, and fail at the calls whose numbers they were given.
#[derive(Drop)]
pub struct MemFiles {
    files: Vec<(Name, Vec<u8>)>,
    failing: Vec<u64>,
    calls: u64,
    faults: u64,
    failed: Option<FailedCall>,
}

impl Model for MemFiles {
    ghost use Rattle.vet_base.specs.MemoryFiles.{Store};

    ghost Value = { Store };

    ghost view = { λ m. record {
      files = m.files.items;
      failing = m.failing.items;
      calls = m.calls;
      faults = m.faults;
      failed = m.failed;
    } };
}

/// The place of the file of this name.
fn place_of(files: &[(Name, Vec<u8>)], name: &[u8]) -> Option<usize>
    ensures { result ≡ position (has_name name.now) files.now }
{
    files.iter().position(|file| file.0.as_bytes() == name)
}

/// Gives the file of this name these bytes. After want of memory the files are as before.
fn store(
    alloc: Global,
    files: &mut Vec<(Name, Vec<u8>)>,
    name: &[u8],
    bytes: Vec<u8>,
) -> Result<(), FileFault>
    ensures ok { OnOk result (Puts (file_in files.old.items) (file_in files.new.items) name.now (Some bytes.items)) }
    ensures err { OnErr result (files.new.items ≡ files.old.items) }
    ensures memory { OnErr result (result ≡ Err FileFault.Memory) }
{
    match place_of(files, name) {
        Some(place) => {
            files[place].1 = bytes;
            Ok(())
        }
        None => {
            let name = Name::from_bytes(alloc, name)?;
            files.push((name, bytes))?;
            Ok(())
        }
    }
}

/// The bytes of the file of this name.
fn bytes_of<'a>(files: &'a [(Name, Vec<u8>)], name: &[u8]) -> Option<&'a Vec<u8>>
    ensures { option_map (λ v. v.now.items) result ≡ file_in files.now name.now }
{
    for (known, bytes) in files {
        if known.as_bytes() == name {
            return Some(bytes);
        }
    }
    None
}

impl MemFiles {
    /// These files; where a name stands twice, the first counts. The calls of `read` and `write` are numbered from 1,
    /// and the n-th fails where n is in `failing`; in a read, `Absent` and `TooLong` come before that.
    pub fn new(files: Vec<(Name, Vec<u8>)>, failing: Vec<u64>) -> Self
        ensures { result ≡ record {
          files = files.items;
          failing = failing.items;
          calls = 0;
          faults = 0;
          failed = None;
        } }
    {
        MemFiles {
            files,
            failing,
            calls: 0,
            faults: 0,
            failed: None,
        }
    }

    /// The present files.
    pub fn files(&self) -> &[(Name, Vec<u8>)]
        ensures { result.now ≡ self.now.files }
    {
        &self.files
    }
}

impl Files for MemFiles {
    ghost told = { λ m. Some (told_by m) };

    ghost fault_count = { λ m. m.faults };

    #[tactic(auto, unfolding(crate::specs::Outside::held_by))]
    fn read(&mut self, alloc: Global, name: &str, limit: u64) -> Result<Vec<u8>, FileFault>
        ensures answer { AnswersRead (Some (told_by self.old)) name.now limit result }
        ensures told { Some (told_by self.new) ≡ told_after_read (Some (told_by self.old)) name.now result }
        ensures limit { IfOk result (λ v. length v.items ≤ limit) }
        ensures cause { FileCause self.old.faults self.new.faults result }
        ensures numbered { FailsAsNumbered (fails_next self.old) result }
        ensures counted { CountsCall self.old self.new }
    {
        self.calls = self.calls.saturating_add(1);
        let Some(bytes) = bytes_of(&self.files, name.as_bytes()) else {
            return Err(FileFault::Absent);
        };
        if bytes.len() as u64 > limit {
            return Err(FileFault::TooLong);
        }
        if self.failing.contains(&self.calls) {
            let name = Name::from_bytes(alloc, name.as_bytes())?;
            self.failed = Some(FailedCall::Read(name));
            self.faults = self.faults.saturating_add(1);
            return Err(FileFault::Failed);
        }
        Ok(bytes.to_vec(alloc)?)
    }

    fn write(&mut self, alloc: Global, name: &str, bytes: &[u8]) -> Result<(), FileFault>
        ensures told { WritesFile (Some (told_by self.old)) (Some (told_by self.new)) name.now bytes.now result }
        ensures cause { FileCause self.old.faults self.new.faults result }
        ensures numbered { FailsAsNumbered (fails_next self.old) result }
        ensures counted { CountsCall self.old self.new }
    {
        self.calls = self.calls.saturating_add(1);
        if self.failing.contains(&self.calls) {
            let name = Name::from_bytes(alloc, name.as_bytes())?;
            self.failed = Some(FailedCall::Write(name));
            self.faults = self.faults.saturating_add(1);
            return Err(FileFault::Failed);
        }
        let copied = bytes.to_vec(alloc)?;
        store(alloc, &mut self.files, name.as_bytes(), copied)?;
        Ok(())
    }

    fn faults(&self) -> u64 {
        self.faults
    }
}
