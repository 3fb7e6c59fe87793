ghost use Rattle.std.specs.Prelude.{◌≡◌, [], ◌∷◌, ◌++◌, length, IfOk, OnOk, OnErr, List, ℕ};
ghost use Rattle.dex_writer.specs.Rows.{place, with_row};

use std::alloc::Global;
use std::collections::BTreeMap;
use std::marker::Model;
use vet_base::{Memory, Name};

/// What an id table has rows of.
pub trait Row: Ord + Drop {
    /// The same row over the same storage, so that it takes no memory.
    fn twin(&self) -> Result<Self, Memory>
        ensures { IfOk result (λ x. x ≡ self.now) };
}

impl Row for Name {
    fn twin(&self) -> Result<Name, Memory> {
        self.copy()
    }
}

impl Row for u32 {
    fn twin(&self) -> Result<u32, Memory> {
        Ok(*self)
    }
}

/// The rows of an id table in their order, with an index of them.
#[derive(Drop)]
pub struct Interner<K: Row> {
    rows: Vec<K>,
    index: BTreeMap<K, u32>,
}

impl<K: Row> Model for Interner<K> {
    ghost use Rattle.std.specs.Prelude.{List};
    ghost use Rattle.std.specs.Coded.{coded_list};
    ghost use Rattle.dex_writer.specs.Rows.{IsIndexOf};

    ghost Value = { List K };

    ghost coded = { coded_list K.code };

    ghost view = { λ a. a.rows.items };

    ghost invariant = { λ a. IsIndexOf K.cmp a.rows.items a.index };
}

/// The number of a row. More rows than a `u32` counts are more than memory is for.
fn number_of(rows: usize) -> Result<u32, Memory>
    ensures { IfOk result (λ n. n ≡ rows) }
{
    match u32::try_from(rows) {
        Ok(number) => Ok(number),
        Err(_) => Err(Memory),
    }
}

impl<K: Row> Interner<K> {
    pub fn new(alloc: Global) -> Self
        ensures { result ≡ [] }
    {
        Interner {
            rows: Vec::new(alloc),
            index: BTreeMap::new(alloc),
        }
    }

    pub fn rows(&self) -> &[K]
        ensures { result.now ≡ self.now }
    {
        &self.rows
    }

    pub fn place(&self, row: &K) -> Option<u32>
        ensures { result ≡ place K.cmp self.now row.now }
    {
        self.index.get(row).copied()
    }

    /// Puts a row at the end, also where the table has it already.
    pub fn push(&mut self, row: K) -> Result<(), Memory>
        ensures ok { OnOk result (self.new ≡ self.old ++ row ∷ []) }
        ensures err { OnErr result (self.new ≡ self.old) }
    {
        self.rows.reserve(1)?;
        if !self.index.contains_key(&row) {
            let at = number_of(self.rows.len())?;
            let twin = row.twin()?;
            self.index.insert(twin, at)?;
        }
        self.rows.push(row)?;
        Ok(())
    }

    /// Puts a row at the end unless the table has it already.
    pub fn add(&mut self, row: K) -> Result<(), Memory>
        ensures ok { OnOk result (self.new ≡ with_row K.cmp self.old row) }
        ensures err { OnErr result (self.new ≡ self.old) }
    {
        if self.place(&row).is_none() {
            self.push(row)?;
        }
        Ok(())
    }
}
