//! Which types the lists have above each of their classes.
ghost use Rattle.std.specs.Prelude.{◌≡◌, ◌<◌, IfNone, IfOk, IfSome, None, length, slice_index_or};
ghost use Rattle.app_index.specs.Numbers.{HasFirst};
ghost use Rattle.app_machine.specs.Summaries.{listed_class};
ghost use Rattle.app_model.specs.Above.{is_listed_below};
ghost use Rattle.event_index.specs.contracts.keys.NameKeyPartialEq.TheImpl.{ghosts as key_eq};
ghost use Rattle.event_index.specs.Kinds.{Adds, AreKinds, HasKinds, word_count};
ghost use Rattle.event_index.specs.Listed.{HasRows, IsClassAt, IsListed, is_named, listed_test};

use crate::bits::Bits;
use crate::keys::NameKey;
use crate::kinds::Kinds;
use app_machine::{LibClass, Lists};
use std::alloc::Global;
use std::collections::HashMap;
use vet_base::Memory;

/// The lists, types by number, listed classes by number, and for each of these a row of the types above it.
#[derive(Drop)]
pub struct Listed<'a> {
    pub lists: &'a Lists,
    pub kinds: Kinds<'a>,
    pub numbers: HashMap<NameKey<'a>, usize>,
    pub rows: Vec<Bits>,
}

/// The number of the first class of each name.
fn number_classes<'a>(
    alloc: Global,
    classes: &'a [LibClass],
) -> Result<HashMap<NameKey<'a>, usize>, Memory>
    ensures { IfOk result (λ numbers. HasFirst key_eq.eq is_named numbers classes.now) }
{
    let mut numbers = HashMap::new(alloc);
    let mut left = classes.len();
    while left > 0 {
        left -= 1;
        let name = classes[left].name.as_bytes();
        numbers.insert(NameKey { name }, left)?;
    }
    Ok(numbers)
}

/// The types above the class come to the row, itself among them.
fn fill(kinds: &Kinds<'_>, row: &mut Bits, class: &LibClass)
    requires kinds { AreKinds kinds.now }
    requires long { length row.now ≡ word_count kinds.now.count }
    ensures { Adds kinds.now row.old row.new (listed_test class.now) }
{
    kinds.mark(row, class.name.as_bytes());
    kinds.mark_each(row, class.above.as_slice());
}

/// The row of a class of the lists.
fn row_of(alloc: Global, kinds: &Kinds<'_>, class: &LibClass) -> Result<Bits, Memory>
    requires { AreKinds kinds.now }
    ensures { IfOk result (λ row. HasKinds kinds.now row (listed_test class.now)) }
{
    let mut row = kinds.row(alloc)?;
    fill(kinds, &mut row, class);
    Ok(row)
}

#[tactic(auto, using(crate::proofs::ListedRows::no_rows, crate::proofs::ListedRows::one_more_row, crate::proofs::ListedRows::all_rows))]
fn rows_of(alloc: Global, kinds: &Kinds<'_>, classes: &[LibClass]) -> Result<Vec<Bits>, Memory>
    requires { AreKinds kinds.now }
    ensures { IfOk result (λ rows. HasRows kinds.now classes.now rows.items) }
{
    let mut rows = Vec::new(alloc);
    for class in classes {
        rows.push(row_of(alloc, kinds, class)?)?;
    }
    Ok(rows)
}

impl<'a> Listed<'a> {
    /// The index of the lists.
    pub fn of(alloc: Global, lists: &'a Lists) -> Result<Listed<'a>, Memory>
        ensures lists { IfOk result (λ listed. listed.lists.now ≡ lists.now) }
        ensures listed { IfOk result (λ listed. IsListed listed) }
    {
        let kinds = Kinds::of(alloc, lists)?;
        let rows = rows_of(alloc, &kinds, lists.classes.as_slice())?;
        let numbers = number_classes(alloc, lists.classes.as_slice())?;
        Ok(Listed {
            lists,
            kinds,
            numbers,
            rows,
        })
    }

    /// The number of the listed class of this name.
    fn number(&self, name: &[u8]) -> Option<usize>
        requires { IsListed self.now }
        ensures none { IfNone result (listed_class self.now.lists.now name.now ≡ None) }
        ensures some { IfSome result (λ number. IsClassAt self.now name.now number) }
    {
        match self.numbers.get(&NameKey { name }) {
            Some(number) => Some(*number),
            None => None,
        }
    }

    /// The row of this number.
    fn row_at(&self, number: usize) -> &Bits
        requires { number < length self.now.rows.items }
        ensures { result.now ≡ slice_index_or self.now.rows.items number result.now }
    {
        &self.rows[number]
    }

    /// The row of the listed class of this name.
    #[tactic(auto, using(crate::proofs::ListedRows::row_within))]
    pub fn row(&self, name: &[u8]) -> Option<&Bits>
        requires { IsListed self.now }
        ensures none { IfNone result (listed_class self.now.lists.now name.now ≡ None) }
        ensures some { IfSome result (λ row. HasKinds self.now.kinds row.now
            (is_listed_below self.now.lists.now name.now)) }
    {
        match self.number(name) {
            Some(number) => Some(self.row_at(number)),
            None => None,
        }
    }

    /// The types that the lists have above the class of this name come to the row, and that of the name itself.
    #[tactic(auto, using(crate::proofs::Rows::adds_row_of, crate::proofs::ListedRows::adds_itself))]
    pub fn add(&self, row: &mut Bits, name: &[u8])
        requires listed { IsListed self.now }
        requires long { length row.now ≡ word_count self.now.kinds.count }
        ensures { Adds self.now.kinds row.old row.new (is_listed_below self.now.lists.now name.now) }
    {
        match self.row(name) {
            Some(more) => row.join(more),
            None => self.kinds.mark(row, name),
        }
    }
}
