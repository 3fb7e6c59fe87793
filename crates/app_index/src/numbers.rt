//! The numbers of rows and classes, the first one where several have the same key.
ghost use Rattle.std.specs.Prelude.{◌≡◌, ◌≤◌, IfOk, length};
ghost use Rattle.app_index.specs.Numbers.{HasMethods, HasClasses, HasDefaults, HasStatics};

use crate::keys::{ClassKey, FieldKey, MethodKey, field_key, method_key};
use app_machine::{LibClass, StaticRow, Summary};
use std::alloc::Global;
use std::collections::HashMap;
use vet_base::Memory;

/// The number of the first row of each method, from the last row on.
#[tactic(auto, using(crate::proofs::Numbering::none_yet, crate::proofs::Numbering::one_more, crate::proofs::Numbering::passed_by, crate::proofs::Numbering::all_there))]
pub fn number_methods<'a>(
    alloc: Global,
    rows: &'a [Summary],
) -> Result<HashMap<MethodKey<'a>, u32>, Memory>
    requires { length rows.now ≤ 65536 }
    ensures { IfOk result (λ numbers. HasMethods numbers rows.now) }
{
    let mut numbers = HashMap::new(alloc);
    let mut left = rows.len();
    while left > 0 {
        left -= 1;
        let row = &rows[left];
        let key = method_key(&row.class, &row.name, &row.proto, row.is_static);
        numbers.insert(key, left as u32)?;
    }
    Ok(numbers)
}

/// The number of the first row of each static field.
#[tactic(auto, using(crate::proofs::Numbering::none_yet, crate::proofs::Numbering::one_more, crate::proofs::Numbering::passed_by, crate::proofs::Numbering::all_there))]
pub fn number_statics<'a>(
    alloc: Global,
    rows: &'a [StaticRow],
) -> Result<HashMap<FieldKey<'a>, u32>, Memory>
    requires { length rows.now ≤ 65536 }
    ensures { IfOk result (λ numbers. HasStatics numbers rows.now) }
{
    let mut numbers = HashMap::new(alloc);
    let mut left = rows.len();
    while left > 0 {
        left -= 1;
        let row = &rows[left];
        let key = field_key(&row.class, &row.name, &row.kind);
        numbers.insert(key, left as u32)?;
    }
    Ok(numbers)
}

/// The number of the first class of each name.
#[tactic(auto, using(crate::proofs::Numbering::none_yet, crate::proofs::Numbering::one_more, crate::proofs::Numbering::passed_by, crate::proofs::Numbering::all_there))]
pub fn number_classes<'a>(
    alloc: Global,
    classes: &'a [LibClass],
) -> Result<HashMap<ClassKey<'a>, u32>, Memory>
    requires { length classes.now ≤ 65536 }
    ensures { IfOk result (λ numbers. HasClasses numbers classes.now) }
{
    let mut numbers = HashMap::new(alloc);
    let mut left = classes.len();
    while left > 0 {
        left -= 1;
        let name = classes[left].name.as_bytes();
        numbers.insert(ClassKey { name }, left as u32)?;
    }
    Ok(numbers)
}

/// The number of the first class of each name that has a default.
#[tactic(auto, using(crate::proofs::Numbering::none_yet, crate::proofs::Numbering::one_more, crate::proofs::Numbering::passed_by, crate::proofs::Numbering::all_there))]
pub fn number_defaults<'a>(
    alloc: Global,
    classes: &'a [LibClass],
) -> Result<HashMap<ClassKey<'a>, u32>, Memory>
    requires { length classes.now ≤ 65536 }
    ensures { IfOk result (λ numbers. HasDefaults numbers classes.now) }
{
    let mut numbers = HashMap::new(alloc);
    let mut left = classes.len();
    while left > 0 {
        left -= 1;
        let class = &classes[left];
        if class.fallback.is_some() {
            let name = class.name.as_bytes();
            numbers.insert(ClassKey { name }, left as u32)?;
        }
    }
    Ok(numbers)
}
