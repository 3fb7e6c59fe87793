ghost use Rattle.std.specs.Prelude.{◌≡◌, ◌<◌, ◌^◌, length};
ghost use Rattle.vet_base.specs.Script.{Gives};
ghost use Rattle.dex_reader.specs.ClassData.{class_of, classes_at};

use crate::class_data::class_data_of;
use crate::class_defs::ClassRow;
use dex_tables::{ClassDef, ReadError, Sizes, Totals};
use std::alloc::Global;
use vet_base::Seq;

#[tactic(auto, unfolding(crate::specs::ClassData::class_of), using(vet_base::proofs::Scripts::run_bind))]
fn class_def_of(
    alloc: Global,
    file: &[u8],
    sizes: Sizes,
    row: ClassRow,
    totals: Totals,
) -> Result<(ClassDef, Totals), ReadError>
    requires { length file.now < 2 ^ 32 }
    ensures { Gives (λ x. x) result (class_of file.now sizes row totals) }
{
    let (lists, totals) = class_data_of(alloc, file, sizes, row.row, row.class_data, totals)?;
    let found = ClassDef {
        class: row.class,
        flags: row.flags,
        superclass: row.superclass,
        interfaces: row.interfaces,
        statics: lists.statics,
        instances: lists.instances,
        directs: lists.directs,
        virtuals: lists.virtuals,
    };
    Ok((found, totals))
}

/// The classes of the rows of `class_defs`, each with its class data.
#[tactic(auto, unfolding(crate::specs::ClassData::classes_at), using(crate::proofs::WalkRest::rest_begins, crate::proofs::WalkRest::rest_goes_on, crate::proofs::WalkRest::rest_fails, crate::proofs::WalkRest::rest_is_done))]
pub fn classes_of(
    alloc: Global,
    file: &[u8],
    sizes: Sizes,
    rows: Vec<ClassRow>,
) -> Result<(Seq<ClassDef>, Totals), ReadError>
    requires { length file.now < 2 ^ 32 }
    ensures { Gives (λ x. x) result (classes_at file.now sizes rows.items) }
{
    let mut classes = Vec::with_capacity(alloc, rows.len())?;
    let mut totals = Totals {
        members: 0,
        units: 0,
        tries: 0,
    };
    for row in rows {
        let (class, next) = class_def_of(alloc, file, sizes, row, totals)?;
        classes.push(class)?;
        totals = next;
    }
    Ok((Seq::from_vec(classes), totals))
}
