ghost use Rattle.std.specs.Prelude.{◌≡◌, ◌<◌, ◌^◌, length};
ghost use Rattle.vet_base.specs.Script.{Gives};
ghost use Rattle.dex_reader.specs.ClassData.{counted, sum_below, member_row, members_at, body_row};
ghost use Rattle.dex_reader.specs.ClassData.{bodies_at, counts_at, some_class_data_at, class_data_at};

use dex_bodies::maybe_code_of;
use dex_tables::{Body, Fault, Limit, Member, ReadError, Sizes, Table, Totals, uleb_of};
use std::alloc::Global;
use vet_base::{Seq, Stop};

const CLASS_DATA: u32 = 400_000;

/// A walk along members: where the next one stands, the sum of the index differences of its list, and the totals.
/// Behind the last member of a list the next list begins, whose differences begin anew at 0.
#[derive(Clone, Copy)]
pub struct Walk {
    pub at: u32,
    pub index: u32,
    pub totals: Totals,
}

/// How many members each of the four lists has, and where the first list begins.
#[derive(Clone, Copy)]
pub struct Counts {
    pub statics: u32,
    pub instances: u32,
    pub directs: u32,
    pub virtuals: u32,
    pub at: u32,
}

/// The members of a class.
#[derive(Drop)]
pub struct ClassData {
    pub statics: Seq<Member>,
    pub instances: Seq<Member>,
    pub directs: Seq<Body>,
    pub virtuals: Seq<Body>,
}

/// The index that a difference leads to, below the size of its table.
#[tactic(auto, unfolding(crate::specs::ClassData::sum_below), using(vet_base::proofs::Scripts::run_bind))]
fn index_of(index: u32, difference: u32, size: u32, class: u32) -> Result<u32, ReadError>
    ensures { Gives (λ x. x) result (sum_below index difference size class) }
{
    let sum = u64::from(index) + u64::from(difference);
    if sum >= u64::from(size) {
        return Err(Stop::Fault(Fault::Index(Table::ClassData, class)));
    }
    Ok(sum as u32)
}

#[tactic(auto, unfolding(crate::specs::ClassData::counted), using(vet_base::proofs::Scripts::run_bind))]
fn one_more_of(totals: Totals) -> Result<Totals, ReadError>
    ensures { Gives (λ x. x) result (counted totals) }
{
    if totals.members >= CLASS_DATA {
        return Err(Stop::Fault(Fault::TooMany(Limit::ClassData)));
    }
    Ok(Totals {
        members: totals.members + 1,
        units: totals.units,
        tries: totals.tries,
    })
}

#[tactic(auto, unfolding(crate::specs::ClassData::member_row), using(vet_base::proofs::Scripts::run_bind))]
fn member_of(file: &[u8], fields: u32, class: u32, walk: Walk) -> Result<(Member, Walk), ReadError>
    requires { length file.now < 2 ^ 32 }
    ensures { Gives (λ x. x) result (member_row file.now fields class walk) }
{
    let (difference, at) = uleb_of(file, walk.at)?;
    let index = index_of(walk.index, difference, fields, class)?;
    let (flags, at) = uleb_of(file, at)?;
    let totals = one_more_of(walk.totals)?;
    Ok((Member { index, flags }, Walk { at, index, totals }))
}

fn members_of(
    alloc: Global,
    file: &[u8],
    fields: u32,
    class: u32,
    count: u32,
    before: Walk,
) -> Result<(Seq<Member>, Walk), ReadError>
    requires { length file.now < 2 ^ 32 }
    ensures { Gives (λ x. x) result (members_at file.now fields class count before.at before.totals) }
{
    let mut members = Vec::new(alloc);
    let mut walk = Walk { index: 0, ..before };
    for _ in 0..count {
        let (member, next) = member_of(file, fields, class, walk)?;
        members.push(member)?;
        walk = next;
    }
    Ok((Seq::from_vec(members), walk))
}

#[tactic(auto, unfolding(crate::specs::ClassData::body_row), using(vet_base::proofs::Scripts::run_bind))]
fn body_of(
    alloc: Global,
    file: &[u8],
    sizes: Sizes,
    class: u32,
    walk: Walk,
) -> Result<(Body, Walk), ReadError>
    requires { length file.now < 2 ^ 32 }
    ensures { Gives (λ x. x) result (body_row file.now sizes class walk) }
{
    let (difference, at) = uleb_of(file, walk.at)?;
    let index = index_of(walk.index, difference, sizes.methods, class)?;
    let (flags, at) = uleb_of(file, at)?;
    let (offset, at) = uleb_of(file, at)?;
    let totals = one_more_of(walk.totals)?;
    let (code, totals) = maybe_code_of(alloc, file, sizes.types, offset, totals)?;
    Ok((Body { index, flags, code }, Walk { at, index, totals }))
}

fn bodies_of(
    alloc: Global,
    file: &[u8],
    sizes: Sizes,
    class: u32,
    count: u32,
    before: Walk,
) -> Result<(Seq<Body>, Walk), ReadError>
    requires { length file.now < 2 ^ 32 }
    ensures { Gives (λ x. x) result (bodies_at file.now sizes class count before.at before.totals) }
{
    let mut bodies = Vec::new(alloc);
    let mut walk = Walk { index: 0, ..before };
    for _ in 0..count {
        let (body, next) = body_of(alloc, file, sizes, class, walk)?;
        bodies.push(body)?;
        walk = next;
    }
    Ok((Seq::from_vec(bodies), walk))
}

#[tactic(auto, unfolding(crate::specs::ClassData::counts_at), using(vet_base::proofs::Scripts::run_bind))]
fn counts_of(file: &[u8], offset: u32) -> Result<Counts, ReadError>
    requires { length file.now < 2 ^ 32 }
    ensures { Gives (λ x. x) result (counts_at file.now offset) }
{
    let (statics, at) = uleb_of(file, offset)?;
    let (instances, at) = uleb_of(file, at)?;
    let (directs, at) = uleb_of(file, at)?;
    let (virtuals, at) = uleb_of(file, at)?;
    Ok(Counts {
        statics,
        instances,
        directs,
        virtuals,
        at,
    })
}

#[tactic(auto, unfolding(crate::specs::ClassData::some_class_data_at), using(vet_base::proofs::Scripts::run_bind))]
fn some_class_data_of(
    alloc: Global,
    file: &[u8],
    sizes: Sizes,
    class: u32,
    offset: u32,
    totals: Totals,
) -> Result<(ClassData, Totals), ReadError>
    requires { length file.now < 2 ^ 32 }
    ensures { Gives (λ x. x) result (some_class_data_at file.now sizes class offset totals) }
{
    let n = counts_of(file, offset)?;
    let fields = sizes.fields;
    let begin = Walk {
        at: n.at,
        index: 0,
        totals,
    };
    let (statics, to) = members_of(alloc, file, fields, class, n.statics, begin)?;
    let (instances, to) = members_of(alloc, file, fields, class, n.instances, to)?;
    let (directs, to) = bodies_of(alloc, file, sizes, class, n.directs, to)?;
    let (virtuals, to) = bodies_of(alloc, file, sizes, class, n.virtuals, to)?;
    let found = ClassData {
        statics,
        instances,
        directs,
        virtuals,
    };
    Ok((found, to.totals))
}

/// The members of the class in a row of `class_defs`, and the totals with them. Offset 0 stands for none.
#[tactic(auto, unfolding(crate::specs::ClassData::class_data_at))]
pub fn class_data_of(
    alloc: Global,
    file: &[u8],
    sizes: Sizes,
    class: u32,
    offset: u32,
    totals: Totals,
) -> Result<(ClassData, Totals), ReadError>
    requires { length file.now < 2 ^ 32 }
    ensures { Gives (λ x. x) result (class_data_at file.now sizes class offset totals) }
{
    if offset == 0 {
        let none = ClassData {
            statics: Seq::new(alloc),
            instances: Seq::new(alloc),
            directs: Seq::new(alloc),
            virtuals: Seq::new(alloc),
        };
        return Ok((none, totals));
    }
    some_class_data_of(alloc, file, sizes, class, offset, totals)
}
