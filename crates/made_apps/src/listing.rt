ghost use Rattle.std.specs.Prelude.{◌≡◌, ◌<◌, ◌≤◌, [], ◌∷◌, IfOk};
ghost use Rattle.made_apps.specs.Made.{code_of, main_method, main_listed, method_listed};
ghost use Rattle.made_apps.specs.Made.{methods_from, field_listed, work_listed, made};

use crate::body::Body;
use crate::draws::Draws;
use crate::lines::{body_lines, main_lines};
use crate::names;
use dex_maker::{ListedClass, ListedCode, ListedField, ListedLine, ListedMethod, Listing};
use std::alloc::Global;
use vet_base::{Memory, Name, Seq};

/// Code without tries.
fn code_of(alloc: Global, registers: u16, ins: u16, lines: Vec<ListedLine>) -> ListedCode
    ensures { result ≡ code_of registers ins lines.items }
{
    ListedCode {
        registers,
        ins,
        lines: Seq::from_vec(lines),
        tries: Seq::new(alloc),
    }
}

#[tactic(auto, unfolding(crate::specs::Made::main_method))]
fn main_method(alloc: Global, size: u32) -> Result<ListedMethod, Memory>
    ensures { IfOk result (λ m. m ≡ main_method size) }
{
    let lines = main_lines(alloc, size)?;
    Ok(ListedMethod {
        name: names::on_create(alloc)?,
        params: Seq::from_vec(vec![in alloc; names::bundle_class(alloc)?]?),
        ret: names::void(alloc)?,
        flags: 1,
        code: Some(code_of(alloc, 4, 2, lines)),
    })
}

#[tactic(auto, unfolding(crate::specs::Made::main_listed))]
fn main_listed(alloc: Global, size: u32) -> Result<ListedClass, Memory>
    ensures { IfOk result (λ c. c ≡ main_listed size) }
{
    let method = main_method(alloc, size)?;
    Ok(ListedClass {
        name: names::main_class(alloc)?,
        flags: 1,
        superclass: Some(names::activity_class(alloc)?),
        interfaces: Seq::new(alloc),
        fields: Seq::new(alloc),
        methods: Seq::from_vec(vec![in alloc; method]?),
    })
}

#[tactic(auto, unfolding(crate::specs::Made::method_listed))]
fn method_listed(alloc: Global, i: u32, body: Body) -> Result<ListedMethod, Memory>
    ensures { IfOk result (λ m. m ≡ method_listed i body) }
{
    let lines = body_lines(alloc, body)?;
    Ok(ListedMethod {
        name: names::method_name(alloc, i)?,
        params: Seq::from_vec(vec![in alloc; names::object_class(alloc)?]?),
        ret: names::object_class(alloc)?,
        flags: 9,
        code: Some(code_of(alloc, 3, 1, lines)),
    })
}

/// The drawn methods.
fn methods_drawn(alloc: Global, seed: u32, size: u32) -> Result<Vec<ListedMethod>, Memory>
    requires { seed < 2147483648 }
    ensures { IfOk result (λ v. v.items ≡ methods_from size size 0 seed) }
{
    let mut draws = Draws::from_seed(seed);
    let mut methods = Vec::new(alloc);
    for i in 0..size {
        let body = draws.draw_body(size, i);
        methods.push(method_listed(alloc, i, body)?)?;
    }
    Ok(methods)
}

#[tactic(auto, unfolding(crate::specs::Made::field_listed))]
fn field_listed(alloc: Global) -> Result<ListedField, Memory>
    ensures { IfOk result (λ f. f ≡ field_listed) }
{
    Ok(ListedField {
        name: names::static_field(alloc)?,
        kind: names::object_class(alloc)?,
        flags: 9,
    })
}

#[tactic(auto, unfolding(crate::specs::Made::work_listed))]
fn work_listed(alloc: Global, seed: u32, size: u32) -> Result<ListedClass, Memory>
    requires { seed < 2147483648 }
    ensures { IfOk result (λ c. c ≡ work_listed seed size) }
{
    let methods = methods_drawn(alloc, seed, size)?;
    let field = field_listed(alloc)?;
    Ok(ListedClass {
        name: names::work_class(alloc)?,
        flags: 1,
        superclass: Some(names::object_class(alloc)?),
        interfaces: Seq::new(alloc),
        fields: Seq::from_vec(vec![in alloc; field]?),
        methods: Seq::from_vec(methods),
    })
}

/// The app that is drawn from a seed, with so many drawn methods.
///
/// `onCreate` of the activity `Lgen/Main;` passes the device's id to each of the static methods `m0`, `m1`, .. of
/// `Lgen/Work;` and sends each result away. A drawn method returns its argument, passes it on to a method behind it,
/// takes it through an array, or stores it in a static field. It fails for want of memory alone.
#[tactic(auto, unfolding(crate::specs::Made::made))]
pub fn made_listing(alloc: Global, seed: u32, size: u32) -> Result<Listing, Memory>
    requires seed { seed < 2147483648 }
    requires some { 1 ≤ size }
    requires most { size ≤ 2000 }
    ensures { IfOk result (λ l. l ≡ made seed size) }
{
    let main = main_listed(alloc, size)?;
    let work = work_listed(alloc, seed, size)?;
    Ok(Listing {
        classes: Seq::from_vec(vec![in alloc; main, work]?),
    })
}
