ghost use Rattle.std.specs.Prelude.{◌≡◌, [], ◌∷◌, ◌++◌, IfOk, OnOk};
ghost use Rattle.made_apps.specs.Names.{object_class, object_array};
ghost use Rattle.made_apps.specs.Code.{invoke_static, move_result_object, const_4, new_array, aput_object, aget_object};
ghost use Rattle.made_apps.specs.Code.{device_id, net_post, work_method, work_field, returned_lines, passed_on_lines};
ghost use Rattle.made_apps.specs.Code.{through_array_lines, stored_lines, body_lines, main_lines};

use crate::body::Body;
use crate::instructions::{
    aget_object, aput_object, const_4, invoke_static, move_result_object, new_array, return_object,
    return_void, sput_object,
};
use crate::names;
use dex_maker::{ListedLine, Operand};
use std::alloc::Global;
use vet_base::{Memory, Name, Seq};

fn object_alone(alloc: Global) -> Result<Seq<Name>, Memory>
    ensures { IfOk result (λ s. s ≡ object_class ∷ []) }
{
    Ok(Seq::from_vec(vec![in alloc; names::object_class(alloc)?]?))
}

/// The library's method that gives the device's id.
fn device_id(alloc: Global) -> Result<Operand, Memory>
    ensures { IfOk result (λ o. o ≡ device_id) }
{
    let class = names::device_class(alloc)?;
    let name = names::id(alloc)?;
    Ok(Operand::Method(class, name, Seq::new(alloc), names::string_class(alloc)?))
}

/// The library's method that sends an object away.
fn net_post(alloc: Global) -> Result<Operand, Memory>
    ensures { IfOk result (λ o. o ≡ net_post) }
{
    let class = names::net_class(alloc)?;
    let name = names::post(alloc)?;
    let params = object_alone(alloc)?;
    Ok(Operand::Method(class, name, params, names::void(alloc)?))
}

fn work_method(alloc: Global, i: u32) -> Result<Operand, Memory>
    ensures { IfOk result (λ o. o ≡ work_method i) }
{
    let class = names::work_class(alloc)?;
    let name = names::method_name(alloc, i)?;
    let params = object_alone(alloc)?;
    Ok(Operand::Method(class, name, params, names::object_class(alloc)?))
}

fn work_field(alloc: Global) -> Result<Operand, Memory>
    ensures { IfOk result (λ o. o ≡ work_field) }
{
    let class = names::work_class(alloc)?;
    let name = names::static_field(alloc)?;
    Ok(Operand::Field(class, name, names::object_class(alloc)?))
}

#[tactic(auto, unfolding(crate::specs::Code::returned_lines))]
fn returned(alloc: Global) -> Result<Vec<ListedLine>, Memory>
    ensures { IfOk result (λ v. v.items ≡ returned_lines) }
{
    Ok(vec![in alloc; return_object(alloc, 2)?]?)
}

#[tactic(auto, unfolding(crate::specs::Code::passed_on_lines))]
fn passed_on(alloc: Global, j: u32) -> Result<Vec<ListedLine>, Memory>
    ensures { IfOk result (λ v. v.items ≡ passed_on_lines j) }
{
    let method = work_method(alloc, j)?;
    Ok(vec![in alloc;
        invoke_static(alloc, &[2], method)?,
        move_result_object(alloc, 0)?,
        return_object(alloc, 0)?,
    ]?)
}

/// Adds that v1 is a new array of one element.
fn push_array(alloc: Global, lines: &mut Vec<ListedLine>) -> Result<(), Memory>
    ensures { OnOk result (lines.new.items ≡ lines.old.items ++ const_4 0 1 ∷ new_array 1 0 object_array ∷ []) }
{
    lines.push(const_4(alloc, 0, 1)?)?;
    let kind = names::object_array(alloc)?;
    lines.push(new_array(alloc, 1, 0, kind)?)?;
    Ok(())
}

/// Adds that v2 is put into the array in v1, and that v0 is what is got from there.
fn push_element(alloc: Global, lines: &mut Vec<ListedLine>) -> Result<(), Memory>
    ensures { OnOk result (lines.new.items ≡ lines.old.items ++ const_4 0 0 ∷ aput_object 2 1 0 ∷ aget_object 0 1 0 ∷
        []) }
{
    lines.push(const_4(alloc, 0, 0)?)?;
    lines.push(aput_object(alloc, 2, 1, 0)?)?;
    lines.push(aget_object(alloc, 0, 1, 0)?)?;
    Ok(())
}

#[tactic(auto, unfolding(crate::specs::Code::through_array_lines))]
fn through_array(alloc: Global) -> Result<Vec<ListedLine>, Memory>
    ensures { IfOk result (λ v. v.items ≡ through_array_lines) }
{
    let mut lines = Vec::new(alloc);
    push_array(alloc, &mut lines)?;
    push_element(alloc, &mut lines)?;
    lines.push(return_object(alloc, 0)?)?;
    Ok(lines)
}

#[tactic(auto, unfolding(crate::specs::Code::stored_lines))]
fn stored(alloc: Global) -> Result<Vec<ListedLine>, Memory>
    ensures { IfOk result (λ v. v.items ≡ stored_lines) }
{
    let field = work_field(alloc)?;
    Ok(vec![in alloc;
        sput_object(alloc, 2, field)?,
        const_4(alloc, 0, 0)?,
        return_object(alloc, 0)?,
    ]?)
}

/// The code of a drawn method, whose argument is v2.
#[tactic(auto, unfolding(crate::specs::Code::body_lines))]
pub fn body_lines(alloc: Global, body: Body) -> Result<Vec<ListedLine>, Memory>
    ensures { IfOk result (λ v. v.items ≡ body_lines body) }
{
    match body {
        Body::Returned => returned(alloc),
        Body::PassedOn(j) => passed_on(alloc, j),
        Body::ThroughArray => through_array(alloc),
        Body::Stored => stored(alloc),
    }
}

/// Adds the call of a method with v0, and the sending of its result.
fn push_call(alloc: Global, lines: &mut Vec<ListedLine>, i: u32) -> Result<(), Memory>
    ensures { OnOk result (lines.new.items ≡ lines.old.items ++ invoke_static (0 ∷ []) (work_method i) ∷
        move_result_object 1 ∷ invoke_static (1 ∷ []) net_post ∷ []) }
{
    let method = work_method(alloc, i)?;
    lines.push(invoke_static(alloc, &[0], method)?)?;
    lines.push(move_result_object(alloc, 1)?)?;
    let post = net_post(alloc)?;
    lines.push(invoke_static(alloc, &[1], post)?)?;
    Ok(())
}

/// The code of `onCreate`: the device's id is passed to each of so many methods, and each result is sent away.
#[tactic(auto, unfolding(crate::specs::Code::main_lines))]
pub fn main_lines(alloc: Global, size: u32) -> Result<Vec<ListedLine>, Memory>
    ensures { IfOk result (λ v. v.items ≡ main_lines size) }
{
    let source = device_id(alloc)?;
    let mut lines = vec![in alloc;
        invoke_static(alloc, &[], source)?,
        move_result_object(alloc, 0)?,
    ]?;
    for i in 0..size {
        push_call(alloc, &mut lines, i)?;
    }
    lines.push(return_void(alloc)?)?;
    Ok(lines)
}
