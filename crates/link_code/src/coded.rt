//! The code of the methods.

ghost use Rattle.std.specs.Prelude.{◌≡◌, ◌==◌, ◌<◌, ◌≤◌, ◌++◌, ◌^◌, ◌+◌, min, option_map, length, IfOk, map};
ghost use Rattle.std.specs.List.Sorted.{IsStrictlySortedBy};
ghost use Rattle.std.specs.Map.{keys_of};
ghost use Rattle.vet_base.specs.Script.{Gives};
ghost use Rattle.dex_code.specs.Code.{decoding};
ghost use Rattle.app_machine.specs.Names.{widths};
ghost use Rattle.app_machine.specs.Sound.{taken};
ghost use Rattle.link_code.specs.Code.{ShortCode, ShortCodes, all_codes, blamed, bodies_of, call_fits, call_row};
ghost use Rattle.link_code.specs.Code.{calls_fit, code_at, code_row, counts_of, one_code, reference, tested};
ghost use Rattle.link_listing.specs.Described.{Described};
ghost use Rattle.link_listing.specs.Orders.{triple_order};
ghost use Rattle.link_code.specs.SoFar.{SoFar};
ghost use Rattle.link_code.specs.Tested.{Tested};
ghost use Rattle.link_code.specs.Units.{units_in, units_of};
ghost use Rattle.link_listing.specs.Texts.{method_row, proto_of};
ghost use Rattle.link_listing.specs.declared.fault.Fault.TheVariants as faults;

use app_model::{CallKind, MethodRef, Proto, is_wide};
use dex_code::{CodeFault, Counts, Decoded, Insn, Naming, code_laws, decode};
use dex_tables::{Body, ClassDef, Dex, RawCode};
use link_listing::{
    Fault, Halt, Listed, Methods, Place, Triple, method_row_at, parameter_count, proto_at,
    proto_copied,
};
use std::alloc::Global;
use vet_base::{Memory, Name, Seq, Shared, Stop};

/// A method of the app whose code is decoded, or a native one, which has no lines.
#[derive(Drop)]
pub struct Coded {
    pub at: MethodRef,
    pub is_static: bool,
    pub is_native: bool,
    pub registers: u16,
    pub ins: u16,
    /// The number of its file.
    pub dex: usize,
    pub decoded: Decoded,
}

/// Methods in order, and how many units the code of all has, in a count that stays at its largest.
#[derive(Drop)]
pub struct Coding {
    pub methods: Vec<Coded>,
    pub units: u64,
}

fn small(n: usize) -> u32
    ensures { result ≡ min n 4294967295 }
{
    u32::try_from(n).unwrap_or(u32::MAX)
}

#[tactic(auto, unfolding(crate::specs::Code::counts_of))]
fn counts_at(dex: &Dex) -> Counts
    ensures { result ≡ counts_of dex.now }
{
    Counts {
        strings: small(dex.strings.len()),
        types: small(dex.types.len()),
        fields: small(dex.fields.len()),
        methods: small(dex.methods.len()),
    }
}

fn bodies_at(def: &ClassDef, is_virtual: bool) -> &[Body]
    ensures { result.now ≡ bodies_of def.now is_virtual }
{
    if is_virtual {
        def.virtuals.as_slice()
    } else {
        def.directs.as_slice()
    }
}

/// The file of a place, and the code there.
#[tactic(auto, unfolding(crate::specs::Code::code_at))]
fn find_code<'a>(dexes: &'a [Dex], place: &Place) -> Option<(&'a Dex, &'a RawCode)>
    ensures { option_map (λ f. (f.0.now, f.1.now)) result ≡ code_at dexes.now place.now }
{
    let dex = dexes.get(place.dex)?;
    let def = dex.classes.get(place.class)?;
    let body = bodies_at(def, place.is_virtual).get(place.body)?;
    match &body.code {
        Some(code) => Some((dex, code)),
        None => None,
    }
}

/// Whether parameters of these types take just so many registers.
fn take_registers(params: &[Name], count: usize) -> bool
    ensures { result ≡ (widths params.now == count) }
{
    let mut left = count;
    for kind in params {
        let width = if is_wide(kind) { 2 } else { 1 };
        if left < width {
            return false;
        }
        left -= width;
    }
    left == 0
}

/// Whether the arguments of a method take just so many registers.
fn takes(is_static: bool, proto: &Proto, count: usize) -> bool
    ensures { result ≡ (taken is_static proto.now == count) }
{
    if is_static {
        take_registers(proto.params.as_slice(), count)
    } else {
        count > 0 && take_registers(proto.params.as_slice(), count - 1)
    }
}

/// Whether the instruction is no call, or has the registers that its reference takes. The parameters are listed only
/// where there are as many registers.
#[tactic(auto, unfolding(crate::specs::Code::call_fits), using(crate::proofs::FewRegisters::too_few))]
fn fits_call(alloc: Global, dex: &Dex, insn: &Insn) -> Result<bool, Memory>
    ensures { IfOk result (λ b. b ≡ call_fits dex.now insn.now) }
{
    match insn.naming() {
        Naming::Method(i) => {
            let is_static = matches!(insn.call_kind(), CallKind::Static);
            if parameter_count(dex, i) > insn.argument_count() {
                return Ok(false);
            }
            let proto = proto_at(alloc, dex, method_row_at(dex, i).proto)?;
            Ok(takes(is_static, &proto, insn.argument_count()))
        }
        _ => Ok(true),
    }
}

pub fn reference_copied(at: &MethodRef) -> Result<MethodRef, Memory>
    ensures { IfOk result (λ m. m ≡ at.now) }
{
    Ok(MethodRef {
        class: at.class.copy()?,
        name: at.name.copy()?,
        proto: proto_copied(&at.proto)?,
    })
}

#[tactic(auto, unfolding(crate::specs::Code::reference))]
fn reference_of(triple: &Triple, listed: &Listed) -> Result<MethodRef, Memory>
    ensures { IfOk result (λ m. m ≡ reference triple.now listed.now) }
{
    Ok(MethodRef {
        class: triple.0.copy()?,
        name: triple.1.copy()?,
        proto: proto_copied(&listed.proto)?,
    })
}

#[tactic(auto, unfolding(crate::specs::Code::call_row))]
fn check_call(alloc: Global, dex: &Dex, at: &MethodRef, line: &(u32, Insn)) -> Result<(), Halt>
    ensures { Gives (λ x. x) result (call_row dex.now at.now line.now tt) }
{
    if !fits_call(alloc, dex, &line.1)? {
        let at = reference_copied(at)?;
        return Err(Stop::Fault(Fault::Code(at, CodeFault::Register(line.0))));
    }
    Ok(())
}

#[tactic(auto, unfolding(crate::specs::Code::calls_fit), using(vet_base::proofs::Eaches::each_begins, vet_base::proofs::Eaches::each_goes_on, vet_base::proofs::Eaches::each_fails, vet_base::proofs::Eaches::each_is_done))]
fn check_calls(alloc: Global, dex: &Dex, at: &MethodRef, lines: &[(u32, Insn)]) -> Result<(), Halt>
    ensures { Gives (λ x. x) result (calls_fit dex.now at.now lines.now) }
{
    for line in lines {
        check_call(alloc, dex, at, line)?;
    }
    Ok(())
}

/// The code decoded, or its fault with the method.
#[tactic(auto, using(crate::proofs::Blamed::code_runs, crate::proofs::Blamed::fault_runs))]
fn decoded_of(alloc: Global, dex: &Dex, code: &RawCode, at: &MethodRef) -> Result<Decoded, Halt>
    requires units { length code.now.units < 2 ^ 32 }
    requires tries { length code.now.tries < 2 ^ 32 }
    ensures { Gives (λ d. d) result (blamed (faults.Code at.now) (decoding code.now (counts_of dex.now))) }
{
    code_laws();
    match decode(alloc, code, &counts_at(dex)) {
        Ok(decoded) => Ok(decoded),
        Err(CodeFault::Memory) => Err(Stop::Memory),
        Err(fault) => {
            let at = reference_copied(at)?;
            Err(Stop::Fault(Fault::Code(at, fault)))
        }
    }
}

#[tactic(auto, unfolding(crate::specs::Code::tested), using(vet_base::proofs::Scripts::run_bind))]
fn test_code(
    alloc: Global,
    at: &MethodRef,
    is_static: bool,
    dex: &Dex,
    code: &RawCode,
) -> Result<Decoded, Halt>
    requires units { length code.now.units < 2 ^ 32 }
    requires tries { length code.now.tries < 2 ^ 32 }
    ensures { Gives (λ d. d) result (tested at.now is_static dex.now code.now) }
{
    let decoded = decoded_of(alloc, dex, code, at)?;
    if !takes(is_static, &at.proto, code.ins as usize) {
        let at = reference_copied(at)?;
        return Err(Stop::Fault(Fault::Code(at, CodeFault::Register(0))));
    }
    check_calls(alloc, dex, at, decoded.lines.as_slice())?;
    Ok(decoded)
}

/// One more method with code.
#[tactic(auto, unfolding(crate::specs::Code::one_code), using(vet_base::proofs::Scripts::run_bind))]
fn add_code(
    alloc: Global,
    at: MethodRef,
    listed: &Listed,
    dex: &Dex,
    code: &RawCode,
    mut coded: Vec<Coded>,
) -> Result<Vec<Coded>, Halt>
    requires { ShortCode code.now }
    ensures { Gives (λ v. v.items) result (one_code at listed.now (Some (dex.now, code.now)) coded.items) }
{
    let decoded = test_code(alloc, &at, listed.is_static, dex, code)?;
    coded.push(Coded {
        at,
        is_static: listed.is_static,
        is_native: false,
        registers: code.registers,
        ins: code.ins,
        dex: listed.place.dex,
        decoded,
    })?;
    Ok(coded)
}

/// One more method, where it is native or has code.
#[tactic(auto, unfolding(crate::specs::Code::code_row, crate::specs::Code::one_code), using(crate::proofs::Blamed::short_at))]
fn add_row(
    alloc: Global,
    dexes: &[Dex],
    entry: &(Triple, Listed),
    mut coded: Vec<Coded>,
) -> Result<Vec<Coded>, Halt>
    requires { ShortCodes dexes.now }
    ensures { Gives (λ v. v.items) result (code_row dexes.now entry.now coded.items) }
{
    let listed = &entry.1;
    let at = reference_of(&entry.0, listed)?;
    if listed.is_native {
        coded.push(Coded {
            at,
            is_static: listed.is_static,
            is_native: true,
            registers: 0,
            ins: 0,
            dex: 0,
            decoded: Decoded {
                lines: Seq::new(alloc),
                tries: Shared::new(),
            },
        })?;
        return Ok(coded);
    }
    match find_code(dexes, &listed.place) {
        Some((dex, code)) => add_code(alloc, at, listed, dex, code, coded),
        None => Ok(coded),
    }
}

#[tactic(auto, unfolding(crate::specs::Code::all_codes), using(vet_base::proofs::Eaches::each_begins, vet_base::proofs::Eaches::each_goes_on, vet_base::proofs::Eaches::each_fails, vet_base::proofs::Eaches::each_is_done))]
fn add_rows(alloc: Global, dexes: &[Dex], entries: &[(Triple, Listed)]) -> Result<Vec<Coded>, Halt>
    requires { ShortCodes dexes.now }
    ensures { Gives (λ v. v.items) result (all_codes dexes.now entries.now) }
{
    let mut coded = Vec::new(alloc);
    for entry in entries {
        coded = add_row(alloc, dexes, entry, coded)?;
    }
    Ok(coded)
}

/// How many units the code of a method has.
#[tactic(auto, unfolding(crate::specs::Units::units_of))]
fn units_at(dexes: &[Dex], entry: &(Triple, Listed)) -> usize
    ensures { result ≡ units_of dexes.now entry.now }
{
    if entry.1.is_native {
        return 0;
    }
    match find_code(dexes, &entry.1.place) {
        Some((_, code)) => code.units.len(),
        None => 0,
    }
}

/// How many units the code of all methods has, in a count that stays at its largest.
#[tactic(auto, using(link_hierarchy::proofs::FoldsOn::onto_begins, link_hierarchy::proofs::FoldsOn::onto_goes_on, link_hierarchy::proofs::FoldsOn::onto_is_done, crate::proofs::Units::counted))]
fn count_units(dexes: &[Dex], entries: &[(Triple, Listed)]) -> u64
    ensures { result ≡ min (units_in dexes.now entries.now) 18446744073709551615 }
{
    let mut units: u64 = 0;
    for entry in entries {
        units = units.saturating_add(units_at(dexes, entry) as u64);
    }
    units
}

fn listed(alloc: Global, methods: Methods) -> Result<Vec<(Triple, Listed)>, Memory>
    ensures list { IfOk result (λ v. v.items ≡ methods.entries) }
    ensures order { IfOk result (λ v. IsStrictlySortedBy triple_order (keys_of v.items)) }
{
    let entries: Vec<(Triple, Listed)> = methods.into_iter().collect(alloc)?;
    Ok(entries)
}

/// The methods with code and the native ones, in order, or the first fault of their code.
pub fn codes_of(alloc: Global, dexes: &[Dex], methods: Methods) -> Result<Coding, Halt>
    requires codes { ShortCodes dexes.now }
    requires described { Described methods.entries }
    ensures value { Gives (λ c. c.methods.items) result (all_codes dexes.now methods.entries) }
    ensures units { IfOk result (λ c. c.units ≡ min (units_in dexes.now methods.entries) 18446744073709551615) }
    ensures fine { IfOk result (λ c. SoFar c.methods.items (units_in dexes.now methods.entries)) }
    ensures tested { IfOk result (λ c. Tested dexes.now c.methods.items) }
    ensures few { IfOk result (λ c. length c.methods.items ≤ length methods.entries) }
{
    code_laws();
    let entries = listed(alloc, methods)?;
    let methods = add_rows(alloc, dexes, &entries)?;
    Ok(Coding {
        methods,
        units: count_units(dexes, &entries),
    })
}
