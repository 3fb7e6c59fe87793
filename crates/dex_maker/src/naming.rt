ghost use Rattle.std.specs.Prelude.{◌≡◌, OnOk, IfOk};
ghost use Rattle.dex_maker.specs.Naming.{with_fields, with_methods, with_superclass, with_class, with_classes};
ghost use Rattle.dex_maker.specs.Naming.{with_operand, with_line, with_lines, with_handlers, with_tries};
ghost use Rattle.dex_maker.specs.Naming.{with_code, with_bodies, with_all_bodies, tables_of};

use crate::listing::{
    ListedClass, ListedCode, ListedField, ListedLine, ListedMethod, ListedTry, Listing, Operand,
};
use dex_writer::Tables;
use std::alloc::Global;
use vet_base::{Memory, Name};

fn name_fields(
    alloc: Global,
    tables: &mut Tables,
    class: &Name,
    fields: &[ListedField],
) -> Result<(), Memory>
    ensures { OnOk result (tables.new ≡ with_fields tables.old class.now fields.now) }
{
    for field in fields {
        tables.push_field(alloc, class, &field.name, &field.kind)?;
    }
    Ok(())
}

fn name_methods(
    alloc: Global,
    tables: &mut Tables,
    class: &Name,
    methods: &[ListedMethod],
) -> Result<(), Memory>
    ensures { OnOk result (tables.new ≡ with_methods tables.old class.now methods.now) }
{
    for method in methods {
        let params = method.params.as_slice();
        tables.push_method(alloc, class, &method.name, params, &method.ret)?;
    }
    Ok(())
}

fn name_superclass(tables: &mut Tables, superclass: &Option<Name>) -> Result<(), Memory>
    ensures { OnOk result (tables.new ≡ with_superclass tables.old superclass.now) }
{
    match superclass {
        None => Ok(()),
        Some(name) => tables.add_type(name),
    }
}

#[tactic(auto, unfolding(crate::specs::Naming::with_class))]
fn name_class(alloc: Global, tables: &mut Tables, class: &ListedClass) -> Result<(), Memory>
    ensures { OnOk result (tables.new ≡ with_class tables.old class.now) }
{
    tables.add_type(&class.name)?;
    name_superclass(tables, &class.superclass)?;
    tables.add_types(class.interfaces.as_slice())?;
    name_fields(alloc, tables, &class.name, class.fields.as_slice())?;
    name_methods(alloc, tables, &class.name, class.methods.as_slice())
}

fn name_classes(alloc: Global, tables: &mut Tables, classes: &[ListedClass]) -> Result<(), Memory>
    ensures { OnOk result (tables.new ≡ with_classes tables.old classes.now) }
{
    for class in classes {
        name_class(alloc, tables, class)?;
    }
    Ok(())
}

fn name_operand(alloc: Global, tables: &mut Tables, operand: &Operand) -> Result<(), Memory>
    ensures { OnOk result (tables.new ≡ with_operand tables.old operand.now) }
{
    match operand {
        Operand::Nothing => Ok(()),
        Operand::Text(text) => tables.add_string(text),
        Operand::Class(class) => tables.add_type(class),
        Operand::Field(class, name, kind) => tables.add_field(alloc, class, name, kind),
        Operand::Method(class, name, params, ret) => {
            tables.add_method(alloc, class, name, params.as_slice(), ret)
        }
    }
}

fn name_line(alloc: Global, tables: &mut Tables, line: &ListedLine) -> Result<(), Memory>
    ensures { OnOk result (tables.new ≡ with_line tables.old line.now) }
{
    match line {
        ListedLine::Plain(_, _, _, operand, _) => name_operand(alloc, tables, operand),
        ListedLine::Packed(_, _, _) | ListedLine::Sparse(_, _) | ListedLine::Filled(_, _) => Ok(()),
    }
}

fn name_lines(alloc: Global, tables: &mut Tables, lines: &[ListedLine]) -> Result<(), Memory>
    ensures { OnOk result (tables.new ≡ with_lines tables.old lines.now) }
{
    for line in lines {
        name_line(alloc, tables, line)?;
    }
    Ok(())
}

fn name_handlers(tables: &mut Tables, handlers: &[(Name, u32)]) -> Result<(), Memory>
    ensures { OnOk result (tables.new ≡ with_handlers tables.old handlers.now) }
{
    for handler in handlers {
        tables.add_type(&handler.0)?;
    }
    Ok(())
}

fn name_tries(tables: &mut Tables, tries: &[ListedTry]) -> Result<(), Memory>
    ensures { OnOk result (tables.new ≡ with_tries tables.old tries.now) }
{
    for item in tries {
        name_handlers(tables, item.handlers.as_slice())?;
    }
    Ok(())
}

fn name_code(alloc: Global, tables: &mut Tables, code: &Option<ListedCode>) -> Result<(), Memory>
    ensures { OnOk result (tables.new ≡ with_code tables.old code.now) }
{
    let Some(code) = code else { return Ok(()) };
    name_lines(alloc, tables, code.lines.as_slice())?;
    name_tries(tables, code.tries.as_slice())
}

fn name_bodies(alloc: Global, tables: &mut Tables, methods: &[ListedMethod]) -> Result<(), Memory>
    ensures { OnOk result (tables.new ≡ with_bodies tables.old methods.now) }
{
    for method in methods {
        name_code(alloc, tables, &method.code)?;
    }
    Ok(())
}

fn name_all_bodies(
    alloc: Global,
    tables: &mut Tables,
    classes: &[ListedClass],
) -> Result<(), Memory>
    ensures { OnOk result (tables.new ≡ with_all_bodies tables.old classes.now) }
{
    for class in classes {
        name_bodies(alloc, tables, class.methods.as_slice())?;
    }
    Ok(())
}

/// The id tables of a listing: first what its classes and their
/// members name, in its order, and then what its code names.
#[tactic(auto, unfolding(crate::specs::Naming::tables_of))]
pub fn tables_of(alloc: Global, listing: &Listing) -> Result<Tables, Memory>
    ensures { IfOk result (λ t. t ≡ tables_of listing.now) }
{
    let mut tables = Tables::new(alloc);
    name_classes(alloc, &mut tables, listing.classes.as_slice())?;
    name_all_bodies(alloc, &mut tables, listing.classes.as_slice())?;
    Ok(tables)
}
