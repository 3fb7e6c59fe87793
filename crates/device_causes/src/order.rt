//! An order in which classes follow their superclasses.

ghost use Rattle.app_machine.specs.Sound.{SoundApp};

use app_machine::{App, Class};
use app_model::class_of;
use std::alloc::Global;
use std::collections::BTreeMap;
use vet_base::{Memory, Name};

/// The numbers of the classes directly below others, by the names of those.
type Below = BTreeMap<Name, Vec<usize>>;

fn add_below(alloc: Global, below: &mut Below, name: &Name, i: usize) -> Result<(), Memory> {
    if let Some(numbers) = below.get_mut(name) {
        numbers.push(i)?;
        return Ok(());
    }
    let mut numbers = Vec::new(alloc);
    numbers.push(i)?;
    below.insert(name.copy()?, numbers)?;
    Ok(())
}

/// Puts the class behind others of its superclass, or behind the uppermost ones.
fn place(
    alloc: Global,
    app: &App,
    class: &Class,
    i: usize,
    below: &mut Below,
    first: &mut Vec<usize>,
) -> Result<(), Memory>
    requires { SoundApp app.now }
{
    if let Some(name) = &class.superclass {
        if class_of(app, name.as_bytes()).is_some() {
            return add_below(alloc, below, name, i);
        }
    }
    first.push(i)?;
    Ok(())
}

/// Puts the numbers of the classes directly below the class behind the others.
fn add_lower(app: &App, below: &Below, i: usize, waiting: &mut Vec<usize>) -> Result<(), Memory> {
    let Some(class) = app.classes.get(i) else {
        return Ok(());
    };
    if let Some(numbers) = below.get(&class.name) {
        for number in numbers {
            waiting.push(*number)?;
        }
    }
    Ok(())
}

/// The numbers of the app's classes, in an order in which each class follows its superclass, and what is below a class
/// stands together. Nobody relies on it: in another order only the way from class to class takes longer.
pub fn downward(alloc: Global, app: &App) -> Result<Vec<usize>, Memory>
    requires { SoundApp app.now }
{
    let mut below = BTreeMap::new(alloc);
    let mut waiting = Vec::new(alloc);
    for i in 0..app.classes.len() {
        if let Some(class) = app.classes.get(i) {
            place(alloc, app, class, i, &mut below, &mut waiting)?;
        }
    }
    let mut order = Vec::new(alloc);
    for _ in 0..app.classes.len() {
        let Some(i) = waiting.pop() else {
            return Ok(order);
        };
        order.push(i)?;
        add_lower(app, &below, i, &mut waiting)?;
    }
    Ok(order)
}
