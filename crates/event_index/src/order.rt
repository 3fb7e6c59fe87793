//! In which order the rows of classes are made: those above a class before it, which takes time near
//! linear in classes and interfaces. No proof rests on this: a class whose turn comes too early has
//! no row, and is asked for without one.
ghost use Rattle.app_machine.specs.Sound.{SoundApp};

use crate::names::number_of;
use app_machine::{App, Class};
use std::alloc::Global;
use vet_base::{Memory, Name};

/// How far one is with a class.
#[derive(Clone, Copy)]
enum Turn {
    New,
    Begun,
    Done,
}

/// Those of the names that are classes of the app and new come to the ones that are open.
fn open_each(app: &App, names: &[Name], turns: &[Turn], open: &mut Vec<usize>) -> Result<(), Memory>
    requires { SoundApp app.now }
{
    for name in names {
        if let Some(number) = number_of(app, name.as_bytes()) {
            if let Some(Turn::New) = turns.get(number) {
                open.push(number)?;
            }
        }
    }
    Ok(())
}

/// The class comes again, once those above it are done.
fn begin(
    app: &App,
    number: usize,
    class: &Class,
    turns: &[Turn],
    open: &mut Vec<usize>,
) -> Result<(), Memory>
    requires { SoundApp app.now }
{
    open.push(number)?;
    open_each(app, class.superclass.as_slice(), turns, open)?;
    open_each(app, class.interfaces.as_slice(), turns, open)
}

/// What is due to the class of this number now.
fn visit(
    app: &App,
    number: usize,
    turns: &mut [Turn],
    open: &mut Vec<usize>,
    order: &mut Vec<usize>,
) -> Result<(), Memory>
    requires { SoundApp app.now }
{
    let (Some(turn), Some(class)) = (turns.get(number).copied(), app.classes.get(number)) else {
        return Ok(());
    };
    match turn {
        Turn::New => {
            set(turns, number, Turn::Begun);
            begin(app, number, class, turns, open)
        }
        Turn::Begun => {
            set(turns, number, Turn::Done);
            order.push(number)?;
            Ok(())
        }
        Turn::Done => Ok(()),
    }
}

fn set(turns: &mut [Turn], number: usize, turn: Turn) {
    if number < turns.len() {
        turns[number] = turn;
    }
}

/// All that is open is done.
fn finish(
    app: &App,
    turns: &mut [Turn],
    open: &mut Vec<usize>,
    order: &mut Vec<usize>,
) -> Result<(), Memory>
    requires { SoundApp app.now }
{
    for _ in 0..u64::MAX {
        let Some(number) = open.pop() else {
            break;
        };
        visit(app, number, turns, open, order)?;
    }
    Ok(())
}

/// The numbers of the app's classes, those above a class before it.
pub fn order_of(alloc: Global, app: &App) -> Result<Vec<usize>, Memory>
    requires { SoundApp app.now }
{
    let mut turns = vec![in alloc; Turn::New; app.classes.len()]?;
    let mut open = Vec::new(alloc);
    let mut order = Vec::new(alloc);
    for number in 0..app.classes.len() {
        open.push(number)?;
        finish(app, &mut turns, &mut open, &mut order)?;
    }
    Ok(order)
}

/// How many classes of the app are upward of each along superclasses, itself among them.
pub fn depths_of(alloc: Global, app: &App, order: &[usize]) -> Result<Vec<u64>, Memory>
    requires { SoundApp app.now }
{
    let mut depths = vec![in alloc; 1; app.classes.len()]?;
    for number in order {
        let depth = depth_of(app, *number, &depths);
        if *number < depths.len() {
            depths[*number] = depth;
        }
    }
    Ok(depths)
}

/// One more than that of its superclass.
fn depth_of(app: &App, number: usize, depths: &[u64]) -> u64
    requires { SoundApp app.now }
{
    let Some(class) = app.classes.get(number) else {
        return 1;
    };
    let Some(superclass) = &class.superclass else {
        return 1;
    };
    let Some(above) = number_of(app, superclass.as_bytes()) else {
        return 1;
    };
    depths.get(above).copied().unwrap_or(0).saturating_add(1)
}
