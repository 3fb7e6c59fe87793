ghost use Rattle.std.specs.Prelude.{◌≡◌, ◌++◌, IfOk, OnOk};
ghost use Rattle.app_machine.specs.Sound.{SoundApp};
ghost use Rattle.event_index.specs.Comings.{coming_of, comings};

use event_index::{Coming, EventIndex};
use std::alloc::Global;
use vet_base::{Memory, Name};

/// The callbacks that come to objects of the class, by their rows.
pub fn comings_to(alloc: Global, index: &EventIndex, class: &Name) -> Result<Vec<Coming>, Memory>
    requires { SoundApp index.now.0 }
    ensures { IfOk result (λ own. own.items ≡ comings index.now.0 index.now.1 class.now) }
{
    match index.comings(class) {
        Some(listed) => listed_of(alloc, listed),
        None => asked_of(alloc, index, class),
    }
}

fn listed_of(alloc: Global, listed: &[Coming]) -> Result<Vec<Coming>, Memory>
    ensures { IfOk result (λ own. own.items ≡ listed.now) }
{
    let own = Vec::from_slice(alloc, listed)?;
    Ok(own)
}

/// The same where each row has to be asked.
fn asked_of(alloc: Global, index: &EventIndex, class: &Name) -> Result<Vec<Coming>, Memory>
    requires { SoundApp index.now.0 }
    ensures { IfOk result (λ own. own.items ≡ comings index.now.0 index.now.1 class.now) }
{
    let mut own = Vec::new(alloc);
    for row in 0..index.callback_count() {
        add(&mut own, row, index.called(class, row))?;
    }
    Ok(own)
}

/// Adds the row with its body, where it has one.
fn add(own: &mut Vec<Coming>, row: u32, found: Option<u32>) -> Result<(), Memory>
    ensures { OnOk result (own.new.items ≡ own.old.items ++ coming_of row found) }
{
    match found {
        None => Ok(()),
        Some(body) => {
            own.push(Coming { row, body })?;
            Ok(())
        }
    }
}
