ghost use Rattle.std.specs.Prelude.{IfSome};
ghost use Rattle.app_machine.specs.Sound.{SoundApp};

use app_machine::App;
use form_texts::{ListsText, ManifestText};
use made_apps::{declaration_text, layouts_text, lists_text, made_dex, manifest_text};
use register_readers::RegisterReaders;
use std::alloc::Global;
use std::test::Fail;
use verdict::{Linked, Parts, linked_parts};
use vet_base::{Memory, Seq, Shared};

fn listed(alloc: Global, text: &[u8]) -> Result<Shared<u8>, Memory> {
    Shared::from_vec(alloc, text.to_vec(alloc)?)
}

/// The one file of a generated app with three drawn methods.
fn made_files(alloc: Global) -> Result<Seq<Shared<u8>>, Memory> {
    let bytes = made_dex(alloc, 7, 3)?;
    let mut dex = Vec::new(alloc);
    dex.push(Shared::from_vec(alloc, bytes)?)?;
    Ok(Seq::from_vec(dex))
}

/// The parts of that app.
fn made_parts(alloc: Global) -> Result<Parts, Memory> {
    Ok(Parts {
        manifest: ManifestText::new(listed(alloc, manifest_text())?),
        layouts: listed(alloc, layouts_text())?,
        declaration: listed(alloc, declaration_text())?,
        lists: ListsText::new(listed(alloc, lists_text())?),
        dex: made_files(alloc)?,
    })
}

fn made_app(alloc: Global) -> Option<Linked>
    ensures { IfSome result (λ linked. SoundApp linked.app) }
{
    let parts = made_parts(alloc).ok()?;
    match linked_parts(alloc, &parts) {
        Ok(linked) => Some(linked),
        Err(_) => None,
    }
}

/// The number of the longest method.
fn longest(app: &App) -> u32 {
    let mut most = 0;
    let mut found = 0;
    let mut number = 0u32;
    for method in app.methods.as_slice() {
        if method.steps.len() > most {
            most = method.steps.len();
            found = number;
        }
        number = number.wrapping_add(1);
    }
    found
}

/// Whether just these read the register from the address of the method.
fn are_read(readers: &RegisterReaders<'_>, method: u32, place: (u32, u32), wanted: &[u32]) -> bool {
    readers.readers(method, place.0, place.1) == wanted
}

/// Whether the registers of the longest method are read as they should.
fn look_of(alloc: Global, app: &App) -> Option<[bool; 4]>
    requires { SoundApp app.now }
{
    let readers = RegisterReaders::of(alloc, app).ok()?;
    let main = longest(app);
    Some([
        are_read(&readers, main, (0, 4), &[4, 11, 18]),
        are_read(&readers, main, (1, 8), &[8]),
        are_read(&readers, main, (1, 15), &[15]),
        are_read(&readers, main, (1, 22), &[22]),
    ])
}

/// The same of the generated app, which is dropped.
fn look_of_made(alloc: Global) -> Option<[bool; 4]> {
    let linked = made_app(alloc)?;
    look_of(alloc, &linked.app)
}

/// `onCreate` has the device's id in v0 from 4 on: `invoke-static` takes three code units and `move-result-object` one, and
/// each of three calls of a drawn method is seven units behind the one before. Their results are in v1 until the next.
#[test]
fn the_id_is_read_by_each_call(rt: HostRuntime) -> Result<(), Fail> {
    assert_eq!(rt; look_of_made(rt.alloc()), Some([true, true, true, true]));
    Ok(())
}
