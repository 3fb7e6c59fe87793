ghost use Rattle.std.specs.Prelude.{◌≡◌, IfOk};
ghost use Rattle.app_machine.specs.Sound.{SoundApp};
ghost use Rattle.app_index.specs.Readers.{readers_of};

use crate::gather::gather;
use app_machine::App;
use std::alloc::Global;
use std::marker::Model;
use vet_base::Memory;

/// A step that reads a static: the number of its method, and its address there in code units.
#[derive(Clone, Copy)]
pub struct Reader {
    pub method: u32,
    pub pc: u32,
}

/// An app, and for each of its statics the steps that read it. Contracts see the app.
#[derive(Drop)]
pub struct StaticReaders<'a> {
    app: &'a App,
    readers: Vec<Vec<Reader>>,
}

impl<'a> Model for StaticReaders<'a> {
    ghost use Rattle.app_machine.specs.declared.app.App.{App};
    ghost use Rattle.app_index.specs.Readers.{HasReaders};

    ghost Value = { App };

    ghost view = { λ x. x.app.now };

    ghost invariant = { λ x. HasReaders x.readers.items x.app.now };
}

impl<'a> StaticReaders<'a> {
    /// The index of the app, in time of its length, and in memory of its statics and of the steps
    /// that read them.
    pub fn of(alloc: Global, app: &'a App) -> Result<StaticReaders<'a>, Memory>
        requires { SoundApp app.now }
        ensures { IfOk result (λ readers. readers ≡ app.now) }
    {
        let readers = gather(alloc, app)?;
        Ok(StaticReaders { app, readers })
    }

    /// The app itself.
    pub fn app(&self) -> &App
        ensures { result.now ≡ self.now }
    {
        self.app
    }

    /// The steps that read the static, by method and then by address. It takes no memory.
    pub fn readers(&self, number: u32) -> &[Reader]
        ensures { result.now ≡ readers_of self.now number }
    {
        match self.readers.get(number as usize) {
            Some(readers) => readers.as_slice(),
            None => &[],
        }
    }
}
