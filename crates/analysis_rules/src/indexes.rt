//! What the rules ask at each row, made once.
ghost use Rattle.std.specs.Prelude.{◌≡◌, IfOk};
ghost use Rattle.app_machine.specs.Sound.{SoundApp};
ghost use Rattle.app_machine.specs.SoundLists.{SoundLists};
ghost use Rattle.analysis_rules.specs.Indexed.{AreIndexes, AreRead, analysis_with};
ghost use Rattle.analysis_rules.specs.Ruled.{IsReady, analysis_of, app_of, lists_of};

use crate::rules::AnalysisRules;
use app_index::{LibraryIndex, StaticReaders};
use app_machine::{App, Lists};
use app_rules::AppRules;
use cell_app_rules::CellAppRules;
use event_index::EventIndex;
use flow_analyses::Analysis;
use register_readers::RegisterReaders;
use std::alloc::Global;
use vet_base::Memory;

/// The indexes of an app and of the lists.
#[derive(Drop)]
pub struct AppIndexes<'a> {
    pub app: StaticReaders<'a>,
    pub lists: LibraryIndex<'a>,
    pub events: EventIndex<'a>,
    /// Where registers are read. The second analysis alone asks it.
    pub readers: Option<RegisterReaders<'a>>,
}

/// Where the registers of the app are read, where the analysis asks it.
fn readers_for<'a>(
    alloc: Global,
    analysis: Analysis,
    app: &'a App,
) -> Result<Option<RegisterReaders<'a>>, Memory>
    requires { SoundApp app.now }
    ensures analysis { IfOk result (λ readers. analysis_with readers ≡ analysis) }
    ensures read { IfOk result (λ readers. AreRead app.now readers) }
{
    match analysis {
        Analysis::Paths => Ok(None),
        Analysis::Cells => {
            let readers = RegisterReaders::of(alloc, app)?;
            Ok(Some(readers))
        }
    }
}

impl<'a> AppIndexes<'a> {
    /// The indexes that the analysis asks.
    #[tactic(auto, using(crate::proofs::Indexing::are_indexes))]
    pub fn of(
        alloc: Global,
        analysis: Analysis,
        app: &'a App,
        lists: &'a Lists,
    ) -> Result<AppIndexes<'a>, Memory>
        requires app { SoundApp app.now }
        requires lists { SoundLists lists.now }
        ensures analysis { IfOk result (λ indexes. analysis_with indexes.readers ≡ analysis) }
        ensures app { IfOk result (λ indexes. indexes.app ≡ app.now) }
        ensures lists { IfOk result (λ indexes. indexes.lists ≡ lists.now) }
        ensures indexes { IfOk result AreIndexes }
    {
        let readers = readers_for(alloc, analysis, app)?;
        let statics = StaticReaders::of(alloc, app)?;
        let library = LibraryIndex::of(alloc, lists)?;
        let events = EventIndex::of(alloc, app, lists)?;
        Ok(AppIndexes {
            app: statics,
            lists: library,
            events,
            readers,
        })
    }

    /// The rules of the analysis.
    pub fn rules(&self) -> AnalysisRules<'_>
        requires { AreIndexes self.now }
        ensures analysis { analysis_of result ≡ analysis_with self.now.readers }
        ensures app { app_of result ≡ self.now.app }
        ensures lists { lists_of result ≡ self.now.lists }
        ensures ready { IsReady result }
    {
        match &self.readers {
            None => AnalysisRules::Paths(AppRules::new(&self.app, &self.lists, &self.events)),
            Some(readers) => AnalysisRules::Cells(CellAppRules::new(
                &self.app,
                &self.lists,
                &self.events,
                readers,
            )),
        }
    }
}
