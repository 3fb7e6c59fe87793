use app_index::LibraryIndex;
use app_machine::{App, Lists};
use event_index::EventIndex;

/// What does not change while a run is played.
#[derive(Drop)]
pub struct Ground<'a> {
    pub app: &'a App,
    pub lists: &'a Lists,
    /// That of the lists.
    pub library: LibraryIndex<'a>,
    /// That of both.
    pub events: EventIndex<'a>,
}
