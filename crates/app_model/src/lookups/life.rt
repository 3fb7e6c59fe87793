ghost use Rattle.std.specs.Prelude.{◌≡◌, map};
ghost use Rattle.app_machine.specs.LifeEvents.{life_events};
ghost use Rattle.app_model.specs.EventTable.{shown_event};

use crate::{EventRow, Kind};

/// The events in the life of a component of the kind. The state 0 is absent and 1 is made; the
/// numbers of the others are those of `LifeEvents` in the specifications.
#[tactic(auto, unfolding(app_machine::specs::LifeEvents::life_events))]
pub fn event_rows(kind: Kind) -> &'static [EventRow]
    ensures { map shown_event result.now ≡ life_events kind }
{
    match kind {
        Kind::Application => &APPLICATION,
        Kind::Activity => &ACTIVITY,
        Kind::Service => &SERVICE,
        Kind::Receiver => &RECEIVER,
    }
}

macro_rules! row {
    ($from:literal, $name:literal, $proto:literal, $to:literal) => {
        EventRow {
            from: $from,
            name: $name,
            proto: $proto,
            to: $to,
        }
    };
}

static APPLICATION: [EventRow; 2] = [row!(0, "<init>", "()V", 1), row!(1, "onCreate", "()V", 2)];

static ACTIVITY: [EventRow; 12] = [
    row!(0, "<init>", "()V", 1),
    row!(1, "onCreate", "(Landroid/os/Bundle;)V", 2),
    row!(2, "onStart", "()V", 3),
    row!(3, "onResume", "()V", 4),
    row!(3, "onStop", "()V", 6),
    row!(4, "onPause", "()V", 5),
    row!(5, "onResume", "()V", 4),
    row!(5, "onStop", "()V", 6),
    row!(6, "onRestart", "()V", 7),
    row!(7, "onStart", "()V", 3),
    row!(6, "onDestroy", "()V", 0),
    row!(2, "onDestroy", "()V", 0),
];

static SERVICE: [EventRow; 7] = [
    row!(0, "<init>", "()V", 1),
    row!(1, "onCreate", "()V", 2),
    row!(2, "onStartCommand", "(Landroid/content/Intent;II)I", 2),
    row!(
        2,
        "onBind",
        "(Landroid/content/Intent;)Landroid/os/IBinder;",
        2
    ),
    row!(2, "onUnbind", "(Landroid/content/Intent;)Z", 2),
    row!(2, "onRebind", "(Landroid/content/Intent;)V", 2),
    row!(2, "onDestroy", "()V", 0),
];

static RECEIVER: [EventRow; 2] = [
    row!(0, "<init>", "()V", 1),
    row!(
        1,
        "onReceive",
        "(Landroid/content/Context;Landroid/content/Intent;)V",
        0
    ),
];
