ghost use Rattle.std.specs.Prelude.{◌≡◌, ◌≤◌, length, map, option_map, option_to_list};
ghost use Rattle.app_machine.specs.State.{World};
ghost use Rattle.app_model.specs.EventBodies.{shown_callback};
ghost use Rattle.played_machine.specs.Coming.{Initialiser};
ghost use Rattle.runner_choices.specs.Choices.{called_back, event_of};
ghost use Rattle.runner_choices.specs.Meeting.{MeetsAt};

use crate::choice::{Choice, Met};
use app_model::CalledBack;

/// How many events an event that may come or not is.
pub fn count_of(choice: Option<Choice<'_>>) -> usize
    ensures count { (w : World) → result ≡ length (option_to_list (option_map (event_of w) choice.entry)) }
    ensures few { result ≤ 1 }
{
    match choice {
        None => 0,
        Some(_) => 1,
    }
}

/// The event, where it may come and the index is 0.
pub fn met<'a>(choice: Option<Choice<'a>>, index: usize) -> Met<'a>
    ensures { (w : World) → MeetsAt w (option_to_list (option_map (event_of w) choice.entry)) index result }
{
    match choice {
        None => Met::Past(index),
        Some(choice) => {
            if index == 0 {
                Met::Here(choice)
            } else {
                Met::Past(index - 1)
            }
        }
    }
}

/// One of those that are called on the object at the place.
pub fn called_at<'a>(called: &[CalledBack<'a>], place: Option<u32>, index: usize) -> Met<'a>
    ensures { (w : World) → MeetsAt w (map (called_back w place) (map shown_callback called.now)) index result }
{
    if index < called.len() {
        let one = called[index];
        Met::Here(Choice::Called(place, one.sources, one.body))
    } else {
        Met::Past(index - called.len())
    }
}

/// One of the initialisers.
pub fn initialiser_at<'a>(bodies: &[u32], index: usize) -> Met<'a>
    ensures { (w : World) → MeetsAt w (map (λ body. Initialiser body) bodies.now) index result }
{
    if index < bodies.len() {
        Met::Here(Choice::Initialises(bodies[index]))
    } else {
        Met::Past(index - bodies.len())
    }
}
