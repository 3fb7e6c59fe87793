//! The look-ups in a linked app and in the lists. They take no memory.

mod above;
mod arrays;
mod class_walk;
mod classes;
mod descriptor;
mod equality;
mod events;
mod fields;
mod initialisers;
mod library;
mod life;
mod marks;
mod methods;
mod steps;
mod targets;
mod upward;

pub use above::{below, class_below};
pub use arrays::array_below;
pub use class_walk::{ClassWalk, classes_upward, next_class};
pub use classes::class_of;
pub use events::{
    CalledBack, ComponentEvent, callback, click, events_are_exact, handed_callback, is_application,
    life_event,
};
pub use initialisers::{
    InitialiserWalk, act_initialisers, component_initialisers, is_initialiser, next_initialiser,
};
pub use library::summary_of;
pub use life::event_rows;
pub use steps::step_at;
pub use targets::target;
pub use upward::{body_named, find_body, instance_key};
