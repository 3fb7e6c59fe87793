//! The look-ups in a linked app and in the lists of the library, over the machine's definitions. They
//! take no memory.
//!
//! The types of app and lists are those of `app_machine`, and can be named from here.
#![tactic(auto)]

mod answers;
mod lookups;

pub use answers::{EventRow, Target};
pub use app_machine::{
    Act, App, CallKind, Callback, Class, Component, Declaration, FallbackWord, Gives, Key, Kind,
    Layouts, LibClass, Lists, Manifest, Method, MethodRef, Proto, Step, Summary, SummaryId, Word,
};
pub use app_parts::{
    CallResult, SummaryView, class_initialised, copies, is_by_receiver, is_joined_from,
    is_position, is_put_from, is_put_into, is_reference, is_reflective, is_static_call, is_void,
    is_wide, key_named, names_register, parameter_type, place_at, position_at, put_at, put_count,
    result_of, sink, source, static_named, stores, writes,
};
pub use lookups::{
    CalledBack, ClassWalk, ComponentEvent, InitialiserWalk, act_initialisers, array_below, below,
    body_named, callback, class_below, class_of, classes_upward, click, component_initialisers,
    event_rows, events_are_exact, find_body, handed_callback, instance_key, is_application,
    is_initialiser, life_event, next_class, next_initialiser, step_at, summary_of, target,
};
