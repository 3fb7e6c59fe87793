//! Small facts that show that the machine's definitions mean what they should. Each is a theorem
//! over the definitions alone, so that a slip in a definition shows.
#![tactic(auto)]

ghost use Rattle.machine_witness.specs.Results.{EachResultComes, ClassesStandBelow};
ghost use Rattle.machine_witness.specs.Standing.{StandsWhereNothingIsKnown, InitialisersComeFirst};
ghost use Rattle.machine_witness.specs.Witnesses.{
  StrongUpdateForgets,
  ElementsStay,
  RaisesGoToHandlers,
  RaisesGoToCallers,
  RaisesGoNowhereElse,
  AbsentComponentsAreOnlyBorn,
  OthersWaitForTheApplication,
  HandedObjectsAreCalledBack,
};
ghost use Rattle.machine_witness.specs.Acts.{ActsStep};
ghost use Rattle.machine_witness.specs.Ends.{ClearSiblingGoesOn, NativeIsReached, NotSafe};
ghost use Rattle.machine_witness.specs.Frames.{FramesStep};
ghost use Rattle.machine_witness.specs.Flows.{
  FlowsWithinOnCreate,
  FlowsByOtherMethods,
  FlowsThroughTheLibrary,
  FlowsFromEventToEvent,
};
ghost use Rattle.machine_witness.specs.Apps.{StandsAtNative, Leaks, ClearSiblingNeverArrives, CallsGoUpward};

/// After a put under a field's key no other value stands under it.
pub fn a_strong_update_forgets()
    ensures { StrongUpdateForgets }
{}

/// A put of an element leaves the elements that were there.
pub fn an_element_put_forgets_nothing()
    ensures { ElementsStay }
{}

/// A raised value goes to a handler that covers the instruction, in EXC.
pub fn a_raise_goes_to_the_handler()
    ensures { RaisesGoToHandlers }
{}

/// It also goes out of the method, to a handler of the caller.
pub fn a_raise_goes_to_the_caller()
    ensures { RaisesGoToCallers }
{}

/// Where no handler covers the instruction, it goes to the caller.
pub fn a_raise_without_handler_leaves()
    ensures { RaisesGoNowhereElse }
{}

/// Where every component is absent and nothing was handed, only a birth can come: callbacks and
/// clicks come only while their component lives.
pub fn callbacks_come_only_to_the_living()
    ensures { AbsentComponentsAreOnlyBorn }
{}

/// Until the application was created, every other component stays absent, and its class is not initialised.
pub fn others_wait_for_the_application()
    ensures { OthersWaitForTheApplication }
{}

/// An object that was handed may be called back, as the receiver.
pub fn a_handed_object_is_called_back()
    ensures { HandedObjectsAreCalledBack }
{}

/// A super call goes by the caller's class, a virtual call by the receiver's, and both find an inherited body.
pub fn calls_go_upward()
    ensures { CallsGoUpward }
{}

/// A state stands at a call of a native method.
pub fn a_state_stands_at_a_native_body()
    ensures { StandsAtNative }
{}

/// Some run of the one-activity app brings the source's label to the sink.
pub fn the_small_app_leaks()
    ensures { Leaks }
{}

/// Its sibling overwrites the value first, and no run of it brings any label to any sink.
pub fn no_run_of_its_clear_sibling_arrives()
    ensures { ClearSiblingNeverArrives }
{}

/// Each act does its step, from any world and registers.
pub fn each_act_does_its_step()
    ensures { ActsStep }
{}

/// A label arrives through a static, as one of the library, through a field, an element, a filled
/// array and the size of an array.
pub fn labels_flow_within_a_method()
    ensures { FlowsWithinOnCreate }
{}

/// A label arrives as the result of a method, as what it throws, and through an initialiser.
pub fn labels_flow_through_other_methods()
    ensures { FlowsByOtherMethods }
{}

/// A label arrives through a put, a copy and a store of the library, in an object that it gives back, and by a
/// put of a call that then raises.
pub fn labels_flow_through_the_library()
    ensures { FlowsThroughTheLibrary }
{}

/// A label arrives by a callback, from a method to a click, with a fresh and a handed parameter, and
/// from the application to an activity.
pub fn labels_flow_from_event_to_event()
    ensures { FlowsFromEventToEvent }
{}

/// A run of the sibling that is clear comes past the call of the sink.
pub fn the_clear_sibling_goes_on()
    ensures { ClearSiblingGoesOn }
{}

/// A run comes to the call of a native method and stands there.
pub fn a_native_body_is_reached()
    ensures { NativeIsReached }
{}

/// The app that leaks is not safe where nothing is declared, and the one with a native method never.
pub fn leaking_apps_are_not_safe()
    ensures { NotSafe }
{}

/// Calls, returns, ends, throws, raises and initialisers each do their step, from any world and registers.
pub fn frames_come_and_go()
    ensures { FramesStep }
{}

/// A library call gives a blank, an argument, a new labelled object or one that the library has, and no
/// other, and goes by the name where the receiver has no place.
pub fn each_result_of_the_library_comes()
    ensures { EachResultComes }
{}

/// A class is below itself, `Object`, what it extends and what the lists have above it; an array is
/// below `Cloneable` and below an array of what its elements are below, where they are no numbers.
pub fn classes_stand_below_their_types()
    ensures { ClassesStandBelow }
{}

/// A state stands at a call without a row, at a reflective one, and before a native initialiser or event.
pub fn a_state_stands_where_nothing_is_known()
    ensures { StandsWhereNothingIsKnown }
{}

/// The class of a component may be initialised before the component is made, and an event whose
/// body is native passes.
pub fn an_initialiser_comes_first()
    ensures { InitialisersComeFirst }
{}
