//! Small facts that show how the lists, the office file and a developer's file are read, from whole trees
//! of TOML. Each is a theorem over the definitions that the clauses of their readers name, so that a
//! reader which answers otherwise is refused.
#![tactic(auto)]

ghost use Rattle.lists_witness.specs.ClientFacts.{ClientIsRead};
ghost use Rattle.lists_witness.specs.DeviceFacts.{DeviceIsRead};
ghost use Rattle.lists_witness.specs.LargeFacts.{LargeIsRead};
ghost use Rattle.lists_witness.specs.ListFacts.{ListsAreRead};
ghost use Rattle.lists_witness.specs.OfficeFacts.{OfficeIsRead};

/// Names and categories keep to their spellings, a default is the one that its word says, a type is
/// tested before a range, and rows before what stands twice.
pub fn the_lists_are_read()
    ensures { ListsAreRead }
{}

/// Beginnings of names are spelled as such and stand once in both lists together, the lists are strict where they
/// say so, and a static field stands once and has a type.
pub fn the_device_is_read()
    ensures { DeviceIsRead }
{}

/// For large apps there is one word, or none: any other text, and what is no text, is wrong. It is tested behind the
/// static fields and before the tables of the arrays.
pub fn the_large_word_is_read()
    ensures { LargeIsRead }
{}

/// No port is 0, a role is the one that its word says, and a token that stands twice is told by the
/// name of its party; and a developer's file has a port, a token without spaces and few tries.
pub fn the_office_is_read()
    ensures { OfficeIsRead × ClientIsRead }
{}
