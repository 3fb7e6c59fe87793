//! Access flags.

ghost use Rattle.std.specs.Prelude.{◌≡◌};
ghost use Rattle.link_listing.specs.Flags.{is_interface, is_native, is_static};
ghost use Rattle.link_access.specs.Flags.{is_open, is_private};

#[tactic(auto, unfolding(link_listing::specs::Flags::is_static))]
pub fn says_static(flags: u32) -> bool
    ensures { result ≡ is_static flags }
{
    flags / 0x8 % 2 == 1
}

#[tactic(auto, unfolding(link_listing::specs::Flags::is_native))]
pub fn says_native(flags: u32) -> bool
    ensures { result ≡ is_native flags }
{
    flags / 0x100 % 2 == 1
}

#[tactic(auto, unfolding(link_listing::specs::Flags::is_interface))]
pub fn says_interface(flags: u32) -> bool
    ensures { result ≡ is_interface flags }
{
    flags / 0x200 % 2 == 1
}

#[tactic(auto, unfolding(crate::specs::Flags::is_private))]
pub fn says_private(flags: u32) -> bool
    ensures { result ≡ is_private flags }
{
    flags / 0x2 % 2 == 1
}

/// Whether they say public or protected.
#[tactic(auto, unfolding(crate::specs::Flags::is_open))]
pub fn says_open(flags: u32) -> bool
    ensures { result ≡ is_open flags }
{
    flags / 0x1 % 2 == 1 || flags / 0x4 % 2 == 1
}
