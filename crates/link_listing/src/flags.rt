//! Access flags.

ghost use Rattle.std.specs.Prelude.{◌≡◌};
ghost use Rattle.link_listing.specs.Flags.{is_interface, is_native, is_static};

#[tactic(auto, unfolding(crate::specs::Flags::is_static))]
pub fn says_static(flags: u32) -> bool
    ensures { result ≡ is_static flags }
{
    flags / 0x8 % 2 == 1
}

#[tactic(auto, unfolding(crate::specs::Flags::is_native))]
pub fn says_native(flags: u32) -> bool
    ensures { result ≡ is_native flags }
{
    flags / 0x100 % 2 == 1
}

#[tactic(auto, unfolding(crate::specs::Flags::is_interface))]
pub fn says_interface(flags: u32) -> bool
    ensures { result ≡ is_interface flags }
{
    flags / 0x200 % 2 == 1
}
