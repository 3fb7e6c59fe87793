ghost use Rattle.std.specs.Prelude.{◌≡◌, ◌<◌, IfSome, option_map};
ghost use Rattle.played_machine.specs.Drawing.{draw};
ghost use Rattle.runner_state.specs.Shown.{bytes_behind};

/// The bytes of a script that are left.
#[derive(Clone, Copy)]
pub struct Script<'a> {
    pub left: &'a [u8],
}

impl<'a> Script<'a> {
    /// Which of so many the next byte chooses, and the bytes behind it. None exactly where there is no byte.
    pub fn draw(self, count: usize) -> Option<(usize, Script<'a>)>
        requires { 0 < count }
        ensures drawn { option_map bytes_behind result ≡ draw count self.entry.left.now }
        ensures below { IfSome result (λ drawn. drawn.0 < count) }
    {
        match self.left.split_first() {
            Some((byte, left)) => Some((*byte as usize % count, Script { left })),
            None => None,
        }
    }
}
