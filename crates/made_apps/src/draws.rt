ghost use Rattle.std.specs.Prelude.{◌≡◌, ◌<◌, ◌≤◌};
ghost use Rattle.made_apps.specs.Draws.{next_state, drawn, body_drawn, state_behind};

use crate::body::Body;

const MODULUS: u64 = 2147483648;

/// Draws from a linear congruential generator modulo 2^31.
#[derive(Drop)]
pub struct Draws {
    pub state: u32,
    ghost in_range: { state < 2147483648 },
}

impl Draws {
    /// The draws that follow a seed.
    pub fn from_seed(seed: u32) -> Draws
        requires { seed < 2147483648 }
        ensures { result.state ≡ seed }
    {
        Draws { state: seed }
    }

    /// A number below `below`.
    #[tactic(auto, unfolding(crate::specs::Draws::next_state, crate::specs::Draws::drawn))]
    pub fn draw(&mut self, below: u32) -> u32
        requires { 0 < below }
        ensures state { self.new.state ≡ next_state self.old.state }
        ensures drawn { result ≡ drawn self.old.state below }
        ensures below { result < below }
    {
        let next = (self.state as u64 * 1103515245 + 12345) % MODULUS;
        self.state = next as u32;
        self.state / 65536 % below
    }

    /// The body of the method of number `i` of `size`.
    #[tactic(auto, unfolding(crate::specs::Draws::body_drawn, crate::specs::Draws::state_behind))]
    pub(crate) fn draw_body(&mut self, size: u32, i: u32) -> Body
        requires { i < size }
        ensures state { self.new.state ≡ state_behind size i self.old.state }
        ensures body { result ≡ body_drawn size i self.old.state }
    {
        match self.draw(4) {
            0 => Body::Returned,
            1 if i + 1 == size => Body::Returned,
            1 => Body::PassedOn(i + 1 + self.draw(size - i - 1)),
            2 => Body::ThroughArray,
            _ => Body::Stored,
        }
    }
}
