//! Draws from a seed, by a linear congruential generator.

ghost use Rattle.std.specs.Prelude.{◌≡◌, ◌<◌};
ghost use Rattle.vfa_opt.specs.Generated as drawing;

const MULTIPLIER: u64 = 6_364_136_223_846_793_005;

const INCREMENT: u64 = 1_442_695_040_888_963_407;

/// The bits that a draw leaves out.
const LOW_BITS: u32 = 33;

/// The draws from a state on.
#[derive(Drop)]
pub struct Draws {
    /// The state that the last draw made.
    pub state: u64,
}

impl Draws {
    /// The next number below this one.
    pub fn draw(&mut self, below: u32) -> u32
        requires { 0 < below }
        ensures value { result ≡ drawing.drawn self.old.state below }
        ensures state { self.new.state ≡ drawing.next_state self.old.state }
        ensures range { result < below }
    {
        self.state = self.state.wrapping_mul(MULTIPLIER).wrapping_add(INCREMENT);
        ((self.state >> LOW_BITS) % u64::from(below)) as u32
    }
}
