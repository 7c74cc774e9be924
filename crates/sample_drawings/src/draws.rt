ghost use Rattle.sample_drawings.specs.Draws.{next_state};
ghost use Rattle.sample_drawings.specs.declared.draws.TheConstants.{MAX_NUMBER};
ghost use Rattle.std.specs.Prelude.{◌≡◌, ◌<◌, ◌≤◌, ◌%◌};

/// The greatest number that has a sample drawing.
pub const MAX_NUMBER: u32 = 999_999;

/// The random number generator of the sample drawings. The first state is the drawing's number, and each
/// draw replaces the state.
#[derive(Clone, Copy)]
pub struct Generator {
    pub state: u32,
    pub ghost small: { state ≤ MAX_NUMBER },
}

impl Generator {
    /// Returns a random number below the limit, and replaces the state.
    pub fn draw(&mut self, limit: u32) -> u32
        requires { 0 < limit }
        ensures state { self.new.state ≡ next_state self.old.state }
        ensures value { result ≡ next_state self.old.state % limit }
    {
        self.state = (75 * self.state + 74) % 65_537;
        self.state % limit
    }
}
