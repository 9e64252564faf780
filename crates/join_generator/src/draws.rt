//! Numbers that are drawn one after another.
ghost use Rattle.std.specs.Prelude.{◌≡◌};
ghost use Rattle.join_generator.specs.Generated.{next_state, state_after, upper_bits};

use std::marker::Model;

const FACTOR: u64 = 6_364_136_223_846_793_005;

const STEP: u64 = 1_442_695_040_888_963_407;

/// Numbers below 2^31, the same ones each time. Contracts see the state: `state_after k` after k draws.
#[derive(Debug, Drop)]
pub struct Draws {
    state: u64,
}

impl Model for Draws {
    ghost use Rattle.std.specs.Prelude.{ℕ};

    ghost Value = { ℕ };

    ghost view = { λ d. d.state };
}

impl Draws {
    /// No number is drawn yet.
    pub fn new() -> Draws
        ensures { result ≡ state_after 0 }
    {
        Draws { state: 0 }
    }

    /// The next number: after k draws it is `drawn k`.
    pub fn draw(&mut self) -> u64
        ensures next { self.new ≡ next_state self.old }
        ensures drawn { result ≡ upper_bits self.new }
    {
        self.state = self.state.wrapping_mul(FACTOR).wrapping_add(STEP);
        self.state >> 33
    }
}
