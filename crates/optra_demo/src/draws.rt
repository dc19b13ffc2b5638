//! The draws that a demo is made of.
use std::marker::Model;

/// By how much a state is multiplied. It and the next two are those of the generator that the standard of the language C
/// gives as its example.
const FACTOR: u64 = 1_103_515_245;
/// What is added then.
const STEP: u64 = 12_345;
/// A state is below this.
const MODULUS: u64 = 2_147_483_648;
/// The low bits of a state are no part of a draw.
const LOW: u32 = 65_536;

/// A generator of numbers. Contracts see it as its state.
#[derive(Drop)]
pub struct Draws {
    state: u32,
}

impl Model for Draws {
    ghost use Rattle.std.specs.Prelude.{ℕ, ◌<◌, ◌^◌};

    ghost Value = { ℕ };

    ghost view = { λ a. a.state };

    ghost invariant = { λ a. a.state < 2 ^ 31 };
}

impl Draws {
    ghost use Rattle.std.specs.Prelude.{◌≡◌, ◌<◌};
    ghost use Rattle.optra_demo.specs.Draws.{first_state, given, next_state};

    /// The generator of a seed.
    pub fn of_seed(seed: u32) -> Draws
        ensures { result ≡ first_state seed }
    {
        Draws {
            state: (u64::from(seed) % MODULUS) as u32,
        }
    }

    /// The next draw: a number below `most`.
    #[tactic(auto, unfolding(crate::specs::Draws::next_state, crate::specs::Draws::given))]
    pub fn draw(&mut self, most: u32) -> u32
        requires { 0 < most }
        ensures state { self.new ≡ next_state self.old }
        ensures value { result ≡ given self.new most }
        ensures below { result < most }
    {
        let next = (u64::from(self.state) * FACTOR + STEP) % MODULUS;
        self.state = next as u32;
        self.state / LOW % most
    }
}
