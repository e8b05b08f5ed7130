// The numbers of a repeatable load, from a seed of 32 bits on.
#![tactic(auto)]

ghost use Rattle.std.specs.Prelude.{◌≡◌};
ghost use Rattle.generator.specs.Generator.{stepped, output_of};

#[derive(Clone, Copy)]
pub struct Generator {
    pub state: u32,
}

impl Generator {
    // What a step adds. It is odd, so that every state is passed before one comes back.
    pub const INCREMENT: u32 = 2654435769;

    #[tactic(auto, unfolding(crate::specs::Generator::stepped))]
    pub fn step(self) -> Self
        ensures { result.state ≡ stepped self.state }
    {
        Generator {
            state: self.state.wrapping_add(Generator::INCREMENT),
        }
    }

    #[tactic(auto, unfolding(crate::specs::Generator::output_of))]
    pub fn output(self) -> u32
        ensures { result ≡ output_of self.state }
    {
        self.state ^ (self.state >> 16)
    }
}
