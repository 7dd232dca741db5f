ghost use Rattle.std.specs.Prelude.{◌≡◌, ◌<◌};
ghost use Rattle.ctrl_gen.specs.Draws.{draw};

/// The multiplier and the increment of the generator.
const MULTIPLIER: u64 = 6_364_136_223_846_793_005;

const INCREMENT: u64 = 1_442_695_040_888_963_407;
/// What a drawn number is divided by: the lowest 33 bits aren't used.
const LOW_BITS: u64 = 8_589_934_592;

/// The numbers drawn from a seed, one after another.
#[derive(Drop)]
pub(crate) struct Draws {
    /// The generator's state, at first the seed.
    pub(crate) state: u64,
}

impl Draws {
    /// The next number, below `sides`.
    #[tactic(auto, unfolding(crate::specs::Draws::draw))]
    pub(crate) fn draw(&mut self, sides: u32) -> u32
        requires { 0 < sides }
        ensures exact { result ≡ (draw sides self.old.state).0 }
        ensures state { self.new.state ≡ (draw sides self.old.state).1 }
        ensures within { result < sides }
    {
        self.state = self.state.wrapping_mul(MULTIPLIER).wrapping_add(INCREMENT);
        ((self.state / LOW_BITS) % u64::from(sides)) as u32
    }
}
