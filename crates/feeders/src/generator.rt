// A small generator of numbers: the same seed gives the same numbers.
ghost use Rattle.std.specs.Prelude.{◌≡◌, ◌+◌, ◌*◌, ◌/◌, ◌%◌, ◌^◌, ◌==◌, if◌then◌else◌};

const FACTOR: u64 = 6_364_136_223_846_793_005;

const STEP: u64 = 1_442_695_040_888_963_407;
// the low bits of a state repeat early
const LOW_BITS: u32 = 33;

#[derive(Drop)]
pub struct Generator {
    state: u64,
}

impl Generator {
    pub(crate) fn new(seed: u64) -> Generator
        ensures { result.state ≡ seed }
    {
        Generator { state: seed }
    }

    // Goes on to the next state, and answers its high bits.
    fn step(&mut self) -> u64
        ensures state { self.new.state ≡ ((self.old.state * FACTOR) % 2 ^ 64 + STEP) % 2 ^ 64 }
        ensures bits { result ≡ self.new.state / 2 ^ 33 }
    {
        self.state = self.state.wrapping_mul(FACTOR).wrapping_add(STEP);
        self.state >> LOW_BITS
    }

    // A number below the bound, by the high bits of the next state; 0 where nothing is below it, and then the state stays.
    pub(crate) fn below(&mut self, bound: usize) -> usize
        ensures number { result ≡ (if bound == 0 then 0 else (self.new.state / 2 ^ 33) % bound) }
        ensures state { self.new.state ≡ (if bound == 0 then self.old.state else ((self.old.state * FACTOR) % 2 ^ 64 + STEP) % 2 ^ 64) }
    {
        if bound == 0 {
            return 0;
        }
        self.step() as usize % bound
    }
}
