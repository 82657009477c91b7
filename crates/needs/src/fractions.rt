// A share before it is divided.

ghost use Rattle.needs.specs.Fractions.{FractionFits};

// A block's popularity, and its count of copies: both in their ranges.
#[derive(Clone, Copy)]
pub struct Fraction {
    pub popularity: u64,
    pub count: usize,
    ghost fits: { FractionFits popularity count },
}
