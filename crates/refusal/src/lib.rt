// Why a call is refused: one reason for each row of the table, and its number.
#![tactic(auto)]

ghost use Rattle.std.specs.Prelude.{◌≡◌};

// The rows of the table, by their numbers; `ShortText` is a lent text that no listing fits in, above all rows.
#[derive(Clone, Copy, Debug, PartialEq, Eq)]
pub enum Refusal {
    ShortFile = 1,
    Mark = 2,
    Version = 3,
    Machines = 4,
    Capacity = 5,
    Blocks = 6,
    FileLength = 7,
    LeastCopies = 8,
    Spread = 9,
    OverBudget = 10,
    OverPlaces = 11,
    ShortBuffer = 12,
    NoSuchMachine = 13,
    CopyCount = 14,
    TooFewDomains = 15,
    OverCapacity = 16,
    PairByte = 17,
    PairTogether = 18,
    NoSuchBlock = 19,
    TickGap = 20,
    FullList = 21,
    Feeds = 22,
    UnusableBudget = 23,
    NewBlock = 24,
    NoMachine = 25,
    ShortText = 255,
}

impl From<Refusal> for u8 {
    ghost use Rattle.refusal.specs.Rows.{number_of};

    ghost from_gives = { λ refusal number. number ≡ number_of refusal };

    fn from(refusal: Refusal) -> u8 {
        refusal as u8
    }
}
