// The widths of the fields in which versions differ, and where a file's records stand.
ghost use Rattle.std.specs.Prelude.{◌≡◌, ◌≤◌};
ghost use Rattle.model.specs.Plan.{record_at};
ghost use Rattle.model.specs.Refusal.{max_blocks};
ghost use Rattle.theory.specs.Widths.{widest_popularity};

// The bytes that every version's header has.
pub const COMMON_LENGTH: usize = 15;

// The widths of the fields in which versions differ: no version's field is wider. A record's fields stand one after the other.
#[derive(Clone, Copy)]
pub struct Format {
    pub feeds_width: usize,
    pub popularity_width: usize,
    pub min_replicas_width: usize,
    pub min_domains_width: usize,
    pub pair_byte_width: usize,
    ghost feeds_max: { feeds_width ≤ 1 },
    ghost popularity_max: { popularity_width ≤ widest_popularity },
    ghost replicas_max: { min_replicas_width ≤ 1 },
    ghost domains_max: { min_domains_width ≤ 1 },
    ghost pair_max: { pair_byte_width ≤ 1 },
}

impl Format {
    ghost use Rattle.header.specs.Format.{as_format};

    // Where record i stands.
    pub fn record_at(self, i: usize) -> usize
        requires { i ≤ max_blocks }
        ensures { (result ≡ record_at (as_format self) i) × (result ≤ 8192) }
    {
        let record = self.popularity_width
            + self.min_replicas_width
            + self.min_domains_width
            + self.pair_byte_width;
        COMMON_LENGTH + self.feeds_width + record * i
    }
}
