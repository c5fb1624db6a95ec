ghost use Rattle.std.specs.Prelude.{◌≡◌};
ghost use Rattle.slot_model.specs.Order.{key_less};

/// What a job goes by under an order that numbers tell: the job of the smaller `rank` goes first,
/// of equal ranks that of the earlier `place`, and of equal places that of the earlier `arrival`.
#[derive(Clone, Copy, Debug, PartialEq, Eq)]
pub struct Key {
    pub rank: u128,
    pub place: u32,
    pub arrival: u128,
}

impl Key {
    /// Whether the job of this key goes before that of the other.
    pub fn is_less(&self, other: &Key) -> bool
        ensures { result ≡ key_less self.now other.now }
    {
        if self.rank < other.rank {
            return true;
        }
        self.rank == other.rank
            && (self.place < other.place
                || self.place == other.place && self.arrival < other.arrival)
    }
}
