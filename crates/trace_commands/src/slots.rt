ghost use Rattle.std.specs.Prelude.{◌≤◌};

/// A number of slots of a run: 1 to 1,000,000.
#[derive(Clone, Copy)]
pub struct Slots {
    pub count: u64,
    pub ghost some: { 1 ≤ count },
    pub ghost in_reach: { count ≤ 1_000_000 },
}

impl Slots {
    ghost use Rattle.std.specs.Prelude.{◌≡◌, ◌≤◌};

    pub fn count(self) -> u64
        ensures count { result ≡ self.count }
        ensures some { 1 ≤ result }
        ensures in_reach { result ≤ 1_000_000 }
    {
        self.count
    }
}
