ghost use Rattle.std.specs.Prelude.{◌≤◌};

/// The number of guests of a generated host.
#[derive(Clone, Copy)]
pub struct Guests {
    pub number: u64,
    pub ghost some: { 1 ≤ number },
    pub ghost most: { number ≤ 256 },
}
