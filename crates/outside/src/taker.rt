ghost use Rattle.std.specs.Prelude.{ℕ, List, OnOk};
ghost use Rattle.outside.specs.Taker.{Took};

use std::alloc::AllocError;

/// What takes the bytes of a file piece by piece.
pub trait ByteTaker {
    /// What the first value is once it has taken these bytes.
    ghost has_taken: { Self → Self → List ℕ → Type 0 };

    /// Takes the next bytes.
    fn take(&mut self, piece: &[u8]) -> Result<(), AllocError>
        requires { (start : Self) × (bytes : List ℕ) × has_taken start self.old bytes }
        ensures { OnOk result (Took has_taken self.old self.new piece.now) };
}

/// It keeps them.
impl ByteTaker for Vec<u8> {
    ghost use Rattle.std.specs.Prelude.{◌≡◌, ◌++◌};

    ghost has_taken = { λ start now bytes. now.items ≡ start.items ++ bytes };

    fn take(&mut self, piece: &[u8]) -> Result<(), AllocError> {
        self.extend_from_slice(piece)
    }
}
