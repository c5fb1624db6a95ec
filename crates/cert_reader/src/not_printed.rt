ghost use Rattle.std.specs.Prelude.{◌≡◌};
ghost use Rattle.cert_reader.specs.declared.not_printed.NotPrinted.TheVariants.{NoMemory};

use std::alloc::{AllocError, AllocFailed};

/// Why a text is not read as a certificate that was printed.
#[derive(Clone, Copy, Debug, PartialEq, Eq)]
pub enum NotPrinted {
    /// It is another text. It may still spell a certificate.
    Other,
    /// Memory ran out.
    NoMemory,
}

impl From<AllocError> for NotPrinted {
    ghost from_gives = { λ _ stop. stop ≡ NoMemory };

    fn from(_error: AllocError) -> NotPrinted {
        NotPrinted::NoMemory
    }
}

impl<T: Drop> From<AllocFailed<T>> for NotPrinted {
    ghost from_gives = { λ _ stop. stop ≡ NoMemory };

    fn from(_error: AllocFailed<T>) -> NotPrinted {
        NotPrinted::NoMemory
    }
}
