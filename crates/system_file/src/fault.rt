ghost use Rattle.std.specs.Prelude.{◌≡◌};
ghost use Rattle.system_file.specs.declared.fault.SystemFault.TheVariants.{NoMemory};

use std::alloc::{AllocError, AllocFailed};

/// The table in which a fault stands, by places counted from 0: the top table, a core, a part, or a
/// task of a part.
#[derive(Clone, Copy, Debug, PartialEq, Eq)]
pub enum Spot {
    Top,
    Core(u32),
    Part(u32),
    Task(u32, u32),
}

/// Why a file is no system file, and where.
#[derive(Clone, Copy, Debug, PartialEq, Eq)]
pub enum SystemFault {
    /// The bytes are no TOML document.
    NotToml,
    /// A required key is missing, or one supply key stands without the other.
    MissingKey(Spot),
    /// A value, or an element of an array, is of another kind than its key asks for.
    WrongKind(Spot),
    /// A table has a key that is not listed.
    UnknownKey(Spot),
    /// A name is not 1 to 32 ASCII letters, digits, `_` or `-`, the first a letter.
    BadName(Spot),
    /// An earlier core or part has the name, or an earlier task of the same part.
    NameTaken(Spot),
    /// A number is out of its range, or a scheduler is not listed.
    OutOfRange(Spot),
    /// The parent is no core and no earlier part.
    NoSuchParent(Spot),
    /// The parent is a part with tasks.
    Mixed(Spot),
    /// There is no core, or a part has neither tasks nor children.
    Empty(Spot),
    /// An array has more elements than it may have.
    TooMany(Spot),
    /// Memory ran out.
    NoMemory,
}

impl From<AllocError> for SystemFault {
    ghost from_gives = { λ _ fault. fault ≡ NoMemory };

    fn from(_error: AllocError) -> SystemFault {
        SystemFault::NoMemory
    }
}

impl<T: Drop> From<AllocFailed<T>> for SystemFault {
    ghost from_gives = { λ _ fault. fault ≡ NoMemory };

    fn from(_error: AllocFailed<T>) -> SystemFault {
        SystemFault::NoMemory
    }
}
