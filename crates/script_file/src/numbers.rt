ghost use Rattle.std.specs.Prelude.{◌≡◌};
ghost use Rattle.script_file.specs.Script.{number_in};

use csv_rows::{Plain, plain_number};

/// The number of a field that is a plain decimal number of 64 bits.
pub fn number(field: &[u8]) -> Option<u64>
    ensures { result ≡ number_in field.now }
{
    match plain_number(field, u64::MAX) {
        Plain::Is(n) => Some(n),
        Plain::No | Plain::Past => None,
    }
}
