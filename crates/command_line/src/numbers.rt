ghost use Rattle.std.specs.Prelude.{◌≡◌, ◌≤◌, IfSome};
ghost use Rattle.command_line.specs.Numbers.{number_from_one};

use csv_rows::{Plain, plain_number};

/// The plain decimal number from 1 to `most` that a word spells.
pub fn number_from_one(word: &str, most: u64) -> Option<u64>
    requires { most ≤ 1_000_000_000_000 }
    ensures is { result ≡ number_from_one most word.now }
    ensures within { IfSome result (λ n. (1 ≤ n) × (n ≤ most)) }
{
    match plain_number(word.as_bytes(), most) {
        Plain::Is(n) if n >= 1 => Some(n),
        _ => None,
    }
}
