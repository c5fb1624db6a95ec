ghost use Rattle.std.specs.Prelude.{◌≡◌, ◌≤◌};

use supply_bound::Supply;

/// How much the supply's bound rises over each cycle past the first.
pub fn amount_of<S: Supply>(s: &S) -> u128
    ensures exact { result ≡ S.amount s.now }
    ensures in_cycle { result ≤ S.cycle_of s.now }
{
    let cycle = s.cycle() as u128;
    let in_one = s.least(cycle);
    let in_two = s.least(2 * cycle);
    in_two - in_one
}
