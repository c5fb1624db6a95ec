ghost use Rattle.std.specs.Prelude.{◌≡◌, ◌++◌, OnOk, string_bytes};
ghost use Rattle.rt_report.specs.Missed.{missed_words};

use slot_model::Miss;
use std::alloc::AllocError;

/// Writes a miss, behind the name of what misses.
pub fn push_missed(text: &mut String, name: &str, miss: Miss) -> Result<(), AllocError>
    ensures { OnOk result
        (string_bytes text.new ≡ string_bytes text.old ++ missed_words name.now miss) }
{
    write!(
        text,
        "{name} release={} deadline={} got={} of={}\n",
        miss.release, miss.deadline, miss.got, miss.work
    )
}
