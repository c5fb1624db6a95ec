ghost use Rattle.std.specs.Prelude.{◌≡◌, ◌≤◌};
ghost use Rattle.slot_model.specs.declared.task.TheConstants.{LIMIT};
ghost use Rattle.rtds_trace.specs.Printed.{moment_of_slot};

/// The moment of the trace, in nanoseconds, at which a slot begins, which is a microsecond.
pub fn moment_of_slot(slot: u64) -> u64
    requires { slot ≤ LIMIT }
    ensures { result ≡ moment_of_slot slot }
{
    slot * 1_000
}
