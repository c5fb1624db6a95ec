//! Hosts whose leaves are blocked exactly where they have nothing to do exist: a theorem, as the
//! contract of a function that does nothing.
#![tactic(auto)]

ghost use Rattle.idle_hosts.specs.Hosts.{IdleHostsExist};

/// For all budgets, starts and legal releases there is a host whose leaves are blocked exactly
/// where none of their jobs is pending, but for the slot of their start.
pub fn has_idle_hosts()
    ensures exist { IdleHostsExist }
{}
