//! What a guest keeps that halts where it has nothing to do: theorems, as contracts of functions
//! that do nothing.
#![tactic(auto)]

ghost use Rattle.halting.specs.Stolen.{TimesAddUp, AgreesWithAudit, IsSupplyWhereSpared};
ghost use Rattle.halting.specs.Halting.{RunsAsAdmitted, KeepsDeadlines, StaysInTime};
ghost use Rattle.halting.specs.Units.{PassesInUnits, ConstrainedInUnits};

/// What is stolen in a period, beside what an audit counts there, and beside a supply.
pub fn counts_stolen_time()
    ensures adds_up { TimesAddUp }
    ensures judged { AgreesWithAudit }
    ensures supplies { IsSupplyWhereSpared }
{}

/// Where no period has more time stolen than it has beyond its budget, whatever scheduler makes it
/// so, a guest that halts only where it has nothing to do runs as over a supply that gives the
/// budget in each period. So no job is lost where none is over such supplies, and a task is in time
/// that is so over them.
pub fn keeps_where_spared()
    ensures as_admitted { RunsAsAdmitted }
    ensures keeps { KeepsDeadlines }
    ensures in_time { StaysInTime }
{}

/// What passes its test under a budget passes it in each smaller unit: with all times so many times
/// as long, as where slots are microseconds and moments nanoseconds.
pub fn passes_in_units()
    ensures passes { PassesInUnits }
    ensures constrained { ConstrainedInUnits }
{}
