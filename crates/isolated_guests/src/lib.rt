//! What guests keep that halt where they have nothing to do, on VCPUs that are isolated: theorems,
//! as contracts of functions that do nothing.
#![tactic(auto)]

ghost use Rattle.isolated_guests.specs.Spared.{
  FileOrderIsOpen,
  IsolatedAreSpared,
  IsolatedAreSparedInTraces,
};
ghost use Rattle.isolation.specs.Short.{IsolatedWhereShort, FewerIsolate};
ghost use Rattle.isolated_guests.specs.Guests.{ShortKeep};
ghost use Rattle.isolated_guests.specs.Answered.{LinesKeep, YesKeeps};
ghost use Rattle.isolated_guests.specs.Traces.{KeepsInTraces};

/// From a VCPU that is isolated no more is stolen, in any of its periods, than the period has
/// beyond its budget, however often it blocks in the period, and whatever the others do.
pub fn spares_isolated()
    ensures in_runs { IsolatedAreSpared }
    ensures in_traces { IsolatedAreSparedInTraces }
    ensures open_runs { FileOrderIsOpen }
{}

/// All VCPUs of a core are isolated exactly where the sum of its budgets is at most its shortest
/// period. And smaller budgets isolate what greater ones isolate.
pub fn isolates_all()
    ensures where_short { IsolatedWhereShort }
    ensures fewer { FewerIsolate }
{}

/// What halts only where it has nothing to do keeps its deadlines, under budgets that admit the
/// system: a part, where a line of `isolate` says that it is isolated; each part on a core, where
/// all are, or where the budgets of each core come to no more than its shortest period.
pub fn keeps_deadlines()
    ensures lines { LinesKeep }
    ensures yes { YesKeeps }
    ensures short { ShortKeep }
{}

/// A leaf that passes its test under its budget keeps its deadlines in each trace in which little
/// is stolen from it, whatever scheduler made it, where it halts only where it has nothing to do.
pub fn keeps_in_traces()
    ensures keeps { KeepsInTraces }
{}
