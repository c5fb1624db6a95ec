//! Constant bandwidth servers on one full core: theorems, as contracts of functions that do
//! nothing.
#![tactic(auto)]

ghost use Rattle.cbs_servers.specs.Cbs.{HasFileRun, FileRunIsOnly, FileOrderIsOpen, HasRun};
ghost use Rattle.cbs_servers.specs.Giving.{NeverLate, NeverShort, GivesWhatIsLeft, GivesBusy, GivesFresh};
ghost use Rattle.cbs_servers.specs.Overrun.{LateByOthers, NoneOverIsCbs, GrantsAreAccounts};
ghost use Rattle.cbs_servers.specs.Parts.{GrantsAtSlots, GrantsInSlots};

/// Over each number of slots there is just one run by the order of the file, and it is one of those
/// in which ties are open.
pub fn makes_runs()
    ensures exists { HasFileRun }
    ensures only { FileRunIsOnly }
    ensures among { FileOrderIsOpen }
    ensures any { HasRun }
{}

/// Where the shares fit, a server that is awake can always have what is left of its budget before
/// its deadline, and has it.
pub fn keeps_budgets()
    ensures never_late { NeverLate }
    ensures never_short { NeverShort }
    ensures what_is_left { GivesWhatIsLeft }
{}

/// So over a window in which it is awake it has no less than a periodic resource gives, the supply
/// of its budget and period over which a guest is tested.
pub fn gives_supply()
    ensures busy { GivesBusy }
    ensures fresh { GivesFresh }
{}

/// Where servers may run past their budgets before they are stopped, one that is awake is late by
/// no more than what the others may run over, all together. Where none does, all is as above; and
/// in a smaller unit grants are the same.
pub fn carries_overruns()
    ensures late { LateByOthers }
    ensures none_over { NoneOverIsCbs }
    ensures accounts { GrantsAreAccounts }
    ensures at_slots { GrantsAtSlots }
    ensures in_slots { GrantsInSlots }
{}
