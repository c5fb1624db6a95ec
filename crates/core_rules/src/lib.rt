//! The run of one core by a rule, of which two schedulers are cases: theorems, as contracts of a
//! function that does nothing.
#![tactic(auto)]

ghost use Rattle.core_rules.specs.Rules.{RtdsByRule, CbsByRule, CbsFileByRule};

/// The runs of RTDS and of constant bandwidth servers are just those by their rules.
pub fn runs_by_rules()
    ensures rtds { RtdsByRule }
    ensures cbs { CbsByRule }
    ensures cbs_file { CbsFileByRule }
{}
