ghost use Rattle.std.specs.Prelude.{◌≡◌, ◌≤◌, if◌then◌else◌};
ghost use Rattle.trace_file.specs.declared.event.TheConstants.{LAST_MOMENT};

use crate::watch::Breach;

/// What is counted of the periods of a VCPU that begin before the end of a trace. Times are
/// nanoseconds.
#[derive(Clone, Copy, Debug, PartialEq, Eq)]
pub struct Tally {
    /// How many begin before the end.
    pub begun: u64,
    /// How many are judged: they end by the end, and the VCPU is blocked at no moment of them.
    pub judged: u64,
    /// In how many judged ones the VCPU has its core for less than its budget.
    pub short: u64,
    /// In how many it has no extra time and has its core for more than its budget.
    pub over: u64,
    /// The least time for which it has its core in a judged one.
    pub least: Option<u64>,
    /// The greatest time for which it has its core in any.
    pub most: Option<u64>,
}

/// A number where a test holds, else 0.
pub fn number_if(holds: bool, number: u64) -> u64
    ensures { result ≡ (if holds then number else 0) }
{
    if holds { number } else { 0 }
}

impl Tally {
    ghost use Rattle.std.specs.Prelude.{◌≡◌, ◌≤◌, ◌+◌, Some};
    ghost use Rattle.vcpu_watch.specs.Watch.{counted, lesser, greater, AreAtMost, no_tally};

    /// Of no periods.
    pub fn new() -> Tally
        ensures { result ≡ no_tally }
    {
        Tally {
            begun: 0,
            judged: 0,
            short: 0,
            over: 0,
            least: None,
            most: None,
        }
    }

    /// Counts so many judged periods more, in each of which the VCPU got this time.
    #[inline(always)]
    fn count_judged(&mut self, many: u64, got: u64)
        requires room { self.old.judged ≤ LAST_MOMENT }
        requires few { many ≤ LAST_MOMENT }
        ensures { let old = self.old in self.new ≡ record old {
          judged = old.judged + many;
          least = Some (lesser old.least got);
        } }
    {
        self.judged += many;
        if let Some(time) = self.least {
            if time <= got {
                return;
            }
        }
        self.least = Some(got);
    }

    /// Notes that a VCPU got this time, where it is the most so far.
    #[inline(always)]
    fn note_most(&mut self, got: u64)
        ensures { let old = self.old in
            self.new ≡ record old { most = Some (greater old.most got) } }
    {
        if let Some(time) = self.most {
            if got <= time {
                return;
            }
        }
        self.most = Some(got);
    }

    /// Counts so many periods more, in each of which the VCPU got this time.
    pub fn count(&mut self, many: u64, judged: bool, got: u64, breach: Option<Breach>)
        requires room { AreAtMost self.old LAST_MOMENT }
        requires few { many ≤ LAST_MOMENT }
        ensures { self.new ≡ counted self.old many judged got breach }
    {
        self.begun += many;
        if judged {
            self.count_judged(many, got);
        }
        self.note_most(got);
        match breach {
            Some(Breach::Short) => self.short += many,
            Some(Breach::Over) => self.over += many,
            None => {}
        }
    }
}
