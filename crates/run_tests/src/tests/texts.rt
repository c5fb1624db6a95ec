// Worked systems, files over them, and what is answered.

/// A leaf of two tasks.
pub const LEAF: &str =
    "format = 1\n[[core]]\nname = \"cpu0\"\nsched = \"edf\"\n[[part]]\nname = \"leaf\"\n\
     parent = \"cpu0\"\nsched = \"edf\"\nperiod = 10\n[[part.task]]\nname = \"t1\"\n\
     period = 50\nwork = 7\n[[part.task]]\nname = \"t2\"\nperiod = 75\nwork = 9\n";

pub const LEAF_ANSWER: &str = "verdict=yes\npart leaf period=10 budget=3 computed\n\
     witness leaf budget=2 start=2 span=75 task=- replay=t2 release=2 deadline=77 got=5 of=9\n";

pub const LEAF_CERTIFICATE: &str =
    "{\"format\":1,\"nodes\":[{\"budget\":3,\"computed\":true,\"falls\":[],\"hits\":[],\
     \"kind\":\"part\",\"period\":10,\"place\":0,\"points\":[\"35\",\"65\",\"86\",\"137\",\
     \"161\"],\"witness\":\"75\"},{\"budget\":1,\"computed\":false,\"falls\":[],\"hits\":[],\
     \"kind\":\"core\",\"period\":1,\"place\":0,\"points\":[\"3\",\"12\"],\"witness\":null}]}\n";

pub const LEAF_RELEASES: &str = "at,part,task,work\n0,leaf,t1,7\n0,leaf,t2,9\n50,leaf,t1,7\n";

pub const LEAF_COUNTS: &str = "verdict=yes\ncore cpu0 given=100 jobs=10 missed=0\n\
     part leaf given=30 jobs=3 missed=0\n";

/// The same by rate.
pub const RATED: &str =
    "format = 1\n[[core]]\nname = \"cpu0\"\nsched = \"edf\"\n[[part]]\nname = \"leaf\"\n\
     parent = \"cpu0\"\nsched = \"rm\"\nperiod = 10\n[[part.task]]\nname = \"t1\"\n\
     period = 50\nwork = 7\n[[part.task]]\nname = \"t2\"\nperiod = 75\nwork = 9\n";

pub const RATED_RESPONSES: &str = "verdict=yes\nresponse leaf t1 worst=25 limit=50 replay=25\n\
     response leaf t2 worst=46 limit=75 replay=46\n";

/// Two guests on one core, of which the first may take what is left.
pub const SHARED: &str =
    "format = 1\n[[core]]\nname = \"cpu0\"\nsched = \"edf\"\n[[part]]\nname = \"A\"\n\
     parent = \"cpu0\"\nsched = \"edf\"\nperiod = 10\nbudget = 3\nextra = true\n\
     [[part.task]]\nname = \"a\"\nperiod = 100\nwork = 3\n[[part]]\nname = \"B\"\n\
     parent = \"cpu0\"\nsched = \"edf\"\nperiod = 10\nbudget = 4\n[[part.task]]\n\
     name = \"b\"\nperiod = 100\nwork = 4\n";

pub const SHARED_WORKLOAD: &str = "at,vcpu,what\n0,A,start\n0,B,start\n";

/// What a period of ten slots gives them.
pub const SHARED_TRACE: &str =
    "at,core,what,vcpu\n0,cpu0,start,A\n0,cpu0,start,B\n0,cpu0,run,A\n3,cpu0,run,B\n\
     7,cpu0,run,A\n10,,end,\n";

pub const SHARED_AUDIT: &str = "verdict=yes\nperiods=2\n";

pub const SHARED_TALLY: &str = "verdict=yes\nperiods=2\n\
     vcpu A begun=1 judged=1 short=0 over=0 least_ns=6000 most_ns=6000\n\
     vcpu B begun=1 judged=1 short=0 over=0 least_ns=4000 most_ns=4000\n";

pub const SHARED_STEAL: &str = "verdict=yes\nperiods=2\n\
     vcpu A begun=1 kept=1 denied=0 most_ns=4000\n\
     vcpu B begun=1 kept=1 denied=0 most_ns=6000\n";

/// Two guests that ask for 6 of 10 slots each.
pub const SIXES: &str =
    "format = 1\n[[core]]\nname = \"cpu0\"\nsched = \"edf\"\n[[part]]\nname = \"A\"\n\
     parent = \"cpu0\"\nsched = \"edf\"\nperiod = 10\nbudget = 6\n[[part.task]]\nname = \"a\"\n\
     period = 100\nwork = 6\n[[part]]\nname = \"B\"\nparent = \"cpu0\"\nsched = \"edf\"\n\
     period = 10\nbudget = 6\n[[part.task]]\nname = \"b\"\nperiod = 100\nwork = 6\n";

pub const SIXES_COUNTS: &str = "verdict=no\ncore cpu0 given=10 jobs=2 missed=1\n\
     first B release=0 deadline=10 got=4 of=6\npart A given=6 jobs=0 missed=0\n\
     part B given=4 jobs=0 missed=0\n";

/// A host of one guest.
pub const HOST_COUNTS: &str =
    "verdict=yes\nguests=1 cores=1 budgets=53 jobs=15 missed=0 pending=130460\n";
