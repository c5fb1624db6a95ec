//! What the trace of a run of RTDS says: its events slot by slot, that it keeps the rules of a
//! trace, and what an audit finds in it. Definitions and laws alone.
#![tactic(auto)]
