//! The run of deferrable servers with extra time under earliest deadline first, which RTDS makes on
//! each core by itself: what it is, that there is one, and what it gives. Definitions and laws
//! alone.
#![tactic(auto)]
