//! Tests of schedules: one level, of its jobs or of servers, and what is counted of its spans;
//! trees, the scheduler after Xen's RTDS, the verdict on traces, and the generated host.
#![tactic(auto)]

#[cfg(test)]
mod auditor_tests;
#[cfg(test)]
mod bulk_host_tests;
#[cfg(test)]
mod guest_sched_tests;
#[cfg(test)]
mod helpers;
#[cfg(test)]
mod isolation_tests;
#[cfg(test)]
mod plain_program_tests;
#[cfg(test)]
mod rtds_sim_tests;
#[cfg(test)]
mod server_sched_tests;
#[cfg(test)]
mod span_counts_tests;
#[cfg(test)]
mod tree_run_tests;
