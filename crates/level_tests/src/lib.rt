//! Tests of tasks, supplies and levels: worked rows of the crates that the tests of a level stand
//! on, called from outside.
#![tactic(auto)]

#[cfg(test)]
mod edf_demand_tests;
#[cfg(test)]
mod edf_test_tests;
#[cfg(test)]
mod edp_supply_tests;
#[cfg(test)]
mod fp_request_tests;
#[cfg(test)]
mod fp_test_tests;
#[cfg(test)]
mod helpers;
#[cfg(test)]
mod least_budget_tests;
#[cfg(test)]
mod miss_witness_tests;
#[cfg(test)]
mod period_choice_tests;
#[cfg(test)]
mod release_pattern_tests;
#[cfg(test)]
mod response_times_tests;
#[cfg(test)]
mod slot_model_tests;
#[cfg(test)]
mod supply_bound_tests;
