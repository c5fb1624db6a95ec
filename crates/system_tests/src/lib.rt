//! Tests of what no command shows of systems and of files: calls that no command reaches, and how
//! a text is taken.
#![tactic(auto)]

#[cfg(test)]
mod admission_session_tests;
#[cfg(test)]
mod csv_rows_tests;
#[cfg(test)]
mod helpers;
#[cfg(test)]
mod outside_tests;
#[cfg(test)]
mod script_file_tests;
#[cfg(test)]
mod toml_items_tests;
#[cfg(test)]
mod trace_file_tests;
#[cfg(test)]
mod tree_model_tests;
