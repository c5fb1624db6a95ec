//! Worked examples of the model of slots, by hand: lists of slots, supplies, runs, misses, orders,
//! bounds and points. The checker computes them, and a wrong definition of `slot_model` breaks one
//! of them. Nothing stands on this crate.
#![tactic(auto)]
