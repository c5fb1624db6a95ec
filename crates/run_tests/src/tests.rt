mod bad_traces;
mod failing;
mod slot_by_slot;
mod texts;
