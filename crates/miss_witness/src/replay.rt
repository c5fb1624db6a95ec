use crate::Defeat;
use slot_model::Miss;

/// What defeats the next smaller budget of the leaf at place `part`, and the first miss that is
/// seen when it is run: None exactly where its window ends past 1,000,000 slots.
#[derive(Clone, Copy, Debug, PartialEq, Eq)]
pub struct Replay {
    pub part: u32,
    pub witness: Defeat,
    pub miss: Option<Miss>,
}
