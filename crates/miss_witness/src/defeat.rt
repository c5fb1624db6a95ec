/// What defeats a budget: over the worst pattern of the budget the synchronous release from `start`
/// on must miss within `span` slots. `task` is the first task without a hit under a fixed
/// priority, and None under earliest deadline first. All numbers but the place `task` are slots.
#[derive(Clone, Copy, Debug, PartialEq, Eq)]
pub struct Defeat {
    pub budget: u64,
    pub start: u64,
    pub span: u128,
    pub task: Option<u32>,
}
