/// The line `slope * t + offset` above the demand bound, or `slope * t - offset` below a supply's
/// bound, in 2^60 parts of a slot.
#[derive(Clone, Copy)]
pub struct Line {
    pub slope: u128,
    pub offset: u128,
}
