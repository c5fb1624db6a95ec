//! Whether a system is admitted: `admit`, a certificate of it by `certify`, and `check`.
#![tactic(auto)]

mod admit;
mod certify;
mod check;

pub use admit::Admit;
pub use certify::Certify;
pub use check::Check;
