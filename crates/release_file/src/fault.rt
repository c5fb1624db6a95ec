/// Why a text is no release file or no workload, and the first row that shows it. The header is
/// row 1.
#[derive(Clone, Copy, Debug, PartialEq, Eq)]
pub enum ReleaseFault {
    /// The header is missing or has other fields.
    BadHeader,
    /// Another count of fields, an unknown word, or no plain number.
    BadRow(u64),
    /// The part is no part of the kind that the file names, or has no task of the name.
    Unknown(u64),
    /// A moment past the limit, a work that is not from 1 to the task's, or an `early` past the
    /// task's jitter.
    OutOfRange(u64),
    /// The job arrived less than the task's period after an earlier job of the task, or before it.
    TooEarly(u64),
    /// A moment before that of the row before, or a row that does not fit the earlier rows of its
    /// VCPU.
    BadOrder(u64),
    /// Memory ran out.
    NoMemory,
}
