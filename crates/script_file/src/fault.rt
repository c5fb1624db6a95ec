/// Why a text is no script, and the first row that shows it. The header is row 1.
#[derive(Clone, Copy, Debug, PartialEq, Eq)]
pub enum ScriptFault {
    /// The header is missing or has other fields.
    BadHeader,
    /// Another count of fields, an unknown word, no name, no number, no task, a field that is
    /// filled where it has to be empty, or empty where it has to be filled.
    BadRow(u64),
    /// Memory ran out.
    NoMemory,
}
