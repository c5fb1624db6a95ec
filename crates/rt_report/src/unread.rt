ghost use Rattle.std.specs.Prelude.{◌≡◌, IfOk};
ghost use Rattle.rt_report.specs.Unread.{absent_text, too_long_text};

use std::alloc::{AllocError, Global};

/// The line where there is no file of the name that the file word `file`, counted from 1, gives.
pub fn absent_text(alloc: Global, file: u32) -> Result<Vec<u8>, AllocError>
    ensures { IfOk result (λ text. text.items ≡ absent_text file) }
{
    Ok(format!(in alloc; "absent file={file}\n")?.into_bytes())
}

/// The line where that file has more bytes than are read.
pub fn too_long_text(alloc: Global, file: u32) -> Result<Vec<u8>, AllocError>
    ensures { IfOk result (λ text. text.items ≡ too_long_text file) }
{
    Ok(format!(in alloc; "toolong file={file}\n")?.into_bytes())
}
