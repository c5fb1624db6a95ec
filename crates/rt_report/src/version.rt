ghost use Rattle.std.specs.Prelude.{◌≡◌, IfOk};
ghost use Rattle.rt_report.specs.Version.{version_text};

use std::alloc::{AllocError, Global};

/// The version of the program. It stands here alone.
pub const VERSION: &str = "1.1.0";

/// The line that tells the version of the program.
pub fn version_text(alloc: Global) -> Result<Vec<u8>, AllocError>
    ensures { IfOk result (λ text. text.items ≡ version_text) }
{
    let version = VERSION;
    Ok(format!(in alloc; "rtadmit {version}\n")?.into_bytes())
}
