ghost use Rattle.std.specs.Prelude.{◌≡◌, ◌≢◌, ◌++◌, IfOk, OnOk, string_bytes};
ghost use Rattle.rt_report.specs.SystemFault.{system_fault_text, spot_words, spot_line};

use std::alloc::{AllocError, Global};
use system_file::{Spot, SystemFault};

/// The line of the fault of a system file.
pub fn system_text(alloc: Global, fault: SystemFault, file: u32) -> Result<Vec<u8>, AllocError>
    requires { fault ≢ SystemFault.NoMemory }
    ensures { IfOk result (λ text. text.items ≡ system_fault_text fault file) }
{
    let (word, spot) = match fault {
        SystemFault::NotToml => return not_toml(alloc, file),
        SystemFault::MissingKey(spot) => ("MissingKey", spot),
        SystemFault::WrongKind(spot) => ("WrongKind", spot),
        SystemFault::UnknownKey(spot) => ("UnknownKey", spot),
        SystemFault::BadName(spot) => ("BadName", spot),
        SystemFault::NameTaken(spot) => ("NameTaken", spot),
        SystemFault::OutOfRange(spot) => ("OutOfRange", spot),
        SystemFault::NoSuchParent(spot) => ("NoSuchParent", spot),
        SystemFault::Mixed(spot) => ("Mixed", spot),
        SystemFault::Empty(spot) => ("Empty", spot),
        SystemFault::TooMany(spot) => ("TooMany", spot),
        SystemFault::NoMemory => unreachable!(),
    };
    at_spot(alloc, word, spot, file)
}

fn not_toml(alloc: Global, file: u32) -> Result<Vec<u8>, AllocError>
    ensures { IfOk result (λ text. text.items ≡ system_fault_text SystemFault.NotToml file) }
{
    Ok(format!(in alloc; "fault=NotToml file={file}\n")?.into_bytes())
}

fn at_spot(alloc: Global, word: &str, spot: Spot, file: u32) -> Result<Vec<u8>, AllocError>
    ensures { IfOk result (λ text. text.items ≡ spot_line word.now spot file) }
{
    let mut text = format!(in alloc; "fault={word} at=")?;
    push_spot(&mut text, spot)?;
    write!(text, " file={file}\n")?;
    Ok(text.into_bytes())
}

fn push_spot(text: &mut String, spot: Spot) -> Result<(), AllocError>
    ensures { OnOk result (string_bytes text.new ≡ string_bytes text.old ++ spot_words spot) }
{
    match spot {
        Spot::Top => text.push_str("top"),
        Spot::Core(c) => write!(text, "core {}", c as u64 + 1),
        Spot::Part(q) => write!(text, "part {}", q as u64 + 1),
        Spot::Task(q, i) => write!(text, "part {} task {}", q as u64 + 1, i as u64 + 1),
    }
}
