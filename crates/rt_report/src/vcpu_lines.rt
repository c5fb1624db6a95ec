ghost use Rattle.std.specs.Prelude.{◌≡◌, ◌++◌, ◌<◌, ℕ, List, length, OnOk, string_bytes};
ghost use Rattle.rt_report.specs.VcpuLines.{time_words, vcpu_line, vcpu_lines};

use std::alloc::AllocError;
use trace_file::is_vcpu;
use tree_model::System;

/// What is counted of a VCPU.
pub trait VcpuCounts {
    /// What is told of it behind a name.
    ghost words: { List ℕ → Self → List ℕ };

    /// Writes the line of the VCPU of this name.
    fn push(&self, text: &mut String, name: &str) -> Result<(), AllocError>
        ensures { OnOk result (
            string_bytes text.new ≡ string_bytes text.old ++ words name.now self.now) };
}

/// Writes a line for each part that stands on a core, in the order of the file.
pub fn push_lines<C: VcpuCounts>(
    text: &mut String,
    sys: &System,
    counts: &[C],
) -> Result<(), AllocError>
    requires { length counts.now ≡ length sys.now.parts }
    ensures { OnOk result (
        string_bytes text.new ≡ string_bytes text.old ++ vcpu_lines C.words sys.now 0 counts.now) }
{
    for v in 0..sys.parts().len() as u32 {
        push_line(text, sys, v, &counts[v as usize])?;
    }
    Ok(())
}

fn push_line<C: VcpuCounts>(
    text: &mut String,
    sys: &System,
    v: u32,
    counts: &C,
) -> Result<(), AllocError>
    requires { v < length sys.now.parts }
    ensures { OnOk result (
        string_bytes text.new ≡ string_bytes text.old ++ vcpu_line C.words sys.now v counts.now) }
{
    if !is_vcpu(sys, v) {
        return Ok(());
    }
    counts.push(text, sys.parts()[v as usize].name().as_str())
}

/// Writes a time, and `-` where there is none.
pub fn push_time(text: &mut String, time: Option<u64>) -> Result<(), AllocError>
    ensures { OnOk result (string_bytes text.new ≡ string_bytes text.old ++ time_words time) }
{
    match time {
        None => text.push_str("-"),
        Some(time) => write!(text, "{time}"),
    }
}
