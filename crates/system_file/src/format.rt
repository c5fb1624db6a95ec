ghost use Rattle.std.specs.Prelude.{◌≡◌, map};
ghost use Rattle.system_file.specs.Faults.{task_keys as keys};

/// The format of a file. A file of format 2 may give tasks release jitter.
#[derive(Clone, Copy, Debug, PartialEq, Eq)]
pub enum Format {
    One,
    Two,
}

/// The keys of a task.
pub fn task_keys(format: Format) -> &'static [&'static str]
    ensures { map (λ key. key.now) result.now ≡ keys format }
{
    match format {
        Format::One => &["name", "period", "deadline", "work"],
        Format::Two => &["name", "period", "deadline", "jitter", "work"],
    }
}
