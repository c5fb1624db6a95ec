ghost use Rattle.std.specs.Prelude.{◌≡◌, ◌≤◌, ◌<◌, true, map, IfOk};
ghost use Rattle.std.specs.List.{range_with_len};
ghost use Rattle.slot_model.specs.Task.{plain_task, sporadic_task};
ghost use Rattle.slot_model.specs.Name.{is_name};
ghost use Rattle.tree_model.specs.Admission.{Admitted};
ghost use Rattle.bulk_host.specs.Host.{guest_sched, guest_tasks, guest_at, host_core, bulk_host, bulk_budgets};

use slot_model::{Name, Sched, Task};
use std::alloc::{AllocError, Global};
use tree_model::{Core, Named, Parent, Part, System};

/// The host of `n` guests, 1 to 256: eight guests on each full core.
pub fn make_bulk(alloc: Global, n: u64) -> Result<System, AllocError>
    requires some { 1 ≤ n }
    requires most { n ≤ 256 }
    ensures host { IfOk result (λ sys. sys ≡ bulk_host n) }
    ensures admitted { Admitted (bulk_host n) (bulk_budgets n) }
{
    Ok(System {
        cores: make_cores(alloc, n.div_ceil(8))?,
        parts: make_guests(alloc, n)?,
    })
}

fn make_cores(alloc: Global, count: u64) -> Result<Vec<Core>, AllocError>
    requires { count ≤ 32 }
    ensures { IfOk result (λ cores. cores.items ≡ map host_core (range_with_len 0 count)) }
{
    let mut cores = Vec::new(alloc);
    for place in 0..count {
        cores.push(make_core(alloc, place)?)?;
    }
    Ok(cores)
}

fn make_core(alloc: Global, place: u64) -> Result<Core, AllocError>
    requires { place < 256 }
    ensures { IfOk result (λ core. core ≡ host_core place) }
{
    Ok(Core {
        name: name_of(alloc, &format!(in alloc; "c{place}")?)?,
        sched: Sched::Edf,
        supply: None,
    })
}

fn make_guests(alloc: Global, count: u64) -> Result<Vec<Part>, AllocError>
    requires { count ≤ 256 }
    ensures { IfOk result (λ parts. parts.items ≡ map guest_at (range_with_len 0 count)) }
{
    let mut parts = Vec::new(alloc);
    for place in 0..count {
        parts.push(make_guest(alloc, place)?)?;
    }
    Ok(parts)
}

fn make_guest(alloc: Global, place: u64) -> Result<Part, AllocError>
    requires { place < 256 }
    ensures { IfOk result (λ part. part ≡ guest_at place) }
{
    let period = 1000 * (1 + place % 4);
    Ok(Part {
        name: name_of(alloc, &format!(in alloc; "g{place}")?)?,
        parent: Parent::Core((place / 8) as u32),
        sched: sched_of(place),
        period,
        budget: None,
        extra: false,
        tasks: make_tasks(alloc, period)?,
    })
}

fn sched_of(place: u64) -> Sched
    ensures { result ≡ guest_sched place }
{
    if place % 2 == 0 {
        Sched::Edf
    } else {
        Sched::Rm
    }
}

fn make_tasks(alloc: Global, period: u64) -> Result<Vec<Named>, AllocError>
    requires some { 4 ≤ period }
    requires most { period ≤ 4000 }
    ensures { IfOk result (λ tasks. tasks.items ≡ guest_tasks period) }
{
    let mut tasks = Vec::with_capacity(alloc, 2)?;
    tasks.push(Named {
        name: name_of(alloc, "a")?,
        task: whole_period_task(10 * period, period / 4),
    })?;
    tasks.push(Named {
        name: name_of(alloc, "b")?,
        task: whole_period_task(20 * period, period / 2),
    })?;
    Ok(tasks)
}

/// A task whose deadline is its period.
fn whole_period_task(period: u64, work: u64) -> Task
    requires some { 1 ≤ work }
    requires in_period { work ≤ period }
    requires in_limit { period ≤ 1000000 }
    ensures { sporadic_task result ≡ plain_task period period work }
{
    Task {
        period,
        deadline: period,
        work,
        jitter: 0,
    }
}

/// The name that a text spells.
fn name_of(alloc: Global, text: &str) -> Result<Name, AllocError>
    requires { is_name text.now ≡ true }
    ensures { IfOk result (λ name. name ≡ text.now) }
{
    match Name::new(alloc, text.as_bytes())? {
        Some(name) => Ok(name),
        None => unreachable!(),
    }
}
