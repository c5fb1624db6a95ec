ghost use Rattle.std.specs.Prelude.{◌≡◌, ℕ, ◌<◌, ◌≤◌, ◌^◌, true, false, Bool, List, length, slice_index_or, IfOk, OnOk};
ghost use Rattle.guest_sched.specs.Spans.{AreWindows, slots_of, window_at};
ghost use Rattle.slot_model.specs.declared.sched.Sched.{Sched as AnySched};
ghost use Rattle.slot_model.specs.Task.{SporadicTask, AreConstrained, sporadic_tasks};
ghost use Rattle.slot_model.specs.Release.{synchronous};
ghost use Rattle.server_sched.specs.inner.Serving.{AreServerTasks, CanServe, IsUnderway};

use crate::serving::{Come, Server, choose, first_after, renew};
use crate::tally::{Tally, close};
use guest_sched::{Window, add_window};
use slot_model::{Sched, Task};
use std::alloc::{AllocError, Global};

/// A child's list has room for no more windows than these to begin with, 2 MiB.
pub const MOST_ROOM: u64 = 131_072;

/// A level of servers between two events.
#[derive(Drop)]
pub struct Level {
    /// The slots in all.
    pub slots: u64,
    /// The slots before this moment are served.
    pub time: u64,
    /// How many jobs have come, and before when no further one does.
    pub come: Come,
    pub servers: Vec<Server>,
    /// The server that goes first, where the job of one lacks slots.
    pub best: Option<usize>,
    /// The windows that each child gets.
    pub shares: Vec<Vec<Window>>,
    /// The late jobs among those that are due before the next one comes.
    pub tally: Tally,
}

impl Level {
    /// Where the next jobs come now, gives the old ones up and lets the new ones come. It is a part
    /// of the loops over events, since at most of them no job comes.
    #[inline(always)]
    pub fn turn(&mut self, sched: Sched, tasks: &[Task])
        requires tasks { AreServerTasks (sporadic_tasks tasks.now) }
        requires few_tasks { length tasks.now < 2 ^ 32 }
        requires one_each { length self.old.servers.items ≡ length tasks.now }
        requires in_time { self.old.time < 2 ^ 63 }
        requires released { self.old.come.released < 2 ^ 32 }
        requires missed { self.old.tally.missed < 2 ^ 32 }
        ensures slots { self.new.slots ≡ self.old.slots }
        ensures time { self.new.time ≡ self.old.time }
        ensures run { (slots : List Bool) → self.old.time < self.old.slots →
            IsUnderway sched (sporadic_tasks tasks.now) slots self.old →
            IsUnderway sched (sporadic_tasks tasks.now) slots self.new }
        ensures next { (slots : List Bool) → self.old.time < self.old.slots →
            IsUnderway sched (sporadic_tasks tasks.now) slots self.old →
            self.new.time < self.new.come.next }
    {
        if self.come.next != self.time {
            return;
        }
        self.renew_now(sched, tasks);
    }

    /// The same where the next jobs come now.
    #[inline(never)]
    fn renew_now(&mut self, sched: Sched, tasks: &[Task])
        requires tasks { AreServerTasks (sporadic_tasks tasks.now) }
        requires few_tasks { length tasks.now < 2 ^ 32 }
        requires one_each { length self.old.servers.items ≡ length tasks.now }
        requires in_time { self.old.time < 2 ^ 63 }
        requires released { self.old.come.released < 2 ^ 32 }
        requires missed { self.old.tally.missed < 2 ^ 32 }
        requires now { self.old.come.next ≡ self.old.time }
        ensures slots { self.new.slots ≡ self.old.slots }
        ensures time { self.new.time ≡ self.old.time }
        ensures run { (slots : List Bool) → self.old.time < self.old.slots →
            IsUnderway sched (sporadic_tasks tasks.now) slots self.old →
            IsUnderway sched (sporadic_tasks tasks.now) slots self.new }
        ensures next { (slots : List Bool) → self.old.time < self.old.slots →
            IsUnderway sched (sporadic_tasks tasks.now) slots self.old →
            self.new.time < self.new.come.next }
    {
        let late = self.servers.as_slice();
        close(&mut self.tally, self.best, late, tasks, self.time);
        self.come = renew(
            &mut self.servers,
            tasks,
            sched,
            self.time,
            self.come.released,
        );
        self.best = choose(&self.servers);
    }

    /// Gives slots up to `until` to the server that goes first, as far as its job lacks them and no
    /// further job comes, or to none where no job lacks any.
    pub fn step(&mut self, until: u64) -> Result<(), AllocError>
        requires later { self.old.time < until }
        requires ready { CanServe self.old }
        ensures slots { OnOk result (self.new.slots ≡ self.old.slots) }
        ensures later { OnOk result (self.old.time < self.new.time) }
        ensures in_time { OnOk result (self.new.time ≤ until) }
        ensures run { (sched : AnySched) (tasks : List SporadicTask) (slots : List Bool) →
            AreConstrained tasks → AreServerTasks tasks → until ≤ self.old.slots →
            ((y : ℕ) → self.old.time ≤ y → y < until → slice_index_or slots y false ≡ true) →
            IsUnderway sched tasks slots self.old →
            OnOk result (IsUnderway sched tasks slots self.new) }
    {
        let until = until.min(self.come.next);
        match self.best {
            None => {
                self.time = until;
            }
            Some(best) => {
                let given = self.servers[best].left.min(until - self.time);
                let end = self.time + given;
                add_window(&mut self.shares[best], self.time, end)?;
                self.servers[best].left -= given;
                self.best = first_after(&self.servers, best);
                self.time = end;
            }
        }
        Ok(())
    }

    /// Before the first slot. `windows` is how many the level has.
    pub fn new(
        alloc: Global,
        tasks: &[Task],
        windows: usize,
        slots: u64,
    ) -> Result<Level, AllocError>
        ensures slots { IfOk result (λ level. level.slots ≡ slots) }
        ensures time { IfOk result (λ level. level.time ≡ 0) }
        ensures state { (sched : AnySched) (given : List Bool) →
            IfOk result (λ level. IsUnderway sched (sporadic_tasks tasks.now) given level) }
    {
        let none = Server {
            left: 0,
            next: 0,
            place: 0,
            key: 0,
            tie: 0,
        };
        let servers = vec![in alloc; none; tasks.len()]?;
        let mut shares = Vec::with_capacity(alloc, tasks.len())?;
        for task in tasks {
            let room = first_room(*task, windows / tasks.len(), slots);
            shares.push(Vec::with_capacity(alloc, room)?)?;
        }
        Ok(Level {
            slots,
            time: 0,
            come: Come {
                released: 0,
                next: 0,
            },
            servers,
            best: None,
            shares,
            tally: Tally {
                missed: 0,
                first: None,
            },
        })
    }

    /// Lets the time go by up to the begin of a window, or up to the end where there is none.
    pub fn pass_to(&mut self, sched: Sched, tasks: &[Task], given: &[Window], at: usize)
        requires tasks { AreServerTasks (sporadic_tasks tasks.now) }
        requires few_tasks { length tasks.now < 2 ^ 32 }
        requires few { length (synchronous (sporadic_tasks tasks.now) 0 self.old.slots) < 2 ^ 32 }
        requires short { self.old.slots < 2 ^ 63 }
        requires windows { AreWindows given.now self.old.slots }
        requires over { (i : ℕ) → i < at → (window_at given.now i).until ≤ self.old.time }
        requires begun { at < length given.now → self.old.time ≤ (window_at given.now at).from }
        requires state { IsUnderway sched (sporadic_tasks tasks.now)
            (slots_of given.now self.old.slots) self.old }
        ensures slots { self.new.slots ≡ self.old.slots }
        ensures begin { at < length given.now → self.new.time ≡ (window_at given.now at).from }
        ensures end { length given.now ≤ at → self.new.time ≡ self.old.slots }
        ensures state { IsUnderway sched (sporadic_tasks tasks.now)
            (slots_of given.now self.old.slots) self.new }
        ensures next { length given.now ≤ at → self.old.slots ≤ self.new.come.next }
    {
        let until = begin_of(given, at, self.slots);
        while self.come.next < until {
            self.time = self.come.next;
            self.turn(sched, tasks);
        }
        self.time = until;
    }

    /// Gives the slots of a window.
    pub fn serve(
        &mut self,
        sched: Sched,
        tasks: &[Task],
        given: &[Window],
        at: usize,
    ) -> Result<(), AllocError>
        requires tasks { AreServerTasks (sporadic_tasks tasks.now) }
        requires few_tasks { length tasks.now < 2 ^ 32 }
        requires few { length (synchronous (sporadic_tasks tasks.now) 0 self.old.slots) < 2 ^ 32 }
        requires short { self.old.slots < 2 ^ 63 }
        requires windows { AreWindows given.now self.old.slots }
        requires inside { at < length given.now }
        requires begun { self.old.time ≡ (window_at given.now at).from }
        requires state { IsUnderway sched (sporadic_tasks tasks.now)
            (slots_of given.now self.old.slots) self.old }
        ensures slots { OnOk result (self.new.slots ≡ self.old.slots) }
        ensures end { OnOk result (self.new.time ≡ (window_at given.now at).until) }
        ensures state { OnOk result (IsUnderway sched (sporadic_tasks tasks.now)
            (slots_of given.now self.old.slots) self.new) }
    {
        let until = given[at].until;
        while self.time < until {
            self.turn(sched, tasks);
            self.step(until)?;
        }
        Ok(())
    }
}

/// Where a window begins, or the end where there is none.
fn begin_of(given: &[Window], at: usize, end: u64) -> u64
    ensures begin { at < length given.now → result ≡ (window_at given.now at).from }
    ensures end { length given.now ≤ at → result ≡ end }
{
    if at < given.len() {
        given[at].from
    } else {
        end
    }
}

/// For how many windows a child's list has room to begin with: one for each of its periods, and as
/// many as there are to cut its slots. The list grows where it gets more.
fn first_room(task: Task, cuts: usize, slots: u64) -> usize
    ensures { result ≤ 131072 }
{
    let periods = slots.div_ceil(task.period);
    periods.saturating_add(cuts as u64).min(MOST_ROOM) as usize
}
