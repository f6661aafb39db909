//! The tasks of a stage.

ghost use Rattle.std.specs.Prelude.{◌≡◌, List, IfOk, slice_get, map, replicate};
ghost use Rattle.aqe_scheduler.specs.Tables.{edited, emptied, ended, failed, fresh, without};

use aqe_base::{ExecId, Memory};
use std::alloc::Global;
use std::marker::Model;

/// What the board keeps of a task.
#[derive(Clone, Copy, Debug, Drop)]
pub struct Task {
    /// Whether an ending of it was counted.
    pub counted: bool,
    /// Where its output stands, while it is there.
    pub on: Option<ExecId>,
    /// The failures that were counted, up to the greatest number of 64 bits.
    pub fails: u64,
}

/// The tasks of a stage by number.
#[derive(Debug, Drop)]
pub struct Tasks {
    items: Vec<Task>,
}

impl Model for Tasks {
    ghost use Rattle.std.specs.Prelude.{List};
    ghost use Rattle.aqe_scheduler.specs.declared.task.Task.{Task};

    ghost Value = { List Task };

    ghost view = { λ t. t.items.items };
}

impl Tasks {
    /// So many tasks, of which none has ended or failed.
    pub fn fresh(alloc: Global, count: u32) -> Result<Tasks, Memory>
        ensures { IfOk result (λ tasks. tasks ≡ replicate count fresh) }
    {
        let task = Task {
            counted: false,
            on: None,
            fails: 0,
        };
        let items = vec![in alloc; task; count as usize]?;
        Ok(Tasks { items })
    }

    /// The task of a number, if there is one.
    pub fn get(&self, task: usize) -> Option<Task>
        ensures { result ≡ slice_get self.now task }
    {
        self.items.get(task).copied()
    }

    /// Notes a counted ending on the executor, which holds the output from now on.
    pub fn end(&mut self, task: u32, executor: ExecId)
        ensures { self.new ≡ edited task (ended executor) self.old }
    {
        let place = task as usize;
        if place < self.items.len() {
            let found = &mut self.items[place];
            found.counted = true;
            found.on = Some(executor);
        }
    }

    /// Notes a failure.
    pub fn fail(&mut self, task: u32)
        ensures { self.new ≡ edited task failed self.old }
    {
        let place = task as usize;
        if place < self.items.len() {
            let found = &mut self.items[place];
            found.fails = found.fails.saturating_add(1);
        }
    }

    /// Takes the output of one task away.
    pub fn take_output(&mut self, task: u32)
        ensures { self.new ≡ edited task emptied self.old }
    {
        let place = task as usize;
        if place < self.items.len() {
            let found = &mut self.items[place];
            found.on = None;
        }
    }

    /// Takes all outputs away that stand on the executor.
    pub fn lose(&mut self, executor: ExecId)
        ensures { self.new ≡ map (without executor.0) self.old }
    {
        for task in self.items.iter_mut() {
            *task = bare(*task, executor);
        }
    }
}

/// The task without an output that stands on the executor.
fn bare(task: Task, executor: ExecId) -> Task
    ensures { result ≡ without executor.0 task }
{
    match task.on {
        Some(on) if executor.0 == on.0 => Task {
            counted: task.counted,
            on: None,
            fails: task.fails,
        },
        _ => task,
    }
}
