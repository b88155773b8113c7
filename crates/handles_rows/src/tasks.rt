//! The tasks that make calls, each by its number, and whether they were woken.
use crate::row::Row;
use futures::task::{Context, Doorbell, Poll, Solo, Source, Waker};
use qh_base::Side;
use row_text::RowFault;
use std::alloc::AllocGlobal;
use std::io;
use std::random::RandomSource;

// How many tasks there are: those of rows, and one for each driver.
const COUNT: usize = 10;

/// A task, with a waker of its own that nobody uses, so that it may be idle whatever its poll left behind.
#[derive(Drop)]
pub(crate) struct Task {
    pub(crate) solo: Solo,
    pub(crate) source: Source,
    pub(crate) slot: Option<Waker>,
}

impl Task {
    fn new<R>(rt: &R) -> io::Result<Task>
    where
        R: RandomSource + AllocGlobal,
    {
        let mut task = Task {
            solo: Solo::new(rt, Doorbell::spinning())?,
            source: Source::new(),
            slot: None,
        };
        task.rest();
        Ok(task)
    }

    /// A poll that did nothing: whatever woke it before is forgotten.
    fn rest(&mut self) {
        let cx = self.solo.begin();
        leave(cx, &self.source, &mut self.slot);
    }

    // Whether it was woken since its last poll began.
    fn is_woken(&self) -> bool {
        match self.solo.sleep() {
            Some(asleep) => {
                asleep.end();
                false
            }
            None => true,
        }
    }
}

/// The end of a poll, after which the task is idle unless it was woken.
pub(crate) fn leave(mut cx: Context<'_>, source: &Source, slot: &mut Option<Waker>) {
    let _idle: Poll<()> = cx.register(source, slot);
    cx.park();
}

/// The tasks.
#[derive(Drop)]
pub(crate) struct Tasks {
    tasks: Vec<Task>,
}

impl Tasks {
    pub(crate) fn new<R>(rt: &R) -> io::Result<Tasks>
    where
        R: RandomSource + AllocGlobal,
    {
        let mut tasks = Vec::new(rt.alloc());
        for _task in 0..COUNT {
            tasks.push(Task::new(rt)?)?;
        }
        Ok(Tasks { tasks })
    }

    /// The task of this number. Without one there is no answer.
    pub(crate) fn get(&mut self, number: usize, row: &mut Row<'_>) -> Option<&mut Task> {
        let task = self.tasks.get_mut(number);
        if task.is_none() {
            row.fail(RowFault::Form);
        }
        task
    }

    /// Puts the numbers of the tasks that were woken, each since its last poll or since this was asked last.
    pub(crate) fn put_woken(&mut self, row: &mut Row<'_>) {
        for number in 0..self.tasks.len() {
            if let Some(task) = self.tasks.get_mut(number)
                && task.is_woken()
            {
                task.rest();
                row.put_comma();
                put_task(number, row);
            }
        }
        if row.is_empty() {
            row.put("-");
        }
    }
}

/// The number of the task of an end's driver.
pub(crate) fn driver_of(side: Side) -> usize {
    match side {
        Side::Client => COUNT - 2,
        Side::Server => COUNT - 1,
    }
}

fn put_task(number: usize, row: &mut Row<'_>) {
    if number == driver_of(Side::Client) {
        row.put("client");
    } else if number == driver_of(Side::Server) {
        row.put("server");
    } else {
        row.put_count("", number as u64);
    }
}
