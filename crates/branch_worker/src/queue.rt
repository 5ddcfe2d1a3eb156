use slot_box::{Task, Tasks};
use std::alloc::AllocError;
use std::collections::VecDeque;
use std::marker::Model;

/// Tasks that wait: the first that comes leaves first.
#[derive(Drop)]
pub struct TaskQueue {
    tasks: VecDeque<Task>,
}

impl Model for TaskQueue {
    ghost use Rattle.std.specs.Prelude.{List};
    ghost use Rattle.slot_box.specs.Tasks.{TaskParts};

    ghost Value = { List TaskParts };

    ghost view = { λ queue. queue.tasks.items };
}

impl TaskQueue {
    ghost use Rattle.std.specs.Prelude.{◌≡◌, [], ◌∷◌, ◌++◌, OnOk, MatchOption};

    /// The tasks of a list, in its order.
    pub fn of(first: Tasks) -> TaskQueue
        ensures { result ≡ first }
    {
        TaskQueue {
            tasks: VecDeque::from_vec(first.into_vec()),
        }
    }

    /// Adds a task at the end.
    pub fn push(&mut self, task: Task) -> Result<(), AllocError>
        ensures { OnOk result (self.new ≡ self.old ++ task ∷ []) }
    {
        self.tasks.push_back(task).map_err(|_| AllocError)
    }

    /// Takes the first task.
    pub fn pop(&mut self) -> Option<Task>
        ensures { MatchOption result ((self.old ≡ []) × (self.new ≡ [])) (λ task. self.old ≡ task ∷ self.new) }
    {
        self.tasks.pop_front()
    }
}
