// The task records that are lent for a rehearsal, and the list that is made of them.

#![tactic(auto)]

ghost use Rattle.std.specs.Prelude.{◌≡◌, ◌<◌, set};
ghost use Rattle.task_list.specs.Tasks.{most, no_tasks};

// A task: its subject, and its place in the script area, a start and a count of requests. Three bytes for C, without padding.
#[repr(C)]
#[derive(Clone, Copy)]
pub struct Task {
    pub subject: u8,
    pub start: u8,
    pub count: u8,
}

// As many tasks as a rehearsal has.
pub const MOST: usize = 16;

// How many tasks were lent, and the first sixteen of them; behind these stand tasks without a request.
#[derive(Clone, Copy)]
pub struct TaskList {
    pub count: usize,
    pub tasks: [Task; MOST],
}

// A task without a request.
const NO_TASK: Task = Task {
    subject: 0,
    start: 0,
    count: 0,
};

impl TaskList {
    // A list of as many tasks as are lent, before any of them is copied.
    fn lent(count: usize) -> TaskList
        ensures { result ≡ no_tasks count }
    {
        TaskList {
            count,
            tasks: [NO_TASK; MOST],
        }
    }

    // Copies a task to place i.
    fn put(&mut self, i: usize, task: Task)
        requires { i < most }
        ensures { (self.new.count ≡ self.old.count) × (self.new.tasks ≡ set self.old.tasks i task) }
    {
        self.tasks[i] = task;
    }
}
