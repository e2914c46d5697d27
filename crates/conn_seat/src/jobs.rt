ghost use Rattle.std.specs.Prelude.{◌≡◌, ◌↔◌, true};

use cable_model::Task;
use run_queue::Taken;

/// The piece that is out as a job, and what it needs from its connection.
#[derive(Debug, Drop)]
pub struct Job {
    pub taken: Taken,
    pub task: Task,
}

impl Job {
    /// Whether this is what its piece needs from its connection. It takes no memory.
    pub fn needs(&self, task: &Task) -> bool
        ensures { (result ≡ true) ↔ (self.now.task ≡ task.now) }
    {
        self.task == *task
    }
}
