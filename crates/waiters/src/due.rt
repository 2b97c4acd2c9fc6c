//! Which answers are due.
ghost use Rattle.std.specs.Prelude.{◌≡◌};
ghost use Rattle.shared_memory.specs.WaitQueue.{answer_due};

use crate::queue::Queue;
use types::Answer;

impl Queue {
    /// The answer that is due to the thread, if one is, which stays due.
    pub fn due(&self, thread: u32) -> Option<Answer>
        ensures { result ≡ answer_due self.now thread }
    {
        *self.due.get(thread as usize)?
    }
}
