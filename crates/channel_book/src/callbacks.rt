ghost use Rattle.std.specs.Prelude.{◌≡◌, ◌≤◌, option_map, length, IfSome, IfOk};
ghost use Rattle.channel_book.specs.Callbacks.{Callbacks};
ghost use Rattle.channel_book.specs.Calls.{Gives, SpeaksJson};

use crate::answers::{Answer, CallFault};
use cable_base::MOST_USER;
use std::alloc::Global;

/// The application's side of a session. Each answer is a function of the value and the arguments.
///
/// `answers` has these functions, one for each call. A call answers what its function gives, or want of memory.
pub trait Callbacks {
    ghost answers: { Self → Callbacks };

    /// The user of a token, which has at most `MOST_USER` bytes, or nothing where the token is unknown.
    fn identify(&self, token: &str) -> Option<&str>
        ensures user { option_map (λ s. s.now) result ≡ (answers self.now).identify token.now }
        ensures short { IfSome result (λ s. length s.now ≤ MOST_USER) };

    /// What happens when a user subscribes with an identifier.
    fn subscribed(&self, alloc: Global, user: &str, identifier: &str) -> Result<Answer, CallFault>
        ensures answer { Gives result ((answers self.now).subscribed user.now identifier.now) }
        ensures json { IfOk result SpeaksJson };

    /// What happens when a subscription ends. Only its casts are used.
    fn unsubscribed(&self, alloc: Global, user: &str, identifier: &str) -> Result<Answer, CallFault>
        ensures answer { Gives result ((answers self.now).unsubscribed user.now identifier.now) }
        ensures json { IfOk result SpeaksJson };

    /// What happens when a user sends a message to a subscription.
    fn perform(
        &self,
        alloc: Global,
        user: &str,
        identifier: &str,
        payload: &str,
    ) -> Result<Answer, CallFault>
        ensures answer { Gives result ((answers self.now).perform user.now identifier.now payload.now) }
        ensures json { IfOk result SpeaksJson };
}
