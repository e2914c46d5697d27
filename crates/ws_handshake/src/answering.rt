ghost use Rattle.std.specs.Prelude.{◌≡◌};
ghost use Rattle.ws_handshake.specs.Stages.{IsRulingBy};

use crate::answers::refusal;
use crate::rulings::Ruling;
use std::alloc::Global;
use std::sync::Arc;
use ws_gate::Rules;

/// An answer that is being written.
#[derive(Drop)]
pub(crate) struct Answering {
    rules: Arc<Rules, Global>,
    ruling: Ruling,
    // How many bytes of the answer the stream has taken.
    taken: usize,
    ghost follows: { ∥ IsRulingBy rules.value ruling ∥₁ },
}

impl Answering {
    /// Nothing of the answer is written yet.
    pub(crate) fn new(rules: Arc<Rules, Global>, ruling: Ruling) -> Answering
        requires { ∥ IsRulingBy rules.value ruling ∥₁ }
        ensures { result.rules ≡ rules }
    {
        Answering {
            rules,
            ruling,
            taken: 0,
        }
    }

    /// What the stream hasn't taken yet.
    pub(crate) fn rest(&self) -> &[u8] {
        let answer = match &self.ruling {
            Ruling::LetIn(_, answer) => answer.as_slice(),
            Ruling::KeptOut(denial) => refusal(*denial),
        };
        answer.get(self.taken..).unwrap_or(&[])
    }

    /// The stream has taken so many bytes more.
    pub(crate) fn take(&mut self, count: usize)
        ensures { self.new.rules ≡ self.old.rules }
    {
        self.taken = self.taken.saturating_add(count);
    }

    /// The ruling, once all is written.
    pub(crate) fn into_ruling(self) -> Ruling
        ensures { ∥ IsRulingBy self.rules.value result ∥₁ }
    {
        self.ruling
    }
}
