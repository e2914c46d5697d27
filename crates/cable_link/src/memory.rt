ghost use Rattle.std.specs.Prelude.{◌≡◌, []};
ghost use Rattle.cable_link.specs.Memory.{AllCome};

use crate::links::{Came, Link};
use cable_base::{FailingCalls, Text, Trouble};
use std::alloc::Global;
use std::collections::VecDeque;
use std::marker::Model;

/// A link in memory, for tests: it tells what is to come and what was said, and fails at the calls that it is told.
#[derive(Debug, Drop)]
pub struct MemLink {
    coming: VecDeque<Came>,
    said: Vec<Text>,
    failing: FailingCalls,
    faults: u64,
    alloc: Global,
}

impl Model for MemLink {
    ghost use Rattle.cable_link.specs.Memory.{AllCome, MemTalk};

    ghost Value = { MemTalk };

    ghost view = { λ a. record { coming = a.coming.items; said = a.said.items; failing = a.failing; faults = a.faults } };

    ghost invariant = { λ a. AllCome a.coming.items };
}

impl MemLink {
    /// A link from which these come, in order, and to which nothing was said. None of them may be `Quiet`. The calls in `failing` fail:
    /// calls of `next` and of `say` are counted together, from 1.
    pub fn new(alloc: Global, coming: Vec<Came>, failing: Vec<u64>) -> MemLink
        requires { AllCome coming.items }
        ensures { result ≡ record { coming = coming.items; said = []; failing = record { planned = failing.items; calls = 0 }; faults = 0 } }
    {
        MemLink {
            coming: VecDeque::from(coming),
            said: Vec::new(alloc),
            failing: FailingCalls::new(failing),
            faults: 0,
            alloc,
        }
    }

    /// What was said, in order.
    pub fn said(&self) -> &[Text]
        ensures { result.now ≡ self.now.said }
    {
        self.said.as_slice()
    }
}

impl Link for MemLink {
    ghost use Rattle.std.specs.Prelude.{Some};
    ghost use Rattle.cable_link.specs.Memory.{Gives, Says};

    ghost coming = { λ l. Some l.coming };

    ghost said = { λ l. Some l.said };

    ghost faults = { λ l. l.faults };

    ghost gives = { λ old result new. Gives old result new };

    ghost says = { λ old text result new. Says old text result new };

    fn next(&mut self) -> Result<Came, Trouble> {
        if self.failing.next_fails() {
            self.faults = self.faults.saturating_add(1);
            return Err(Trouble::Failed);
        }
        let Some(came) = self.coming.pop_front() else {
            return Ok(Came::Quiet);
        };
        Ok(came)
    }

    fn say(&mut self, text: &str) -> Result<(), Trouble> {
        if self.failing.next_fails() {
            self.faults = self.faults.saturating_add(1);
            return Err(Trouble::Failed);
        }
        let text = Text::new(self.alloc, text)?;
        if self.said.push(text).is_err() {
            return Err(Trouble::OutOfMemory);
        }
        Ok(())
    }
}
