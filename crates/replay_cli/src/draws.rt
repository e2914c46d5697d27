ghost use Rattle.std.specs.Prelude.{◌≡◌, ◌≤◌, IfOk};
ghost use Rattle.replay_cli.specs.Made.{draw_of, conn_no, node_no, moment_of, subscribe_text, unsubscribe_text, speak_text, says, casts, verb_of_draw};
ghost use Rattle.replay_cli.specs.Modes.{most_made};

use cable_base::{ConnNo, Millis, Name, NodeNo, OutOfMemory, Text};
use cable_model::{Event, Verb};
use std::alloc::Global;
use std::marker::Model;

const RETENTION: Millis = Millis(60_000);

const BATCH: u64 = 10;

/// What a draw says.
#[derive(Debug, Drop)]
pub struct Draw {
    /// Which line it is.
    kind: u32,
    conn: u32,
    room: u32,
    node: u32,
    /// The place of its line, counted from 1.
    place: u64,
}

impl Model for Draw {
    ghost use Rattle.replay_cli.specs.Made.{Draw as Said};

    ghost Value = { Said };

    ghost view = { λ d. record { kind = d.kind; conn = d.conn; room = d.room; node = d.node; place = d.place } };
}

impl Draw {
    pub fn of(place: u64, word: u32) -> Draw
        ensures { result ≡ draw_of place word }
    {
        Draw {
            kind: word % 16,
            conn: 1 + word / 16 % 8,
            room: word / 128 % 4,
            node: 1 + word / 512 % 2,
            place,
        }
    }

    fn conn(&self) -> ConnNo
        ensures { result ≡ conn_no self.now.conn }
    {
        ConnNo(u64::from(self.conn))
    }

    fn node(&self) -> NodeNo
        ensures { result ≡ node_no self.now.node }
    {
        NodeNo(self.node)
    }

    /// A line a second.
    fn moment(&self) -> Millis
        requires { self.now.place ≤ most_made }
        ensures { result ≡ moment_of self.now }
    {
        Millis(1_000 * self.place)
    }

    fn subscribe(&self, alloc: Global) -> Result<Text, OutOfMemory>
        ensures { IfOk result (λ t. t ≡ subscribe_text self.now) }
    {
        Text::of(format!(in alloc;
            "{{\"command\":\"subscribe\",\"identifier\":\"{{\\\"channel\\\":\\\"Chat\\\",\\\"room\\\":{}}}\"}}",
            self.room
        )?)
    }

    fn unsubscribe(&self, alloc: Global) -> Result<Text, OutOfMemory>
        ensures { IfOk result (λ t. t ≡ unsubscribe_text self.now) }
    {
        Text::of(format!(in alloc;
            "{{\"command\":\"unsubscribe\",\"identifier\":\"{{\\\"channel\\\":\\\"Chat\\\",\\\"room\\\":{}}}\"}}",
            self.room
        )?)
    }

    fn speak(&self, alloc: Global) -> Result<Text, OutOfMemory>
        ensures { IfOk result (λ t. t ≡ speak_text self.now) }
    {
        Text::of(format!(in alloc;
            "{{\"command\":\"message\",\"identifier\":\"{{\\\"channel\\\":\\\"Chat\\\",\\\"room\\\":{}}}\",\"data\":\"{{\\\"action\\\":\\\"speak\\\",\\\"i\\\":{}}}\"}}",
            self.room, self.place
        )?)
    }

    fn says(&self, text: Text) -> Verb
        ensures { result ≡ says self.now text }
    {
        Verb::One {
            event: Event::In {
                conn: self.conn(),
                text,
            },
        }
    }

    fn cast(&self, alloc: Global) -> Result<Verb, OutOfMemory>
        requires { self.now.place ≤ most_made }
        ensures { IfOk result (λ v. v ≡ casts self.now) }
    {
        let channel = Text::of(format!(in alloc; "room_{}", self.room)?)?;
        let payload = Text::of(format!(in alloc; "{{\"i\":{}}}", self.place)?)?;
        Ok(Verb::One {
            event: Event::Cast {
                at: self.moment(),
                channel: Name::of(channel),
                payload,
            },
        })
    }

    /// The line of this draw.
    pub fn verb(&self, alloc: Global) -> Result<Verb, OutOfMemory>
        requires { self.now.place ≤ most_made }
        ensures { IfOk result (λ v. v ≡ verb_of_draw self.now) }
    {
        let event = match self.kind {
            0 => return Ok(self.says(self.subscribe(alloc)?)),
            1 => return Ok(self.says(self.unsubscribe(alloc)?)),
            2..=3 => return Ok(self.says(self.speak(alloc)?)),
            4..=8 => {
                return Ok(Verb::Work {
                    conn: self.conn(),
                    at: self.moment(),
                    puts: 1,
                });
            }
            9..=10 => return self.cast(alloc),
            11 => Event::Ask { node: self.node() },
            12 => Event::Read { node: self.node() },
            13 => Event::Deliver { node: self.node() },
            14 => Event::Trim {
                now: self.moment(),
                retention: RETENTION,
                batch: BATCH,
            },
            _ => Event::Beat {
                node: self.node(),
                now: self.moment(),
            },
        };
        Ok(Verb::One { event })
    }
}
