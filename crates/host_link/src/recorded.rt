//! A link that gives replies that were kept.

ghost use Rattle.std.specs.Prelude.{◌≡◌};
ghost use Rattle.host_link.specs.Recordings.{recording};

use crate::fault::LinkFault;
use crate::link::{Link, MOST_REPLIES};
use lx_abi::{Reply, Request};
use std::collections::VecDeque;
use std::marker::Model;

/// Gives kept replies one after another, whatever is asked, and Ended after the last.
#[derive(Drop)]
pub struct Recorded {
    /// Those that weren't given yet.
    left: VecDeque<Reply>,
    given: u64,
    broken: bool,
}

impl Model for Recorded {
    ghost use Rattle.std.specs.Prelude.{◌≤◌, ◌^◌};
    ghost use Rattle.host_link.specs.Recordings.{Recording};

    ghost Value = { Recording };

    ghost view = { λ l. record { left = l.left.items; given = l.given; is_broken = l.broken } };

    ghost invariant = { λ l. l.given ≤ 2 ^ 40 };
}

impl Recorded {
    pub fn new(replies: Vec<Reply>) -> Self
        ensures { result ≡ recording replies.items }
    {
        Recorded {
            left: VecDeque::from_vec(replies),
            given: 0,
            broken: false,
        }
    }
}

impl Link for Recorded {
    ghost use Rattle.host_link.specs.Recordings.{broken_of, Replays};

    ghost answers = { λ a _ result b. Replays a result b };

    ghost given = { λ l. l.given };

    ghost broken = { λ l. broken_of l.is_broken };

    fn call(&mut self, _request: Request) -> Result<Reply, LinkFault> {
        if self.broken {
            return Err(LinkFault::Ended);
        }
        if self.given >= MOST_REPLIES {
            self.broken = true;
            return Err(LinkFault::TooMany);
        }
        match self.left.pop_front() {
            Some(reply) => {
                self.given += 1;
                Ok(reply)
            }
            None => {
                self.broken = true;
                Err(LinkFault::Ended)
            }
        }
    }

    fn asked(&self) -> u64 {
        self.given
    }

    fn faults(&self) -> u64 {
        u64::from(self.broken)
    }
}
