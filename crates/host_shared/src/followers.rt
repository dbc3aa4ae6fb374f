//! Which process has the next turn after which, as far as it was found out.

ghost use Rattle.std.specs.Prelude.{◌≡◌, ◌%◌, None, Some, IfSome, set, replicate};
ghost use Rattle.host_shared.specs.Following.{Tells};

use std::marker::Model;

/// A process, and the one that has the next turn after its own.
#[derive(Clone, Copy)]
pub struct Follower {
    pub pid: u32,
    pub next: u32,
}

/// How many processes there is room for; one takes the place of another whose pid is the same modulo this.
const ROWS: usize = 32;

/// Who has the next turn after whom, for a few processes.
#[derive(Clone, Copy)]
pub struct Followers {
    rows: [Option<Follower>; ROWS],
}

impl Model for Followers {
    ghost use Rattle.std.specs.Prelude.{List, Option};
    ghost use Rattle.host_shared.specs.declared.followers.Follower.{Follower};

    ghost Value = { List (Option Follower) };

    ghost view = { λ f. f.rows };

    ghost inverse = { λ rows. record { rows = rows } };
}

fn row_of(pid: u32) -> usize
    ensures { result ≡ pid % 32 }
{
    (pid % 32) as usize
}

impl Followers {
    /// Nothing is known.
    pub fn none() -> Self
        ensures { result ≡ replicate 32 None }
    {
        Followers { rows: [None; ROWS] }
    }

    /// Who has the next turn after a process, if that is known.
    pub fn after(&self, pid: u32) -> Option<u32>
        ensures { IfSome result (λ next. Tells self.now pid next) }
    {
        let row = self.rows[row_of(pid)];
        match row {
            Some(row) if row.pid == pid => Some(row.next),
            _ => None,
        }
    }

    /// Who has the next turn after a process is known from now on.
    pub fn learn(&mut self, pid: u32, next: u32)
        ensures { self.new ≡ set self.old (pid % 32) (Some (record { pid = pid; next = next })) }
    {
        self.rows[row_of(pid)] = Some(Follower { pid, next });
    }
}
