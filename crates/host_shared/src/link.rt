//! A link to a host that other threads turn.

ghost use Rattle.std.specs.Prelude.{◌≡◌, ◌++◌, ◌∷◌, [], ◌≤◌, ◌<◌, ◌^◌, true, false, IfOk, IfErr, OnErr, length};
ghost use Rattle.pt_kernel.specs.Hosts.{is_boot};
ghost use Rattle.transcript.specs.declared.said.Said.TheVariants.{Asked, Answered};
ghost use Rattle.host_shared.specs.Sharing.{Puts, PutSays, Tries, TrySays, IsSharedFault};

use crate::exchanges::Exchanges;
use crate::held::Held;
use crate::shared::SharedHost;
use host_link::link::MOST_REPLIES;
use host_link::{Link, LinkFault};
use lx_abi::{Reply, Request};
use std::sync::Wait;
use transcript::{Naming, Record, Transcript};

/// A request that would boot a host again.
fn is_boot(request: &Request) -> bool
    ensures { result ≡ is_boot request.now }
{
    matches!(request, Request::Boot { .. })
}

/// Refuses a request, under the lock, where no turns are made any more.
fn refuse<J: Naming>(
    held: &mut Held<J>,
    book: &Record<J>,
    mine: &mut Transcript<J>,
    request: Request,
) -> Result<Reply, LinkFault>
    requires { (held.old.failed ≡ false) × (held.old.closed ≡ true) }
    ensures refused { Puts held.old request (Some result) held.new }
    ensures mine { PutSays mine.old request (Some result) mine.new }
{
    if held.is_over() || held.is_pending() {
        return Err(LinkFault::Sequence);
    }
    match held.refuse(book, mine, &request) {
        Ok(()) => Ok(Reply::OutOfTurns),
        Err(_) => Err(LinkFault::Memory),
    }
}

/// Puts a request, under the lock: what it is answered at once, where it isn't put.
fn put<J: Naming>(
    held: &mut Held<J>,
    book: &Record<J>,
    mine: &mut Transcript<J>,
    request: Request,
) -> Option<Result<Reply, LinkFault>>
    requires { is_boot request ≡ false }
    ensures put { Puts held.old request result held.new }
    ensures mine { PutSays mine.old request result mine.new }
{
    if held.has_failed() {
        return Some(Err(LinkFault::Memory));
    }
    if held.is_closed() {
        return Some(refuse(held, book, mine, request));
    }
    if held.is_pending() {
        return Some(Err(LinkFault::Sequence));
    }
    match held.put(book, mine, request) {
        Ok(()) => None,
        Err(_) => Some(Err(LinkFault::Memory)),
    }
}

/// Tries to serve the pending request, under the lock: none where it waits.
fn attempt<J: Naming>(
    held: &mut Held<J>,
    book: &Record<J>,
    mine: &mut Transcript<J>,
) -> Option<Result<Reply, LinkFault>>
    ensures tried { Tries held.old result held.new }
    ensures mine { TrySays mine.old result mine.new }
{
    if held.has_failed() {
        return Some(Err(LinkFault::Memory));
    }
    if held.is_over() || !held.is_pending() {
        return Some(Err(LinkFault::Sequence));
    }
    match held.serve(book, mine) {
        Ok(None) => None,
        Ok(Some(reply)) => Some(Ok(reply)),
        Err(_) => Some(Err(LinkFault::Memory)),
    }
}

/// Asks the host, and waits asleep until its reply can be given. A worker is woken where a process may have a turn now.
fn ask<J: Naming, R: Wait>(
    rt: &R,
    shared: &SharedHost<J>,
    mine: &mut Transcript<J>,
    request: Request,
) -> Result<Reply, LinkFault>
    requires { is_boot request ≡ false }
    ensures said { IfOk result (λ r. mine.new ≡ mine.old ++ Asked request ∷ Answered r ∷ []) }
    ensures fault { IfErr result IsSharedFault }
{
    let mut guard = shared.held.lock(rt);
    if let Some(answer) = put(&mut guard, &shared.book, mine, request) {
        return answer;
    }
    let mut guard = shared.news.wait_while(rt, guard, |held| held.waits());
    let answer = attempt(&mut guard, &shared.book, mine);
    let able = guard.is_able();
    drop(guard);
    if able {
        shared.able.notify_one();
    }
    match answer {
        Some(answer) => answer,
        None => Err(LinkFault::Sequence),
    }
}

/// Asks the host; the request and its reply are known from then on.
fn exchange<J: Naming, R: Wait>(
    rt: &R,
    shared: &SharedHost<J>,
    known: &mut Exchanges<J>,
    request: Request,
) -> Result<Reply, LinkFault>
    requires { length known.old < 2 ^ 40 }
    ensures kept { IfOk result (λ r. known.new ≡ known.old ++ (request, r) ∷ []) }
    ensures fault { IfErr result IsSharedFault }
    ensures unchanged { OnErr result (known.new ≡ known.old) }
{
    if is_boot(&request) {
        return Err(LinkFault::Sequence);
    }
    let mut mine = known.transcript().again();
    match ask(rt, shared, &mut mine, request) {
        Ok(reply) => {
            known.add(mine);
            Ok(reply)
        }
        Err(fault) => {
            drop(mine);
            Err(fault)
        }
    }
}

/// A link to a host under a lock. It waits until another thread's turns let its request be answered.
#[derive(Drop)]
pub struct SharedLink<'a, J: Naming, R: Wait> {
    rt: &'a R,
    shared: &'a SharedHost<J>,
    known: Exchanges<J>,
    is_broken: bool,
    ghost few: { length known ≤ 2 ^ 40 },
}

impl<'a, J: Naming, R: Wait> SharedLink<'a, J, R> {
    ghost use Rattle.host_shared.specs.Links.{exchanges_of, faults_of};

    pub fn new(rt: &'a R, shared: &'a SharedHost<J>, said: Transcript<J>) -> Self
        requires { said ≡ [] }
        ensures nothing { exchanges_of result ≡ [] }
        ensures whole { faults_of result ≡ 0 }
    {
        SharedLink {
            rt,
            shared,
            known: Exchanges::none(said),
            is_broken: false,
        }
    }

    /// What was asked and answered, where the link is used no more.
    pub fn into_known(self) -> Exchanges<J>
        ensures { result ≡ exchanges_of self.entry }
    {
        self.known
    }
}

impl<'a, J: Naming, R: Wait> Link for SharedLink<'a, J, R> {
    ghost use Rattle.host_shared.specs.Links.{exchanges_of, faults_of};
    ghost use Rattle.host_shared.specs.Sharing.{Calls};
    ghost use Rattle.std.specs.Prelude.{length};

    ghost answers = { λ a q r b. Calls (λ l. exchanges_of l) (λ l. faults_of l) a q r b };

    ghost given = { λ l. length (exchanges_of l) };

    ghost broken = { λ l. faults_of l };

    fn call(&mut self, request: Request) -> Result<Reply, LinkFault> {
        if self.is_broken {
            return Err(LinkFault::Ended);
        }
        if self.known.len() >= MOST_REPLIES {
            self.is_broken = true;
            return Err(LinkFault::TooMany);
        }
        match exchange(self.rt, self.shared, &mut self.known, request) {
            Ok(reply) => Ok(reply),
            Err(fault) => {
                self.is_broken = true;
                Err(fault)
            }
        }
    }

    fn asked(&self) -> u64 {
        self.known.len()
    }

    fn faults(&self) -> u64 {
        u64::from(self.is_broken)
    }
}
