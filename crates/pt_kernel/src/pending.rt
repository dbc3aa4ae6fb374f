//! The request that a host has still to answer.

ghost use Rattle.std.specs.Prelude.{◌≡◌, None, Some, false, is_some};
ghost use Rattle.pt_kernel.specs.Hosts.{is_boot};
ghost use Rattle.pt_kernel.specs.Asking.{request_of};

use lx_abi::{Ask, Request};
use std::marker::Model;

/// A request but a boot, since a host is booted before it is asked anything. It is small, and moved in each round.
#[derive(Drop)]
pub enum Asked {
    Wait,
    To { pid: u32, ask: Ask },
    Outcome,
}

/// The pending request, if there is one.
#[derive(Drop)]
pub struct Pending {
    pub asked: Option<Asked>,
}

impl Model for Pending {
    ghost use Rattle.std.specs.Prelude.{Option, option_map};
    ghost use Rattle.lx_abi.specs.declared.ptrace.Request.{Request};
    ghost use Rattle.pt_kernel.specs.Asking.{request_of};

    ghost Value = { Option Request };

    ghost view = { λ p. option_map request_of p.asked };
}

fn to_ask(request: Request) -> Asked
    requires { is_boot request ≡ false }
    ensures { request_of result ≡ request }
{
    match request {
        Request::Boot { .. } => unreachable!(),
        Request::Wait => Asked::Wait,
        Request::To { pid, ask } => Asked::To { pid, ask },
        Request::Outcome => Asked::Outcome,
    }
}

impl Pending {
    pub fn none() -> Self
        ensures { result ≡ None }
    {
        Pending { asked: None }
    }

    pub fn of(request: Request) -> Self
        requires { is_boot request ≡ false }
        ensures { result ≡ Some request }
    {
        Pending {
            asked: Some(to_ask(request)),
        }
    }

    pub fn is_some(&self) -> bool
        ensures { result ≡ is_some self.now }
    {
        self.asked.is_some()
    }
}
