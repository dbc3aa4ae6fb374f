//! Requests.

use crate::copied::{Copied, copy_list};
use crate::same::{Same, same_list};
use lx_abi::{Ask, RegisterSet, Request};
use std::alloc::{AllocError, Global};

impl Copied for RegisterSet {
    fn copy(&self, alloc: Global) -> Result<RegisterSet, AllocError> {
        RegisterSet::new(alloc, self.get())
    }
}

impl Same for RegisterSet {
    fn same(&self, other: &RegisterSet) -> bool {
        self.get() == other.get()
    }
}

impl Copied for Ask {
    fn copy(&self, alloc: Global) -> Result<Ask, AllocError> {
        match self {
            Ask::Seize { options } => Ok(Ask::Seize { options: *options }),
            Ask::SetOptions { options } => Ok(Ask::SetOptions { options: *options }),
            Ask::GetRegs => Ok(Ask::GetRegs),
            Ask::SetRegs { registers } => match registers.copy(alloc) {
                Ok(registers) => Ok(Ask::SetRegs { registers }),
                Err(refused) => Err(refused),
            },
            Ask::Peek { address, length } => Ok(Ask::Peek {
                address: *address,
                length: *length,
            }),
            Ask::Syscall { signal } => Ok(Ask::Syscall { signal: *signal }),
            Ask::EventMsg => Ok(Ask::EventMsg),
            Ask::SigInfo => Ok(Ask::SigInfo),
            Ask::Listen => Ok(Ask::Listen),
        }
    }
}

impl Same for Ask {
    fn same(&self, other: &Ask) -> bool {
        match (self, other) {
            (Ask::Seize { options }, Ask::Seize { options: others }) => options == others,
            (Ask::SetOptions { options }, Ask::SetOptions { options: others }) => options == others,
            (Ask::GetRegs, Ask::GetRegs) => true,
            (Ask::SetRegs { registers }, Ask::SetRegs { registers: others }) => {
                registers.same(others)
            }
            (
                Ask::Peek { address, length },
                Ask::Peek {
                    address: address_of_other,
                    length: length_of_other,
                },
            ) => address == address_of_other && length == length_of_other,
            (Ask::Syscall { signal }, Ask::Syscall { signal: others }) => signal == others,
            (Ask::EventMsg, Ask::EventMsg) => true,
            (Ask::SigInfo, Ask::SigInfo) => true,
            (Ask::Listen, Ask::Listen) => true,
            _ => false,
        }
    }
}

impl Copied for Request {
    fn copy(&self, alloc: Global) -> Result<Request, AllocError> {
        match self {
            Request::Boot { boot, limit, words } => {
                let boot = boot.copy(alloc)?;
                let words = copy_list(alloc, words.as_slice())?;
                Ok(Request::Boot {
                    boot,
                    limit: *limit,
                    words,
                })
            }
            Request::Wait => Ok(Request::Wait),
            Request::To { pid, ask } => match ask.copy(alloc) {
                Ok(ask) => Ok(Request::To { pid: *pid, ask }),
                Err(refused) => Err(refused),
            },
            Request::Outcome => Ok(Request::Outcome),
        }
    }
}

impl Same for Request {
    fn same(&self, other: &Request) -> bool {
        match (self, other) {
            (
                Request::Boot { boot, limit, words },
                Request::Boot {
                    boot: boot_of_other,
                    limit: limit_of_other,
                    words: words_of_other,
                },
            ) => {
                boot.same(boot_of_other)
                    && limit == limit_of_other
                    && same_list(words.as_slice(), words_of_other.as_slice())
            }
            (Request::Wait, Request::Wait) => true,
            (
                Request::To { pid, ask },
                Request::To {
                    pid: pid_of_other,
                    ask: ask_of_other,
                },
            ) => pid == pid_of_other && ask.same(ask_of_other),
            (Request::Outcome, Request::Outcome) => true,
            _ => false,
        }
    }
}
