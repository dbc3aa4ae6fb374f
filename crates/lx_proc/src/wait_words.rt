//! How processes ended.

ghost use Rattle.std.specs.Prelude.{◌≡◌, OnOk, OnErr, IfOk, map};
ghost use Rattle.std.specs.FinMap as maps;
ghost use Rattle.lx_proc.specs.WaitWords.{ended_of, ends_of};

use containers::Seq;
use lx_abi::Ended;
use std::alloc::{AllocError, Global};
use std::collections::BTreeMap;
use std::marker::Model;

/// The wait word of each process that has ended, by pid.
#[derive(Drop)]
pub struct WaitWords {
    words: BTreeMap<u32, u32>,
}

impl Model for WaitWords {
    ghost use Rattle.std.specs.Coded.{codes};
    ghost use Rattle.std.specs.FinMap as maps;
    ghost use Rattle.lx_proc.specs.WaitWords.{Words};

    ghost Value = { Words };

    ghost coded = { Prim.hlevel (codes, maps.code) };

    ghost view = { λ w. maps.from_entries w.words.entries };
}

fn list_words(alloc: Global, words: &BTreeMap<u32, u32>) -> Result<Seq<Ended>, AllocError>
    ensures { IfOk result (λ l. l ≡ ends_of (maps.from_entries words.now.entries)) }
{
    let mut list = Seq::new(alloc);
    for (pid, word) in words.iter() {
        list.push(Ended {
            pid: *pid,
            word: *word,
        })?;
    }
    Ok(list)
}

impl WaitWords {
    pub fn new(alloc: Global) -> Self
        ensures { result ≡ maps.empty }
    {
        WaitWords {
            words: BTreeMap::new(alloc),
        }
    }

    pub fn insert(&mut self, pid: u32, word: u32) -> Result<(), AllocError>
        ensures ok { OnOk result (self.new ≡ maps.insert self.old pid word) }
        ensures err { OnErr result (self.new ≡ self.old) }
    {
        self.words.insert(pid, word)?;
        Ok(())
    }

    /// Each process that has ended with its wait word, by pid.
    pub fn list(&self, alloc: Global) -> Result<Seq<Ended>, AllocError>
        ensures { IfOk result (λ l. l ≡ ends_of self.now) }
    {
        list_words(alloc, &self.words)
    }
}

impl Clone for WaitWords {
    ghost is_clone = { λ a b. b ≡ a };

    fn clone(&self) -> Result<Self, AllocError> {
        Ok(WaitWords {
            words: self.words.clone()?,
        })
    }
}
