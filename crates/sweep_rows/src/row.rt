//! What came of a case.

use crate::files::FileNote;
use crate::streams::Streams;
use crate::verdicts::Verdict;
use crate::wanted::Case;
use containers::Seq;
use lx_abi::Ended;

/// A case, and what came of its run.
#[derive(Drop)]
pub struct Row {
    pub case: Case,
    pub verdict: Verdict,
    /// The wait word of process 1, if it ended.
    pub word: Option<u32>,
    /// The processes that ended.
    pub ended: Seq<Ended>,
    /// The files that the run leaves otherwise than the reference.
    pub files: Vec<FileNote>,
    pub streams: Streams,
    /// A rule of a script, which is for each tracee, comes to the same run.
    pub has_words: bool,
}
