//! Faults of expressions as texts, and errors by name. Words, and the piece of one that is refused, stand in guests/runs,
//! guests/messages and guests/conversations.

use std::test::Fail;
use tr_expr::{ExprFault, errno};

/// The faults by number, as their number and text give them.
#[test]
fn numbers_and_texts(rt: HostRuntime) -> Result<(), Fail> {
    for (fault, wanted) in [
        (ExprFault::UnknownCall, "1 no system call has this name"),
        (
            ExprFault::NothingToDo,
            "8 neither an error nor a return value nor a signal is given",
        ),
        (
            ExprFault::UnknownPart,
            "11 a part is not one that this expression takes",
        ),
    ] {
        let number = fault.number();
        assert_eq!(rt;
            format!(in rt.alloc(); "{number} {fault}")?.as_str(),
            wanted
        );
    }
    Ok(())
}

/// An error by its name, or by a number from 1 to 4095.
#[test]
fn errors_by_name_and_number(rt: HostRuntime) {
    for (word, wanted) in [
        ("EIO", Ok(5)),
        ("28", Ok(28)),
        ("4095", Ok(4095)),
        ("0", Err(ExprFault::BadNumber)),
        ("4096", Err(ExprFault::BadNumber)),
        ("EWHAT", Err(ExprFault::UnknownErrno)),
        ("", Err(ExprFault::UnknownErrno)),
    ] {
        assert_eq!(rt; errno(word), wanted, "{word}");
    }
}
