//! Schedules made of texts.

use pt_kernel::Schedule;
use std::alloc::Global;
use std::test::Fail;

fn is_read(alloc: Global, text: &str) -> bool {
    match Schedule::parse(alloc, text, 10) {
        Ok(schedule) => {
            drop(schedule);
            true
        }
        Err(_) => false,
    }
}

/// Memory is there for a short text and for a long one.
#[test]
fn ample_memory(rt: HostRuntime) -> Result<(), Fail> {
    for count in [1usize, 50_000] {
        let text = "1. -2 s 3\n".repeat(rt.alloc(), count)?;
        assert!(rt; is_read(rt.alloc(), text.as_str()), "{count}");
    }
    Ok(())
}
