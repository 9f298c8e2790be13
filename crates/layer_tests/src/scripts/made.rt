use std::alloc::{AllocError, Global};
use std::test::Fail;
use thread_scripts::{Line, Script};

/// Longer than a text may spell.
const LONG_WORK: u64 = 4_611_686_018_427_387_904;

/// A script of a line that stands here, for which the prover finds that it is a script.
fn long_work(alloc: Global) -> Result<Script, AllocError> {
    let mut lines = Vec::new(alloc);
    lines.push(Line::Work(LONG_WORK))?;
    Ok(Script::of(lines))
}

#[test]
fn a_work_made_in_code_may_be_long(rt: HostRuntime) -> Result<(), Fail> {
    assert!(rt; long_work(rt.alloc())?.lines() == [Line::Work(LONG_WORK)].as_slice());
    Ok(())
}
