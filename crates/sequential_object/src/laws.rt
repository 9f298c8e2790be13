ghost use Rattle.sequential_object.specs.Ends.{StartsMatched, StepsKeepMatched};
ghost use Rattle.sequential_object.specs.Locked.{KeepsOutside, LeavesAlike, OutsideLocks};
ghost use Rattle.sequential_object.specs.Renaming.{DecidesAlike};
ghost use Rattle.sequential_object.specs.So.{DecidedSo};
ghost use Rattle.sequential_object.specs.Step.{FailChangesNothing};
ghost use Rattle.sequential_object.specs.Unused.{EndsAreOpen, StartsTidy, StepsKeepTidy};
ghost use Rattle.sequential_object.specs.Waiting.{AgainMovesInParts, MovedBytesAreReported};

/// A law of the sequential object: a call that fails leaves the state as it was, but for a `close` of a door's
/// last descriptor.
pub fn failed_calls_change_nothing()
    ensures { FailChangesNothing }
{}

/// A turn at which a call waits leaves the state as it was, but for a write of more than `PIPE_BUF`
/// bytes to a pipe: it may have added its next bytes to the pipe. What a write hands on to its next
/// turn counts all the bytes that it added (`again`). A write that moved bytes is never answered a
/// failure: it is answered as many at least, or hands as many on (`reported`). Of states whose
/// descriptions are of ends that their objects have, as all are that arise (`ends_match`).
pub fn moved_bytes_are_reported()
    ensures again { AgainMovesInParts }
    ensures reported { MovedBytesAreReported }
{}

/// A call that goes outside takes the lock of a door, or of the one that it would open (`locks`). The calls that
/// open one keep the table where they go outside, and no others (`keeps`); so what a call leaves that frees the
/// table before it goes is the same whatever its outcome (`leaves`).
pub fn calls_outside()
    ensures locks { OutsideLocks }
    ensures keeps { KeepsOutside }
    ensures leaves { LeavesAlike }
{}

/// The maps hold nothing unused: each description has a descriptor, a pipe, a pair and a door have
/// a description, and a file has a description or a path. And what is referred to is there: the
/// description of a descriptor, the object of a description, and the file that a path names. The
/// keys of descriptions and of objects are below the next ones, so that a new key is none that is
/// in use. It is so at the start (`starts`), and each turn of each call keeps it so (`steps`),
/// whether it succeeds, fails or waits, and while its outcome is missing. So a pipe, a pair or a
/// door has an end exactly when some description is of it (`ends`).
pub fn nothing_unused_is_held()
    ensures starts { StartsTidy }
    ensures steps { StepsKeepTidy }
    ensures ends { EndsAreOpen }
{}

/// Each description is of an end that its object has: of the only one of a file, of one of the two
/// of a pipe or of a pair, or of the door that the object is. It is so at the start (`starts`), and
/// each turn of each call keeps it so where nothing unused is held (`steps`).
pub fn ends_match()
    ensures starts { StartsMatched }
    ensures steps { StepsKeepMatched }
{}

/// What a change and an act need was looked up, and so was the door that a call locks or the
/// listener that it takes along.
pub fn decided_so()
    ensures { DecidedSo }
{}

/// What is decided does not depend on which names objects and descriptions have.
pub fn names_do_not_matter()
    ensures { DecidesAlike }
{}
