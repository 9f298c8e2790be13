ghost use Rattle.deadlocks.specs.Laws.{OnlyPatience, StaysStuck};

/// The law: where calls are blocked for good, by `are_stuck`, each of them still cannot go on: its
/// turn leaves the state as it is, and moves no byte. So nothing but its patience decides how the
/// turn is answered (`answered`). And they are blocked for good after the turn too, if it is
/// answered that the call is blocked (`stays`).
pub fn only_patience_answers()
    ensures answered { OnlyPatience }
    ensures stays { StaysStuck }
{
    sequential_object::nothing_unused_is_held();
    sequential_object::ends_match();
    sequential_object::moved_bytes_are_reported();
}
