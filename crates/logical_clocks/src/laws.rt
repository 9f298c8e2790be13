ghost use Rattle.logical_clocks.specs.TurnOrder.{LeastIsFound};

/// Whoever tests the threads one after another, and stops at the first that
/// passes, has found the least that does. The body is empty: the
/// contract is the law.
pub fn least_is_found()
    ensures { LeastIsFound }
{}
