ghost use Rattle.json_views.specs.Exact.{ValuesAreExact};

/// The law of values: an object or an array has no float where nothing in it has one, and neither
/// has a number, a text or a row. So [`push_line`](crate::push_line) takes it.
pub fn values_are_exact()
    ensures { ValuesAreExact }
{}
