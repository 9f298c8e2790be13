ghost use Rattle.file_descriptions.specs.Laws.{ChangesKeepSound};

/// A law of the descriptions: what holds of every map of them goes on holding where one is made, changed or
/// removed.
pub fn changes_keep_sound()
    ensures { ChangesKeepSound }
{}
