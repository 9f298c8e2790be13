ghost use Rattle.run_pictures.specs.Laws.{EscapedHasNames, EscapedIsHarmless};

/// The law of texts in a page: whatever a run is called, asks or gets, as it stands in the page it
/// has printable bytes of ASCII alone, none of which is `"`, `<` or `>` (`harmless`), and `&` only
/// where `&amp;`, `&lt;`, `&gt;` or `&quot;` begins (`names`). So nothing of it begins or ends a
/// part of the page.
pub fn escaped_is_harmless()
    ensures harmless { EscapedIsHarmless }
    ensures names { EscapedHasNames }
{}
