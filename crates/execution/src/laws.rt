//! Laws of states and their pages.

ghost use Rattle.execution.specs.Laws.{PagesAreShort, PagesDetermine};

/// States with equal pages are equal.
pub fn pages_determine()
    ensures { PagesDetermine }
{}

/// The text of a state's page has at most 66,176 bytes.
pub fn pages_are_short()
    ensures { PagesAreShort }
{}
