//! What the table's rule comes to between any two steps of any threads. It is a public function with nothing to run,
//! whose contract names the statement; a reader may rely on it whatever calls the threads make.
ghost use Rattle.page_touch.specs.Touched.{KeepsFirstTouches};

/// Between any two steps each page stands in at most one word. A page that stands in one is in the list of First
/// answers of exactly one seat, once, and every other page is in no such list. It does nothing.
pub fn keeps_first_touches()
    ensures { KeepsFirstTouches }
{}
