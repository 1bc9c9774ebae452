//! What the rule of the words comes to between any two steps of any threads. It is a public function with nothing to
//! run, whose contract names the statement; a reader may rely on it whatever calls the threads make.
ghost use Rattle.event_count.specs.Events.{CountsEachSleeper};

/// Between any two steps the first word is the number of seats that are counted, so a load of it finds each of them;
/// and the event word is how often it was advanced, round the end of 64 bits. It does nothing.
pub fn counts_each_sleeper()
    ensures { CountsEachSleeper }
{}
