//! Laws of runs, each the contract of a function that has nothing to do. A reader may rely on a run by one worker being
//! decided by its words and its input alone, and on a printed log being one that a check finds legal.
ghost use Rattle.trace_driver.specs.Laws.{OneWorkerPlaysOneHistory, OneWorkerHasOneReport, HasGoodLog};

use crate::status::Status;
use history_check::printed_logs_are_good;

/// By one worker, lines from given areas have one order, one reply each, and leave one list of areas. It does nothing.
pub fn one_worker_plays_one_history()
    ensures { OneWorkerPlaysOneHistory }
{}

/// By one worker, words and the bytes of an input have one report: one history, one list of last areas, the same bytes.
/// A load has one whatever the input is. It does nothing.
pub fn one_worker_has_one_report()
    ensures { OneWorkerHasOneReport }
{}

/// Whatever is printed of the history that a status carries, with its log, is a good log. It only looks at the entries.
pub fn carried_logs_are_good(status: &Status)
    ensures { HasGoodLog status.now }
{
    if let Status::Done(Some(closed)) = status {
        printed_logs_are_good(closed.entries());
    }
}
