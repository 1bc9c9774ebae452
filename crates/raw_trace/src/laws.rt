//! Laws of the rewriting of a log, each the contract of a function that does nothing. They say what the definitions
//! come to for a reader of the lines: the calls and their order. `specs/Laws.antt` has the statements.

ghost use Rattle.raw_trace.specs.Laws.{KeepsCalls, KeepsOrders, KeepsGoodLines, KeepsGoodTexts, HasOneRewriting, HasOneFault};

/// What is written is read as just the calls of the log, in the order of the rule; where the heap is mapped over, each
/// brk as what it did. No line that is written is refused.
pub fn rewriting_keeps_calls()
    ensures { KeepsCalls }
{}

/// Each process has the same lines in the same order, whichever calls free pages for others.
pub fn rewriting_keeps_orders()
    ensures { KeepsOrders }
{}

/// A line that is read as a whole and stays so is written byte for byte.
pub fn good_lines_stay()
    ensures { KeepsGoodLines }
{}

/// Texts that are all good lines are written byte for byte, where the heap isn't mapped over.
pub fn good_texts_stay()
    ensures { KeepsGoodTexts }
{}

/// A log is rewritten in one way.
pub fn has_one_rewriting()
    ensures { HasOneRewriting }
{}

/// A log has one fault at most, but for want of memory.
pub fn has_one_fault()
    ensures { HasOneFault }
{}
