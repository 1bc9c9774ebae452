//! Laws of the two relations, each the contract of a function that does nothing: a text has one outcome. The readers
//! say so only of texts that they were given; the crates above need it of texts as such, as of the lines of a whole
//! input. `specs/Laws.antt` has the statement.

ghost use Rattle.std.specs.Prelude.{ℕ, ◌≤◌, List, length, Option};
ghost use Rattle.page_types.specs.declared.calls.Call.{Call};
ghost use Rattle.page_types.specs.Named.{IsNamedCall};
ghost use Rattle.strace_reader.specs.declared.item.Recorded.{Recorded};
ghost use Rattle.strace_reader.specs.declared.joiner.Fed.{Fed};
ghost use Rattle.strace_reader.specs.Grammar.{Spells, Refuses};
ghost use Rattle.strace_reader.specs.Joining.{IsAnswer, RefusesFed, CountsKept};
ghost use Rattle.strace_reader.specs.Laws.{HasOneOutcome};
ghost use Rattle.strace_reader.specs.Maps.{SpellsMaps, RefusesMaps};

/// A line of a trace is at most one item, is refused at no more than one column and for one cause, and is never both.
pub fn lines_have_one_outcome()
    ensures { (text : List ℕ) → HasOneOutcome (Spells text) (Refuses text) }
{}

/// A line of a maps file is at most one item, has at most one refusal, and never both.
pub fn maps_lines_have_one_outcome()
    ensures { (text : List ℕ) → HasOneOutcome (SpellsMaps text) (RefusesMaps text) }
{}

/// A text that is fed behind others answers one thing at most, is refused at no more than one column and for one cause,
/// and is never both.
pub fn fed_texts_have_one_outcome()
    ensures { (fed : List (List ℕ)) (text : List ℕ) → HasOneOutcome (IsAnswer fed text) (RefusesFed fed text) }
{}

/// The sets of bits of a call that a text answers behind others have no bit but the named ones.
pub fn fed_calls_are_named()
    ensures { (fed : List (List ℕ)) (text : List ℕ) (pid : ℕ) (call : Call) (recorded : Option Recorded) (skipped : ℕ)
        → IsAnswer fed text (Fed.Played pid call recorded skipped) → IsNamedCall call }
{}

/// No more first halves are left than texts were fed.
pub fn no_more_halves_than_texts()
    ensures { (fed : List (List ℕ)) (count : ℕ) → CountsKept fed count → count ≤ length fed }
{}
