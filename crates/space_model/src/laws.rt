//! Laws of the definitions, each the contract of a function that does nothing. They show that the definitions hold
//! together, as a reader of mmap(2) and proc_pid_maps(5) expects: each call has one answer, an area is a maximal run of
//! pages of one kind, and a fault finds what a Map gave. Which place, effect and refusal are the right ones, the
//! definitions alone say; tests compare them with worked cases.

ghost use Rattle.std.specs.Prelude.{ℕ, Bool, List, ◌+◌};
ghost use Rattle.page_types.specs.declared.calls.Call.{Call};
ghost use Rattle.page_types.specs.declared.sets.Access.{Access};
ghost use Rattle.page_types.specs.declared.sets.MapFlags.{MapFlags};
ghost use Rattle.page_types.specs.declared.sets.Prot.{Prot};
ghost use Rattle.space_model.specs.declared.areas.Area.{Area};
ghost use Rattle.space_model.specs.Areas.{IsAreaList, OnlyOneHasKinds};
ghost use Rattle.space_model.specs.Laws.{HasSomeAnswer, HasOneAnswer, LeavesAreaList, FaultFindsMapped, DoneTwiceIsOnce, AddsFewRows, SimpleInFourCases};
ghost use Rattle.space_model.specs.Laws.{AsksFewRowsMore, RowsAreStarts, AreasAreMaximalRuns, GrantsWhatThePageAllows, SimpleKeepsRows};
ghost use Rattle.space_model.specs.Laws.{SealedPagesStay, EndsInItsWindow, RemapsItsPages, KeepsToItsHeap};
ghost use Rattle.space_model.specs.Laws.{LeavesAreaListAfter, LeavesOneList, LegalLeavesList, BeginningsAreLegal, StateAfterBoth, SameCallsSameReplies};
ghost use Rattle.space_model.specs.declared.entries.Entry.{Entry};

/// Only one area list has given kinds.
pub fn only_one_list_has_kinds()
    ensures { (A B : List Area) → OnlyOneHasKinds A B }
{}

/// Each call on an area list has one answer, and leaves one list, which is an area list.
pub fn calls_have_one_answer()
    ensures some { (A : List Area) (c : Call) → IsAreaList A → HasSomeAnswer A c }
    ensures one { (A : List Area) (c : Call) → HasOneAnswer A c }
    ensures list { (A : List Area) (c : Call) → IsAreaList A → LeavesAreaList A c }
{}

/// A fault on a page that a Map has just placed is granted, or refused for a missing bit, with just the kind that
/// the Map gave.
pub fn faults_find_what_was_mapped()
    ensures { (A : List Area) (addr len : ℕ) (prot : Prot) (flags : MapFlags) (byte : ℕ) (access : Access) →
        FaultFindsMapped A addr len prot flags byte access }
{}

/// A Map that binds no address is placed at or above `LOWEST`, and its pages end in the window of its hint: no page at
/// or above `LOW` is chosen for a hint below it.
pub fn places_end_in_their_window()
    ensures { (A : List Area) (addr len : ℕ) (prot : Prot) (flags : MapFlags) → EndsInItsWindow A addr len prot flags }
{}

/// An Unmap done twice is an Unmap done once.
pub fn unmap_twice_is_once()
    ensures { (A : List Area) (addr len : ℕ) → DoneTwiceIsOnce A (Call.Unmap addr len) }
{}

/// A Protect done twice with one protection is a Protect done once.
pub fn protect_twice_is_once()
    ensures { (A : List Area) (addr len : ℕ) (prot : Prot) → DoneTwiceIsOnce A (Call.Protect addr len prot) }
{}

/// A Seal done twice is a Seal done once.
pub fn seal_twice_is_once()
    ensures { (A : List Area) (addr len flags : ℕ) → DoneTwiceIsOnce A (Call.Seal addr len flags) }
{}

/// A Remap that was done has left its pages so: the place has the kind that they had, the old ones that aren't in the
/// place are free, and every other page is as before.
pub fn remaps_leave_their_pages()
    ensures { (A : List Area) (addr old new : ℕ) (may : Bool) (hint : ℕ) → RemapsItsPages A addr old new may hint }
{}

/// A Brk changes no page outside of its heap, which goes from the base to the higher one of the ends that it had and
/// was asked for.
pub fn brks_keep_to_their_heap()
    ensures { (A : List Area) (base addr : ℕ) → KeepsToItsHeap A base addr }
{}

/// One call makes at most two rows more at each stretch of pages that it changes: none for a Fault, four for a Remap,
/// and two for every other call.
pub fn calls_add_few_rows()
    ensures { (A : List Area) (c : Call) → IsAreaList A → AddsFewRows A c }
{}

/// A call that is refused for its rows asks for more than `ROWS`, and for at most so many more than there are.
pub fn refused_rows_are_few()
    ensures { (A : List Area) (c : Call) → IsAreaList A → AsksFewRowsMore A c }
{}

/// The number of rows is the number of pages where one starts: page 0, and each page of another kind than the one
/// before it, where a page that isn't mapped counts as one of a kind of its own.
pub fn rows_are_counted_by_their_starts()
    ensures { (A : List Area) → IsAreaList A → RowsAreStarts A }
{}

/// An area of a list is a maximal run of pages of one kind, and each such run is an area of the list.
pub fn areas_are_maximal_runs()
    ensures { (A : List Area) → IsAreaList A → AreasAreMaximalRuns A }
{}

/// A fault is granted exactly where its page has a kind with the access's bit.
pub fn faults_are_granted_by_their_page()
    ensures { (A : List Area) (addr : ℕ) (access : Access) → IsAreaList A → GrantsWhatThePageAllows A addr access }
{}

/// A Protect within one area is simple exactly where the area is sealed, or the change of kinds keeps the rows at the
/// two ends of the span.
pub fn simple_protects_keep_rows()
    ensures { (A : List Area) (a : Area) (addr len : ℕ) (prot : Prot) → IsAreaList A → SimpleKeepsRows A a addr len prot }
{}

/// A Protect within one area that isn't sealed keeps the number of areas and of gaps in four cases and no other:
/// nothing changes; the whole area changes and equals no touching neighbour; its first part takes the kind of the
/// touching area on its left; its last part takes the kind of the touching area on its right.
pub fn simple_protects_are_of_four_kinds()
    ensures { (A : List Area) (a : Area) (addr len : ℕ) (prot : Prot) → IsAreaList A → SimpleInFourCases A a addr len prot }
{}

/// No call changes a sealed page or takes it away: whatever calls are made, it has its kind after them.
pub fn sealed_pages_stay()
    ensures { (A : List Area) (entries : List Entry) → SealedPagesStay A entries }
{}

/// Any entries leave one state from an area list, and it is an area list; a legal history leaves one from any list.
pub fn histories_leave_one_state()
    ensures every { (A : List Area) (entries : List Entry) → IsAreaList A → LeavesAreaListAfter A entries }
    ensures one { (A : List Area) (entries : List Entry) → LeavesOneList A entries }
    ensures some { (A : List Area) (entries : List Entry) → LegalLeavesList A entries }
{}

/// Every beginning of a legal history is legal.
pub fn beginnings_are_legal()
    ensures { (A : List Area) (first more : List Entry) → BeginningsAreLegal A first more }
{}

/// The state after entries and then others is the state after both.
pub fn states_follow_one_another()
    ensures { (A : List Area) (first more : List Entry) (C : List Area) → StateAfterBoth A first more C }
{}

/// Two legal histories from one state with the same calls in the same order have the same numbers and replies:
/// worker, line and what was held don't count.
pub fn same_calls_have_same_replies()
    ensures { (A : List Area) (entries others : List Entry) → SameCallsSameReplies A entries others }
{}
