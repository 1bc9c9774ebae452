//! Laws of the definitions, each the contract of a function that does nothing: kinds before and after have one list of
//! changes, and a history makes one list of them.
ghost use Rattle.std.specs.Prelude.{ℕ, List, Option};
ghost use Rattle.page_types.specs.declared.calls.Kind.{Kind};
ghost use Rattle.space_model.specs.declared.areas.Area.{Area};
ghost use Rattle.space_model.specs.declared.entries.Entry.{Entry};
ghost use Rattle.area_changes.specs.Changes.{HasOneList, MakeOneList};

/// Kinds before and after have one list of changes.
pub fn only_one_list_of_changes()
    ensures { (before after : ℕ → Option Kind) → HasOneList before after }
{}

/// The entries of a history make one list of changes from an area list.
pub fn entries_make_one_list()
    ensures { (A : List Area) (entries : List Entry) → MakeOneList A entries }
{}
