//! What holds of every text. The function does nothing: its contract is the law.
ghost use Rattle.std.specs.Prelude.{◌≡◌, ◌↔◌, ℕ, List, [], IsOk};
ghost use Rattle.std.specs.List.{Contains};
ghost use Rattle.std.specs.Result.{result_err};
ghost use Rattle.config_findings.specs.FaultLists.{ListsAll, text_faults};
ghost use Rattle.tsc_config.specs.FaultSets.{IsLeastOf, TextHas};
ghost use Rattle.tsc_config.specs.Reading.{reading};

/// The list of the faults of a text has each fault that the text has, and no other. So it is empty exactly where the
/// text is read as a configuration, and else that is refused for the least of the list.
pub fn lists_each_fault()
    ensures each { (text : List ℕ) → ListsAll (TextHas text) (text_faults text) }
    ensures least { (text : List ℕ) → IsLeastOf (Contains (text_faults text)) (result_err (reading text)) }
    ensures none { (text : List ℕ) → (text_faults text ≡ []) ↔ IsOk (reading text) }
{}
