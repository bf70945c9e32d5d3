//! What holds of every text. The functions do nothing: their contracts are the laws.
ghost use Rattle.std.specs.Prelude.{ℕ, List};
ghost use Rattle.std.specs.Result.{result_err};
ghost use Rattle.tsc_config.specs.FaultSets.{IsLeastOf, TextHas};
ghost use Rattle.tsc_config.specs.PolicyKeys.{ReadsPolicies};
ghost use Rattle.tsc_config.specs.Reading.{reading};
ghost use Rattle.tsc_config.specs.Settings.{ReadsSettings};

/// What a text is read as is refused for a fault that the text has, and it has none with a lesser number; it is a
/// configuration only where the text has no fault.
pub fn answers_least_fault()
    ensures { (text : List ℕ) → IsLeastOf (TextHas text) (result_err (reading text)) }
{}

/// Each setting of a configuration that a text is read as is what stands at its key, which is within the key's bounds,
/// or else the key's default.
pub fn settings_are_of_their_keys()
    ensures { ReadsSettings }
{}

/// The policies of a configuration that a text is read as are as many as the tables of `policies`, and each, however
/// deep in others, is that of the table at its place: its name, its type, and each of its settings is what stands at
/// its key, or else the key's default. The parts of a composite have their places by `policy_order`, if it is there.
pub fn policies_are_of_their_keys()
    ensures { ReadsPolicies }
{}
