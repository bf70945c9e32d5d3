//! A setting: its key, what its value is to be, and what counts where it is missing.
ghost use Rattle.std.specs.Prelude.{◌≡◌};
ghost use Rattle.config_faults.specs.Tables as spec;

use crate::tables::{ChoiceKey, TextKey};

/// What an item of an array is to be.
#[derive(Clone, Copy)]
pub enum ItemKind {
    Text,
    /// A text that names a status code.
    StatusCode,
    /// A table: the share of a part of a composite.
    Allocation,
}

/// What a value is to be.
#[derive(Clone, Copy)]
pub enum ValueKind {
    /// A whole number within these bounds.
    Integer(i64, i64),
    Whole,
    Truth,
    Text,
    /// A text of the form `http://HOST:PORT/PATH`.
    Endpoint,
    /// A table of fields of a request: their names and texts.
    Headers,
    /// A text that names a type of policy.
    PolicyType,
    /// One of the two texts of this key.
    Choice(ChoiceKey),
    /// A text that names a form of the log: `text`, `json` or `off`.
    LogForm,
    /// A text that names what is done once the output fails: `discard`, `stop` or `retry`.
    OutputFault,
    /// A text that names when the ledger of requests is synced: `none`, `interval` or `request`.
    LedgerSync,
    /// A text that names what an error of a condition does: `ignore`, `silent` or `propagate`.
    ErrorMode,
    /// A whole number from 0 to 100, or a number between with at most four decimals.
    Percentage,
    /// An array of such items.
    Array(ItemKind),
}

/// What counts where a setting is missing.
#[derive(Clone, Copy)]
pub enum DefaultValue {
    Number(i64),
    /// The first of the two texts of this key.
    Choice(ChoiceKey),
    /// The text of this key.
    Text(TextKey),
    /// False.
    Off,
}

/// A setting: its key, and what its value is to be.
#[derive(Clone, Copy)]
pub enum Setting {
    /// It has to stand there.
    Required(&'static str, ValueKind),
    /// It may be missing.
    Optional(&'static str, ValueKind),
    /// It may be missing, and then this counts.
    Default(&'static str, ValueKind, DefaultValue),
}

impl Setting {
    /// Its key.
    pub fn name(self) -> &'static str
        ensures { result.now ≡ (spec.setting_of self).name }
    {
        match self {
            Setting::Required(name, _)
            | Setting::Optional(name, _)
            | Setting::Default(name, _, _) => name,
        }
    }

    /// What its value is to be.
    pub fn value(self) -> ValueKind
        ensures { result ≡ (spec.setting_of self).value }
    {
        match self {
            Setting::Required(_, value)
            | Setting::Optional(_, value)
            | Setting::Default(_, value, _) => value,
        }
    }

    /// Whether it has to stand there.
    pub fn is_required(self) -> bool
        ensures { result ≡ (spec.setting_of self).is_required }
    {
        match self {
            Setting::Required(..) => true,
            Setting::Optional(..) | Setting::Default(..) => false,
        }
    }
}
