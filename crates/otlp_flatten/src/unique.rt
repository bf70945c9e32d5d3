//! The law that a list of records has one grouping.
ghost use Rattle.otlp_flatten.specs.Grouped.{GroupingIsUnique};

/// Two grouped requests of the same records are equal, so what [`crate::group`] answers is determined by the records.
pub fn grouping_is_unique()
    ensures { GroupingIsUnique }
{}
