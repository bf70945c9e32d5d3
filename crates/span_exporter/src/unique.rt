//! The law that a batch has one line.
ghost use Rattle.span_exporter.specs.Batches.{LineIsUnique};

/// Records have one line, so what [`crate::Batch::take_line`] answers is determined by the records of the batch.
pub fn line_is_unique()
    ensures { LineIsUnique }
{
    otlp_flatten::grouping_is_unique();
}
