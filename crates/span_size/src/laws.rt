//! The laws on the sizes of spans.
ghost use Rattle.span_size.specs.Size.{SpansHaveSize, SizesAdd};

/// Any spans have a size above 0.
pub fn spans_have_size()
    ensures { SpansHaveSize }
{}

/// One span more adds its own size: a size can be kept up by saturating addition.
pub fn sizes_add()
    ensures { SizesAdd }
{}
