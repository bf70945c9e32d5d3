//! Which encodings there are.
/// An encoding of OTLP/HTTP.
#[derive(Clone, Copy, Debug, PartialEq, Eq)]
pub enum Encoding {
    /// The JSON encoding of Protocol Buffers, as OTLP has it.
    Json,
    /// The binary encoding of Protocol Buffers.
    Protobuf,
}

impl Encoding {
    ghost use Rattle.std.specs.Prelude.{◌≡◌};
    ghost use Rattle.otlp_encoding.specs.MediaTypes.{media_type};

    /// The media type of a body in this encoding.
    pub fn media_type(self) -> &'static str
        ensures { result.now ≡ media_type self }
    {
        match self {
            Encoding::Json => "application/json",
            Encoding::Protobuf => "application/x-protobuf",
        }
    }
}
