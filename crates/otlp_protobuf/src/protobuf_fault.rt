//! Why bytes are no request.
use protobuf_wire::WireFault;
use std::error::Error;
use std::fmt;

/// Why bytes are no request: the first fault that is met in them.
#[derive(Clone, Copy, Debug, PartialEq, Eq, Drop)]
pub enum ProtobufFault {
    /// The bytes, or those of a message inside, are no message of Protocol Buffers.
    Wire(WireFault),
    /// A text is not in UTF-8.
    Utf8,
    /// The value of an attribute nests more than 29 levels deep.
    TooDeep,
}

impl fmt::Display for ProtobufFault {
    ghost use Rattle.std.specs.Prelude.{Some};
    ghost use Rattle.otlp_protobuf.specs.FaultTexts.{fault_text};

    ghost output = { λ fault. Some (fault_text fault) };

    fn fmt<W: fmt::Write>(&self, f: &mut fmt::Formatter<W>) -> fmt::Result {
        match self {
            ProtobufFault::Wire(fault) => fault.fmt(f),
            ProtobufFault::Utf8 => f.write_str("a text is not in UTF-8"),
            ProtobufFault::TooDeep => f.write_str("a value nests more than 29 levels deep"),
        }
    }
}

impl Error for ProtobufFault {}
