//! What a look at a client who connected as the collector closes comes to.
ghost use Rattle.std.specs.Prelude.{◌≡◌};
ghost use Rattle.collector_serve.specs.LateLooks.{late_look};

/// The look at which a client from whom nothing came is answered: after a fifth of a second.
const ANSWER_LOOKS: u32 = 10;

/// The last look at a client: after a second.
pub const MOST_LOOKS: u32 = 50;

/// What came from a client at a look.
#[derive(Clone, Copy, PartialEq, Eq)]
pub enum Came {
    Nothing,
    Bytes,
    End,
}

/// What a look comes to.
#[derive(Clone, Copy, PartialEq, Eq)]
pub struct LateLook {
    /// The client is answered now.
    pub answers: bool,
    /// It is looked at again.
    pub goes_on: bool,
}

/// What the look of this number at a client comes to, at which that came, and which was answered before or not. It is
/// answered once, where something came, were it its end alone, or enough looks were made.
pub fn late_look(looks: u32, came: Came, is_answered: bool) -> LateLook
    ensures { result ≡ late_look looks came is_answered }
{
    LateLook {
        answers: !is_answered && (came != Came::Nothing || ANSWER_LOOKS <= looks),
        goes_on: came != Came::End && looks < MOST_LOOKS,
    }
}
