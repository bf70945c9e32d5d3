//! When the beginning and the end are said of what goes on for a while, as a queue that is full.
ghost use Rattle.std.specs.Prelude.{◌≡◌};
ghost use Rattle.event_log.specs.Spells as spec;

/// How long it has to be quiet until something is over, in milliseconds.
pub const QUIET: u64 = 10_000;

/// How much lies at least between two lines about the same, in milliseconds.
pub const SPACING: u64 = 60_000;

/// What is known of something that comes and goes.
#[derive(Clone, Copy, PartialEq, Eq)]
pub struct Spell {
    /// Whether it was said that it began, and not yet that it is over.
    pub is_on: bool,
    /// When it was seen last, in milliseconds.
    pub seen: u64,
    /// When something was said of it last, in milliseconds; `None`: nothing was.
    pub said: Option<u64>,
}

/// What is to be said.
#[derive(Clone, Copy, PartialEq, Eq)]
pub enum SpellTurn {
    Begins,
    Ends,
}

impl Spell {
    /// It wasn't seen yet.
    pub fn new() -> Self
        ensures { result ≡ spec.never }
    {
        Spell {
            is_on: false,
            seen: 0,
            said: None,
        }
    }
}

/// Whether something may be said again.
fn may_say(said: Option<u64>, now: u64) -> bool
    ensures { result ≡ spec.may_say said now }
{
    match said {
        Some(before) => SPACING <= now.saturating_sub(before),
        None => true,
    }
}

/// What is known after a look at this moment that saw it or didn't, and what is to be said: that it begins where it is
/// seen, that it is over once it was quiet for ten seconds, and nothing within a minute of what was said last.
pub fn spell_after(spell: Spell, is_seen: bool, now: u64) -> (Spell, Option<SpellTurn>)
    ensures { result ≡ spec.spell_after spell is_seen now }
{
    let seen = if is_seen { now } else { spell.seen };
    let may = may_say(spell.said, now);
    if is_seen && !spell.is_on && may {
        let said = Some(now);
        return (
            Spell {
                is_on: true,
                seen,
                said,
            },
            Some(SpellTurn::Begins),
        );
    }
    if !is_seen && spell.is_on && may && QUIET <= now.saturating_sub(seen) {
        let said = Some(now);
        return (
            Spell {
                is_on: false,
                seen,
                said,
            },
            Some(SpellTurn::Ends),
        );
    }
    let Spell { is_on, said, .. } = spell;
    (Spell { is_on, seen, said }, None)
}
