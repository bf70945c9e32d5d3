//! Two players, side by side.
use crate::command::ScriptCommand;
use crate::player::ScriptPlayer;

/// Two players of one script: each plays every instruction. It takes further ones while both do.
#[derive(Drop)]
pub struct Pair<A, B> {
    pub first: A,
    pub second: B,
}

impl<A: ScriptPlayer, B: ScriptPlayer> ScriptPlayer for Pair<A, B> {
    ghost use Rattle.std.specs.Prelude.{◌&&◌, ◌||◌};

    ghost leads = { λ start instructions now. A.leads start.first instructions now.first × B.leads start.second instructions now.second };

    ghost is_up = { λ now. A.is_up now.first && B.is_up now.second };

    ghost is_closed = { λ now. A.is_closed now.first || B.is_closed now.second };

    fn play(&mut self, command: ScriptCommand<'_>) -> bool {
        let first = self.first.play(command);
        let second = self.second.play(command);
        first && second
    }
}
