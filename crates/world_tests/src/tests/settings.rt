//! The settings of a shard in a test.
ghost use Rattle.std.specs.Prelude.{◌≡◌, Some};

use policy_tree::Policies;
use shard_journal::Settings;

/// Settings with these policies: a wait of ten milliseconds, room for one trace, nothing remembered, two senders.
pub fn plain_settings(policies: Policies) -> Settings
    ensures { result.num_traces ≡ Some 1 }
{
    let mut settings = Settings::plain(policies, 10, 2);
    settings.num_traces = Some(1);
    settings
}
