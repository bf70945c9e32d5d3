//! Which senders of a shard have ended.
ghost use Rattle.std.specs.Prelude.{◌≡◌, true, slice_set};
ghost use Rattle.std.specs.List.{list_all};

/// Whether all others than the one at this place are set.
pub fn all_but(ends: &Vec<bool>, place: usize) -> bool
    ensures { result ≡ list_all (λ b. b) (slice_set ends.now.items place true) }
{
    for at in 0..ends.len() {
        if at != place && !ends[at] {
            return false;
        }
    }
    true
}
