//! Numbers of spans by places.
ghost use Rattle.std.specs.Prelude.{◌≡◌, length, IfOk};
ghost use Rattle.run_comparison.specs.Numbers.{more_at, zeros};

use std::alloc::{AllocError, Global};

/// So many zeros.
#[tactic(auto, unfolding(crate::specs::Numbers::zeros))]
pub fn zeros(alloc: Global, count: usize) -> Result<Vec<u64>, AllocError>
    ensures { IfOk result (λ numbers. (numbers.items ≡ zeros count) × (length numbers.items ≡ count)) }
{
    vec![in alloc; 0; count]
}

/// No number is left.
#[tactic(auto, unfolding(crate::specs::Numbers::zeros))]
pub fn clear(numbers: &mut [u64])
    ensures zeros { numbers.new ≡ zeros (length numbers.old) }
    ensures long { length numbers.new ≡ length numbers.old }
{
    numbers.fill(0);
}

/// So many more at a place, where there is one.
pub fn add_at(numbers: &mut [u64], place: usize, more: u64)
    ensures more { numbers.new ≡ more_at numbers.old place more }
    ensures long { length numbers.new ≡ length numbers.old }
{
    if place < numbers.len() {
        numbers[place] = numbers[place].saturating_add(more);
    }
}
