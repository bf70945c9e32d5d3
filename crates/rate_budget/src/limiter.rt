//! What policies ask for spans.
ghost use Rattle.std.specs.Prelude.{◌≡◌, ℕ, ◌<◌, Bool, true};

/// Grants or refuses spans, or their bytes, to the limiter nodes of some policies. It promises what every limiter can:
/// which asking was made, and how it was answered. Where others ask too, an answer is no function of the limiter's own
/// value. A limiter that may wait holds the handle by which it waits, so that its callers take none.
pub trait Limiter {
    /// Whether it is a limiter of this node.
    ghost has_node: { Self → ℕ → Bool };

    /// What an asking at a node, in a second, for such an amount, with this answer makes of it.
    ghost asks: { Self → ℕ → ℕ → ℕ → Bool → Self → Type 0 };

    /// Whether this amount of spans or bytes, as the node's limit has it, is granted in this second, counted since the
    /// Unix epoch. A second before the greatest one asked counts as the greatest. It takes no memory.
    fn ask(&mut self, node: u16, second: u64, amount: u64) -> bool
        requires node { has_node self.old node ≡ true }
        requires amount { 0 < amount }
        ensures { asks self.old node second amount result self.new };

    /// An asking leaves the nodes.
    ghost keeps: { (s : Self) (t : Self) (node second amount : ℕ) (answer : Bool) (m : ℕ) → asks s node second amount answer t → has_node t m ≡ has_node s m };
}
