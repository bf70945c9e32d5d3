//! A destination that posts each line as one batch.
ghost use Rattle.std.specs.Prelude.{◌≡◌, OnOk, OnErr};
ghost use Rattle.batch_post.specs.Logs.{IsNewLog};
ghost use Rattle.span_sink.specs.Hands.{HandsTo};
ghost use Rattle.span_sink.specs.Manners.{may_refuse};
ghost use Rattle.batch_post.specs.Posts.{Posted, posts_state};
ghost use Rattle.batch_post.specs.declared.outcome.BatchFate.TheVariants.{Delivered, GivenUp};

use crate::backend::Backend;
use crate::delivering::deliver;
use crate::outcome::BatchFate;
use crate::rule::Retry;
use span_sink::{Destination, SinkFault};
use std::marker::Model;
use std::sync::Wait;

/// A destination whose lines are batches for a backend: it takes a line that the backend took, and refuses one that is
/// given up. It is never down.
#[derive(Drop)]
pub struct Posts<'r, B: Backend, R: Wait> {
    rt: &'r R,
    rule: Retry,
    backend: B,
}

impl<'r, B: Backend, R: Wait> Model for Posts<'r, B, R> {
    ghost use Rattle.batch_post.specs.Posts.{PostsState};
    ghost use Rattle.batch_post.specs.Deliveries.{IsKnownLog};

    ghost Value = { PostsState };

    ghost view = { λ s. record { rule = s.rule; log = B.log s.backend } };

    ghost invariant = { λ s. IsKnownLog s.rule (B.log s.backend) };
}

impl<'r, B: Backend, R: Wait> Posts<'r, B, R> {
    /// A destination over a backend to which nothing was sent.
    pub fn new(rt: &'r R, rule: Retry, backend: B) -> Self
        requires { IsNewLog (B.log backend) }
        ensures { result ≡ record { rule = rule; log = B.log backend } }
    {
        Posts { rt, rule, backend }
    }
}

impl<'r, B: Backend, R: Wait> Destination for Posts<'r, B, R> {
    ghost use Rattle.span_sink.specs.Manners.{may_refuse};
    ghost use Rattle.batch_post.specs.Posts.{posts_state};

    ghost manner = { may_refuse };

    ghost state = { λ s. posts_state s };

    fn hand(&mut self, line: &[u8]) -> Result<(), SinkFault>
        // what each destination does
        ensures hands { HandsTo may_refuse (posts_state self.old) line.now result (posts_state self.new) }
        // what this one does besides
        ensures taken { OnOk result (Posted self.old line.now Delivered self.new) }
        ensures refused { OnErr result (Posted self.old line.now GivenUp self.new) }
    {
        match deliver(self.rt, &self.rule, &mut self.backend, line) {
            BatchFate::Delivered => {
                self.backend.settle(line, BatchFate::Delivered);
                Ok(())
            }
            BatchFate::GivenUp => {
                self.backend.settle(line, BatchFate::GivenUp);
                Err(SinkFault::Refused)
            }
        }
    }

    fn is_down(&self) -> bool {
        // A batch that is given up ends nothing: the next one is tried (D-205).
        false
    }
}
