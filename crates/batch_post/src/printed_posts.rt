//! A destination that prints each line and then posts it.
ghost use Rattle.std.specs.Prelude.{◌≡◌, OnOk, OnErr, IfErr};
ghost use Rattle.span_sink.specs.LineSinks.{LineSinkState};
ghost use Rattle.span_sink.specs.Hands.{HandsTo};
ghost use Rattle.span_sink.specs.Manners.{prints_refused};
ghost use Rattle.batch_post.specs.Posts.{PrintedState, posts_behind};

use crate::backend::Backend;
use crate::posts::Posts;
use span_sink::{Destination, LineSink, Sink, SinkFault};
use std::marker::Model;
use std::sync::Wait;

/// A destination that prints each line, and posts it once it is printed whole. It takes a line that the backend took,
/// refuses one that is given up, and is down once a write of a line has failed: then it prints and posts nothing more.
#[derive(Drop)]
pub struct PrintedPosts<'r, S: Sink, B: Backend, R: Wait> {
    lines: LineSink<S>,
    posts: Posts<'r, B, R>,
}

impl<'r, S: Sink, B: Backend, R: Wait> Model for PrintedPosts<'r, S, B, R> {
    ghost use Rattle.batch_post.specs.Posts.{PrintedState};

    ghost Value = { PrintedState };

    ghost view = { λ s. record { lines = s.lines; posts = s.posts } };
}

impl<'r, S: Sink, B: Backend, R: Wait> PrintedPosts<'r, S, B, R> {
    /// A destination that prints to the one and posts to the other.
    pub fn new(lines: LineSink<S>, posts: Posts<'r, B, R>) -> Self
        ensures { result ≡ record { lines = lines; posts = posts.entry } }
    {
        PrintedPosts { lines, posts }
    }
}

impl<'r, S: Sink, B: Backend + Drop, R: Wait> PrintedPosts<'r, S, B, R> {
    /// Gives back what it prints to.
    pub fn end(self) -> LineSink<S>
        ensures { result ≡ self.entry.lines }
    {
        let PrintedPosts { lines, posts: _ } = self;
        lines
    }
}

impl<'r, S: Sink, B: Backend, R: Wait> Destination for PrintedPosts<'r, S, B, R> {
    ghost manner = { prints_refused };

    ghost state = { λ s. s.lines };

    fn hand(&mut self, line: &[u8]) -> Result<(), SinkFault>
        // what each destination does
        ensures hands { HandsTo prints_refused self.old.lines line.now result self.new.lines }
        // what this one does besides: it posts just what it has printed whole
        ensures posts { posts_behind self.old line.now result self.new }
    {
        // A print that fails ends the sending too: what is sent is always printed (D-203).
        self.lines.hand(line)?;
        match self.posts.hand(line) {
            Ok(()) => Ok(()),
            Err(_) => Err(SinkFault::Refused),
        }
    }

    fn is_down(&self) -> bool {
        self.lines.is_down()
    }
}
