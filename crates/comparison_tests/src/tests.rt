//! The tests, by what they test.
mod runs;
mod texts;
