//! The tests, by what they test.
mod counts;
mod exporters;
mod jobs;
mod ledgers;
mod output_files;
mod queues;
mod queues_of_threads;
mod seats;
mod sinks;
