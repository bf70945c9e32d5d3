//! What is told of a key that a table doesn't have.
ghost use Rattle.std.specs.Prelude.{◌≡◌, option_map};
ghost use Rattle.near_keys.specs.Hints as spec;

use crate::near_names::near_key;
use config_faults::TableKind;

/// What to do about a key that a table doesn't have.
#[derive(Clone, Copy)]
pub enum Hint {
    /// Nothing is known of it.
    Nothing,
    /// This key is nearly the same.
    Key(&'static str),
    /// What becomes here of a key of the Collector.
    Words(&'static str),
}

/// What to do about a key that tables of this kind don't have.
pub fn hint_of(kind: TableKind, key: &str) -> Hint
    ensures { spec.text_of result ≡ spec.hint kind key.now }
{
    if let Some(words) = of_collector(kind, key) {
        return Hint::Words(words);
    }
    match near_key(kind, key) {
        Some(name) => Hint::Key(name),
        None => Hint::Nothing,
    }
}

/// What becomes here of a key of the Collector, by the table in which it is sought.
fn of_collector(kind: TableKind, key: &str) -> Option<&'static str>
    ensures { option_map (λ words. words.now) result ≡ spec.of_collector kind key.now }
{
    match kind {
        TableKind::Config => of_processor(key),
        TableKind::Export => of_exporter(key),
        _ => None,
    }
}

/// Of its tail_sampling processor (its README), otlp receiver and memory_limiter.
fn of_processor(key: &str) -> Option<&'static str>
    ensures { option_map (λ words. words.now) result ≡ spec.of_processor key.now }
{
    match key {
        "expected_new_traces_per_sec" => Some("leave it out: memory is taken as traces come"),
        "num_workers" => Some("`lanes` and `shards` are"),
        "block_on_overflow" => Some("leave it out: nothing waits for a decision"),
        "drop_pending_traces_on_shutdown" => Some(
            "leave it out: at the close each trace that waits is decided",
        ),
        "sampling_strategy" => Some("leave it out: each trace is decided once its wait is over"),
        "endpoint" => Some("`listen` is"),
        "limit_mib" => Some("`memory_limit_mib` is"),
        "max_request_body_size" => Some("`max_request_mib` is"),
        _ => None,
    }
}

/// Of its otlphttp exporter.
fn of_exporter(key: &str) -> Option<&'static str>
    ensures { option_map (λ words. words.now) result ≡ spec.of_exporter key.now }
{
    match key {
        "traces_endpoint" => Some("`endpoint` is"),
        "sending_queue" => Some("`queue_batches` is: how many batches wait"),
        "retry_on_failure" => Some("`retry_initial_ms`, `retry_max_ms` and `retry_for_ms` are"),
        "compression" => Some("leave it out: bodies are sent as they are"),
        "tls" => Some("leave it out: nothing is encrypted, which a proxy can do"),
        _ => None,
    }
}
