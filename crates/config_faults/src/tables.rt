//! The settings of the tables that are no policy's: of each its key, what its value is to be, and its default.
ghost use Rattle.std.specs.Prelude.{◌≡◌, map, pos};
ghost use Rattle.config_faults.specs.Tables as spec;

use crate::settings::{DefaultValue, Setting, ValueKind};

/// The keys whose value is a whole number, those within `decision_cache`, `export` and `ledger` too.
#[derive(Clone, Copy)]
pub enum NumberKey {
    DecisionWait,
    RootWait,
    /// Another name of `RootWait`.
    RootReceived,
    NumTraces,
    Lanes,
    Shards,
    QueueCapacity,
    ExportCapacity,
    SendBatchSize,
    MaxConnections,
    MemoryLimit,
    MaxRequest,
    MaximumTraceSize,
    OutputMax,
    OutputKeep,
    DecisionsMax,
    RecordMax,
    Tick,
    SampledCacheSize,
    NonSampledCacheSize,
    /// Of `export`, as those that follow.
    Timeout,
    RetryInitial,
    RetryMax,
    RetryFor,
    CloseWait,
    QueueBatches,
    /// Of `ledger`, as that which follows.
    SyncInterval,
    LedgerMax,
}

impl NumberKey {
    /// Its name, its default, its lowest and its greatest number.
    pub fn row(self) -> (&'static str, i64, i64, i64)
        ensures name { result.0.now ≡ (spec.number_row self).name }
        ensures default { result.1 ≡ pos (spec.number_row self).default }
        ensures lowest { result.2 ≡ pos (spec.number_row self).lowest }
        ensures greatest { result.3 ≡ pos (spec.number_row self).greatest }
    {
        match self {
            NumberKey::DecisionWait => ("decision_wait_ms", 30_000, 1, 3_600_000),
            NumberKey::RootWait => ("root_wait_ms", 0, 0, 3_600_000),
            NumberKey::RootReceived => ("decision_wait_after_root_received_ms", 0, 0, 3_600_000),
            NumberKey::NumTraces => ("num_traces", 50_000, 1, 1_000_000),
            NumberKey::Lanes => ("lanes", 1, 1, 64),
            NumberKey::Shards => ("shards", 1, 1, 64),
            NumberKey::QueueCapacity => ("queue_capacity", 1024, 1, 65_536),
            NumberKey::ExportCapacity => ("export_capacity", 1024, 1, 65_536),
            NumberKey::SendBatchSize => ("send_batch_size", 512, 1, 8192),
            NumberKey::MaxConnections => ("max_connections", 1024, 1, 65_536),
            NumberKey::MemoryLimit => ("memory_limit_mib", 0, 0, 1_048_576),
            NumberKey::MaxRequest => ("max_request_mib", 4, 1, 64),
            NumberKey::MaximumTraceSize => ("maximum_trace_size_bytes", 0, 0, 1_073_741_824),
            NumberKey::OutputMax => ("output_max_mib", 0, 0, 1_048_576),
            NumberKey::OutputKeep => ("output_keep", 7, 1, 1000),
            NumberKey::DecisionsMax => ("decisions_max_mib", 0, 0, 1_048_576),
            NumberKey::RecordMax => ("record_max_mib", 0, 0, 1_048_576),
            NumberKey::Tick => ("tick_ms", 1000, 1, 60_000),
            NumberKey::SampledCacheSize => ("sampled_cache_size", 0, 0, 1_000_000),
            NumberKey::NonSampledCacheSize => ("non_sampled_cache_size", 0, 0, 1_000_000),
            NumberKey::Timeout => ("timeout_ms", 10_000, 1, 600_000),
            NumberKey::RetryInitial => ("retry_initial_ms", 500, 1, 3_600_000),
            NumberKey::RetryMax => ("retry_max_ms", 30_000, 1, 3_600_000),
            NumberKey::RetryFor => ("retry_for_ms", 300_000, 0, 86_400_000),
            NumberKey::CloseWait => ("close_wait_ms", 10_000, 0, 3_600_000),
            NumberKey::QueueBatches => ("queue_batches", 256, 1, 65_536),
            NumberKey::SyncInterval => ("sync_interval_ms", 1000, 1, 60_000),
            NumberKey::LedgerMax => ("max_mib", 1024, 1, 1_048_576),
        }
    }
}

/// The keys whose value is one of two texts, those within `export` too.
#[derive(Clone, Copy)]
pub enum ChoiceKey {
    QueueFull,
    DoubleValues,
    /// Of `export`.
    Encoding,
}

impl ChoiceKey {
    /// Its name, its default, and the other text that it takes.
    pub fn row(self) -> (&'static str, &'static str, &'static str)
        ensures name { result.0.now ≡ (spec.choice_row self).name }
        ensures default { result.1.now ≡ (spec.choice_row self).default }
        ensures other { result.2.now ≡ (spec.choice_row self).other }
    {
        match self {
            ChoiceKey::QueueFull => ("queue_full", "partial", "retry"),
            ChoiceKey::DoubleValues => ("double_values", "discard", "keep"),
            ChoiceKey::Encoding => ("encoding", "json", "proto"),
        }
    }
}

/// The keys whose value is a text that has a default, that within `ledger` too.
#[derive(Clone, Copy)]
pub enum TextKey {
    Listen,
    Metrics,
    Output,
    Decisions,
    Record,
    OutputFault,
    Log,
    /// Of `ledger`.
    LedgerSync,
}

impl TextKey {
    /// Its name and its default.
    pub fn row(self) -> (&'static str, &'static str)
        ensures name { result.0.now ≡ (spec.text_row self).name }
        ensures default { result.1.now ≡ (spec.text_row self).default }
    {
        match self {
            TextKey::Listen => ("listen", "127.0.0.1:4318"),
            TextKey::Metrics => ("metrics", ""),
            TextKey::Output => ("output", ""),
            TextKey::Decisions => ("decisions", ""),
            TextKey::Record => ("record", ""),
            TextKey::OutputFault => ("output_fault", "discard"),
            TextKey::Log => ("log", "text"),
            TextKey::LedgerSync => ("sync", "none"),
        }
    }
}

/// The settings of a configuration that are no tables.
pub fn top_settings() -> [Setting; 33]
    ensures { map spec.setting_of result ≡ spec.top_settings }
{
    [
        number_setting(NumberKey::DecisionWait),
        root_setting(NumberKey::RootWait),
        root_setting(NumberKey::RootReceived),
        number_setting(NumberKey::NumTraces),
        number_setting(NumberKey::Lanes),
        number_setting(NumberKey::Shards),
        number_setting(NumberKey::Tick),
        number_setting(NumberKey::QueueCapacity),
        number_setting(NumberKey::ExportCapacity),
        number_setting(NumberKey::SendBatchSize),
        number_setting(NumberKey::MaxConnections),
        number_setting(NumberKey::MemoryLimit),
        number_setting(NumberKey::MaxRequest),
        number_setting(NumberKey::MaximumTraceSize),
        number_setting(NumberKey::OutputMax),
        number_setting(NumberKey::OutputKeep),
        number_setting(NumberKey::DecisionsMax),
        number_setting(NumberKey::RecordMax),
        Setting::Default("record_policy", ValueKind::Truth, DefaultValue::Off),
        text_setting(TextKey::Listen),
        text_setting(TextKey::Metrics),
        text_setting(TextKey::Output),
        text_setting(TextKey::Decisions),
        text_setting(TextKey::Record),
        log_setting(TextKey::Log),
        Setting::Default("accept_gzip", ValueKind::Truth, DefaultValue::Off),
        Setting::Default("accept_protobuf", ValueKind::Truth, DefaultValue::Off),
        Setting::Default("sample_on_first_match", ValueKind::Truth, DefaultValue::Off),
        choice_setting(ChoiceKey::QueueFull),
        output_fault_setting(TextKey::OutputFault),
        choice_setting(ChoiceKey::DoubleValues),
        Setting::Default("close_at_end_of_input", ValueKind::Truth, DefaultValue::Off),
        Setting::Optional("admin", ValueKind::Text),
    ]
}

/// The sizes of the caches of decisions.
pub fn cache_settings() -> [Setting; 2]
    ensures { map spec.setting_of result ≡ spec.cache_settings }
{
    [
        number_setting(NumberKey::SampledCacheSize),
        number_setting(NumberKey::NonSampledCacheSize),
    ]
}

/// The settings of `export`.
pub fn export_settings() -> [Setting; 10]
    ensures { map spec.setting_of result ≡ spec.export_settings }
{
    [
        Setting::Required("endpoint", ValueKind::Endpoint),
        number_setting(NumberKey::Timeout),
        number_setting(NumberKey::RetryInitial),
        number_setting(NumberKey::RetryMax),
        number_setting(NumberKey::RetryFor),
        number_setting(NumberKey::CloseWait),
        number_setting(NumberKey::QueueBatches),
        Setting::Default("lines", ValueKind::Truth, DefaultValue::Off),
        choice_setting(ChoiceKey::Encoding),
        Setting::Optional("headers", ValueKind::Headers),
    ]
}

/// The settings of `ledger`.
pub fn ledger_settings() -> [Setting; 4]
    ensures { map spec.setting_of result ≡ spec.ledger_settings }
{
    [
        Setting::Required("path", ValueKind::Text),
        ledger_sync_setting(TextKey::LedgerSync),
        number_setting(NumberKey::SyncInterval),
        number_setting(NumberKey::LedgerMax),
    ]
}

fn number_setting(key: NumberKey) -> Setting
    ensures { spec.setting_of result ≡ spec.number_setting key }
{
    let (name, default, lowest, greatest) = key.row();
    let value = ValueKind::Integer(lowest, greatest);
    Setting::Default(name, value, DefaultValue::Number(default))
}

/// One of the two names of the wait from a trace's root on, of which neither has a default of its own.
fn root_setting(key: NumberKey) -> Setting
    ensures { spec.setting_of result ≡ spec.root_setting key }
{
    let (name, _, lowest, greatest) = key.row();
    Setting::Optional(name, ValueKind::Integer(lowest, greatest))
}

fn choice_setting(key: ChoiceKey) -> Setting
    ensures { spec.setting_of result ≡ spec.choice_setting key }
{
    Setting::Default(
        key.row().0,
        ValueKind::Choice(key),
        DefaultValue::Choice(key),
    )
}

fn text_setting(key: TextKey) -> Setting
    ensures { spec.setting_of result ≡ spec.text_setting key }
{
    Setting::Default(key.row().0, ValueKind::Text, DefaultValue::Text(key))
}

fn log_setting(key: TextKey) -> Setting
    ensures { spec.setting_of result ≡ spec.log_setting key }
{
    let (name, _) = key.row();
    Setting::Default(name, ValueKind::LogForm, DefaultValue::Text(key))
}

fn output_fault_setting(key: TextKey) -> Setting
    ensures { spec.setting_of result ≡ spec.output_fault_setting key }
{
    let (name, _) = key.row();
    Setting::Default(name, ValueKind::OutputFault, DefaultValue::Text(key))
}

fn ledger_sync_setting(key: TextKey) -> Setting
    ensures { spec.setting_of result ≡ spec.ledger_sync_setting key }
{
    let (name, _) = key.row();
    Setting::Default(name, ValueKind::LedgerSync, DefaultValue::Text(key))
}
