//! A configuration, and how a text is read as one.
ghost use Rattle.std.specs.Prelude.{◌≡◌, ◌≢◌, ◌<◌, ◌≤◌, ◌/◌, ◌⊎◌, Some, Ok, Err, IfOk, IfErr};
ghost use Rattle.config_faults.specs.Faults.{table_fault};
ghost use Rattle.config_faults.specs.declared.fault.ConfigFault.{ConfigFault};
ghost use Rattle.config_faults.specs.declared.fault.ConfigFault.TheVariants.{NoMemory, ExpressionTooBig};
ghost use Rattle.toml.specs.Errors.{IsBlank};
ghost use Rattle.toml.specs.View.{table_view};
ghost use Rattle.tsc_config.specs.FaultSets.{MayBeTooBig};
ghost use Rattle.tsc_config.specs.Reading.{reading, reading_of_table};
ghost use Rattle.tsc_config.specs.Values.{InRange, config_of};

use crate::exports::{Export, export_at};
use crate::expressions::check_expressions;
use crate::ledger::{Ledger, ledger_at};
use crate::log_form::{LogForm, log_form_at};
use crate::output_fault::{OutputFault, output_fault_at};
use crate::settings_values::{number_at, truth_at};
use crate::values::{cache_size_at, is_other_at, places_at, policies_at, root_wait_at};
use config_faults::{ChoiceKey, ConfigFault, NumberKey, table_fault};
use otlp_types::Text;
use policy_tree::Policies;
use span_ids::Moment;
use std::alloc::{AllocError, Global};
use toml::Table;

/// What a collector does with what it receives.
#[derive(Drop)]
pub struct Config {
    /// How long the spans of a trace are gathered before it is decided, in milliseconds, from 1 to 3600000
    /// (tailsamplingprocessor README, `decision_wait`).
    pub decision_wait: Moment,
    /// How long after its first span without a parent a trace is decided, where that is sooner, in milliseconds, from 0
    /// to 3600000, where 0 is off (this project's option `root_wait_ms`, or tailsamplingprocessor README,
    /// `decision_wait_after_root_received`).
    pub root_wait: Moment,
    /// How many traces are kept in memory at most, from 1 to 1000000 (tailsamplingprocessor README, `num_traces`).
    pub num_traces: usize,
    /// For how many traces that were decided as sampled, and left the memory, the decision is remembered, from 0 to
    /// 1000000, where 0 is off (tailsamplingprocessor README, `decision_cache`).
    pub sampled_cache_size: usize,
    /// The same for traces that were decided as not sampled.
    pub non_sampled_cache_size: usize,
    /// What is sampled (tailsamplingprocessor README, `policies`).
    pub policies: Policies,
    /// How many lanes take requests, from 1 to 64 (this project's option `lanes`).
    pub lanes: u16,
    /// Over how many shards the traces are spread, from 1 to 64 and at most `num_traces` (this project's option
    /// `shards`).
    pub shards: usize,
    /// How many spans wait at most between a lane and a shard, from 1 to 65536 (this project's option
    /// `queue_capacity`).
    pub queue_capacity: usize,
    /// How many spans wait at most for the exporter, from 1 to 65536 (this project's option `export_capacity`).
    pub export_capacity: usize,
    /// How many spans a batch has at most, from 1 to 8192 (batchprocessor README, `send_batch_size`).
    pub send_batch_size: usize,
    /// How many connections are open at once at most, over all lanes, from 1 to 65536 (this project's option
    /// `max_connections`).
    pub max_connections: usize,
    /// Mebibytes that the process may take before requests are refused, from 0 to 1048576, where 0 is off (this
    /// project's option `memory_limit_mib`).
    pub memory_limit_mib: u64,
    /// Mebibytes that a request's body has at most, as it comes and unpacked, from 1 to 64 (this project's option
    /// `max_request_mib`).
    pub max_request_mib: u64,
    /// How many bytes the spans of a trace take at most while it waits, from 0 to 1073741824, where 0 is off; one that
    /// grows beyond that is decided at once as not sampled (tailsamplingprocessor README, `maximum_trace_size_bytes`).
    pub maximum_trace_size: u64,
    /// The time between two ticks, at which it is looked for what is due, in milliseconds, from 1 to 60000 (this
    /// project's option `tick_ms`).
    pub tick: u64,
    /// The address on which requests are taken, as `address:port` (otlpreceiver README, `endpoint`). It is not looked
    /// at here.
    pub listen: Text,
    /// The address at which those in charge close the collector and read its numbers, as `address:port`, or nothing:
    /// then it is closed at the address of requests (this project's option `admin`). It is not looked at here.
    pub admin: Text,
    /// The address at which the numbers alone are answered, of the form of `admin`, or nothing (this project's option
    /// `metrics`). It is not looked at here.
    pub metrics: Text,
    /// The path of the file behind whose end lines are written, or nothing: then they are printed on standard output
    /// (this project's option `output`). It is not looked at here.
    pub output: Text,
    /// Mebibytes of lines from which on that file is put aside and another one is begun, from 0 to 1048576, where 0 is
    /// never (this project's option `output_max_mib`).
    pub output_max_mib: u64,
    /// How many files that were put aside are kept, from 1 to 1000 (this project's option `output_keep`).
    pub output_keep: u64,
    /// The path of the file behind whose end a line of JSON is written for each trace that is decided or evicted, or
    /// nothing: then there are no such lines (this project's option `decisions`). It is not looked at here.
    pub decisions: Text,
    /// Mebibytes of such lines from which on that file is put aside and another one is begun, from 0 to 1048576, where 0
    /// is never (this project's option `decisions_max_mib`).
    pub decisions_max_mib: u64,
    /// The path of the file behind whose end each request that is taken is written, and each tick, or nothing: then there
    /// is no such record (this project's option `record`). It is not looked at here.
    pub request_record: Text,
    /// Mebibytes of such lines from which on that file is put aside and another one is begun, from 0 to 1048576, where 0
    /// is never (this project's option `record_max_mib`).
    pub record_max_mib: u64,
    /// Whether the scopes of kept spans get the attribute `tailsampling.policy`, the name of the policy that decided
    /// (tailsamplingprocessor README, `recordpolicy`; this project's option `record_policy`).
    pub record_policy: bool,
    /// What is said of a run, beside its lines (this project's option `log`).
    pub log: LogForm,
    /// Whether bodies that are packed by gzip are taken (RFC 9110, section 8.4.1.3; this project's option
    /// `accept_gzip`).
    pub accept_gzip: bool,
    /// Whether bodies in protobuf are taken (OTLP/HTTP, "Binary Protobuf Encoding"; this project's option
    /// `accept_protobuf`).
    pub accept_protobuf: bool,
    /// Whether a request for whose spans a queue lacks room is to be sent again, in place of being answered how many of
    /// them were discarded (this project's option `queue_full`, `retry`).
    pub waits_for_room: bool,
    /// What is done once its output fails (this project's option `output_fault`).
    pub output_fault: OutputFault,
    /// Whether doubles are kept, in place of discarding each attribute that holds one (this project's option
    /// `double_values`, `keep`).
    pub keeps_doubles: bool,
    /// Whether the end of the standard input closes the collector (this project's option `close_at_end_of_input`).
    pub close_at_end_of_input: bool,
    /// Where the lines are sent to, in place of being printed (this project's option `export`).
    pub export: Export,
    /// Where requests wait that are to outlive the process (this project's option `ledger`).
    pub ledger: Ledger,
}

impl Config {
    /// How many traces each shard keeps at most.
    pub fn traces_per_shard(&self) -> usize
        requires some_shard { 0 < self.now.shards }
        requires each_keeps { self.now.shards ≤ self.now.num_traces }
        ensures share { result ≡ self.now.num_traces / self.now.shards }
        ensures keeps { 0 < result }
    {
        self.num_traces / self.shards
    }

    /// For how many traces decided as sampled each shard remembers the decision at most, where 0 is off.
    pub fn sampled_cache_per_shard(&self) -> usize
        requires some_shard { 0 < self.now.shards }
        ensures share { result ≡ self.now.sampled_cache_size / self.now.shards }
    {
        self.sampled_cache_size / self.shards
    }

    /// The same for traces that were decided as not sampled.
    pub fn non_sampled_cache_per_shard(&self) -> usize
        requires some_shard { 0 < self.now.shards }
        ensures share { result ≡ self.now.non_sampled_cache_size / self.now.shards }
    {
        self.non_sampled_cache_size / self.shards
    }
}

/// Reads a configuration from a TOML text: `decision_wait_ms`, a whole number from 1 to 3600000, else 30000;
/// `root_wait_ms`, or by its other name `decision_wait_after_root_received_ms`, from 0 to 3600000, else 0;
/// `num_traces`, from 1 to 1000000, else 50000; `decision_cache`, a table of `sampled_cache_size` and
/// `non_sampled_cache_size`, each from 0 to 1000000, else 0; `policies`, a required array of policy tables with `name`,
/// `type` and the settings of that type; `sample_on_first_match`, true or false, else false; `lanes` and `shards`, from
/// 1 to 64, else 1; `queue_capacity` and `export_capacity`, from 1 to 65536, else 1024; `send_batch_size`, from 1 to
/// 8192, else 512; `max_connections`, from 1 to 65536, else 1024; `memory_limit_mib`, from 0 to 1048576, else 0;
/// `max_request_mib`, from 1 to 64, else 4; `log`, `text`, `json` or `off`, else `text`;
/// `maximum_trace_size_bytes`, from 0 to 1073741824, else 0; `tick_ms`, from 1 to 60000, else 1000; `listen`, a text,
/// else `127.0.0.1:4318`; `admin` and `metrics`, texts, else nothing; `output`, a text, else nothing; `output_max_mib`,
/// from 0 to 1048576, else 0; `output_keep`, from 1 to 1000, else 7; `decisions`, a text, else nothing;
/// `decisions_max_mib`, from 0 to 1048576, else 0; `record`, a text, else nothing; `record_max_mib`, from 0 to
/// 1048576, else 0; `record_policy`, `accept_gzip`, `accept_protobuf` and `close_at_end_of_input`, true or false, else
/// false; `queue_full`, `partial` or `retry`, else `partial`; `output_fault`, `discard`, `stop` or `retry`,
/// else `discard`; `double_values`, `discard` or `keep`, else `discard`; `export`, a table with a required `endpoint`
/// ([`Export`] has its keys), else nothing is sent; and `ledger`, a table with a required `path` ([`Ledger`] has its
/// keys), else requests outlive no kill. Of a `string_attribute` policy `values` are regular expressions where
/// `enabled_regex_matching` is true (tailsamplingprocessor README); its `cache_max_size`, a whole number from 0, has no
/// effect.
///
/// `Err` is the fault of least number that the text has ([`crate::laws::answers_least_fault`]), `NoMemory` where memory
/// was refused, or `ExpressionTooBig` for a text that has no other fault. For a text of blanks and comments alone these
/// two are never so: it is answered that `policies` is missing.
pub fn read(alloc: Global, text: &str) -> Result<Config, ConfigFault>
    ensures config { IfOk result (λ config. reading text.now ≡ Ok config) }
    ensures fault { IfErr result (λ fault. fault ≢ NoMemory → fault ≢ ExpressionTooBig → reading text.now ≡ Err fault) }
    ensures too_big { IfErr result (λ fault. fault ≡ ExpressionTooBig → MayBeTooBig (reading text.now)) }
    ensures ranges { IfOk result InRange }
    ensures memory { IfErr result (λ fault. (fault ≡ NoMemory) ⊎ (fault ≡ ExpressionTooBig) → ¬ IsBlank text.now) }
{
    match toml::table_from_str(alloc, text) {
        Ok(table) => config_of(alloc, &table),
        Err(error) if error.is_memory() => Err(ConfigFault::NoMemory),
        Err(_) => Err(ConfigFault::NotToml),
    }
}

fn config_of(alloc: Global, table: &Table) -> Result<Config, ConfigFault>
    ensures config { IfOk result (λ config. reading_of_table (table_view table.now) ≡ Ok config) }
    ensures fault { IfErr result (λ fault. fault ≢ NoMemory → fault ≢ ExpressionTooBig → reading_of_table (table_view table.now) ≡ Err fault) }
    ensures too_big { IfErr result (λ fault. fault ≡ ExpressionTooBig → MayBeTooBig (reading_of_table (table_view table.now))) }
    ensures ranges { IfOk result InRange }
    ensures of_table { IfErr result (λ fault. (found : ConfigFault) → table_fault (table_view table.now) ≡ Some found → fault ≡ found) }
{
    if let Some(fault) = table_fault(table) {
        return Err(fault);
    }
    // Looked at once the table has no other fault (D-216).
    if number_at(table, NumberKey::NumTraces) < number_at(table, NumberKey::Shards) {
        return Err(ConfigFault::TooFewTraces);
    }
    let Ok(list) = policies_at(alloc, table) else {
        return Err(ConfigFault::NoMemory);
    };
    let policies = match Policies::new(alloc, list) {
        Ok(policies) => policies,
        Err(fault) => return Err(ConfigFault::Policy(fault)),
    };
    // Last, so that all other faults of the text go first (D-211).
    check_expressions(alloc, &policies)?;
    match given_by(alloc, table, policies) {
        Ok(config) => Ok(config),
        Err(_) => Err(ConfigFault::NoMemory),
    }
}

/// What the table gives, with these policies.
fn given_by(alloc: Global, table: &Table, policies: Policies) -> Result<Config, AllocError>
    ensures config { IfOk result (λ config. config ≡ record (config_of (table_view table.now)) { policies = policies }) }
    ensures ranges { IfOk result (λ config. config.shards ≤ config.num_traces → InRange config) }
{
    let places = places_at(alloc, table)?;
    Ok(Config {
        decision_wait: number_at(table, NumberKey::DecisionWait),
        root_wait: root_wait_at(table),
        num_traces: number_at(table, NumberKey::NumTraces) as usize,
        sampled_cache_size: cache_size_at(table, NumberKey::SampledCacheSize),
        non_sampled_cache_size: cache_size_at(table, NumberKey::NonSampledCacheSize),
        policies,
        lanes: number_at(table, NumberKey::Lanes) as u16,
        shards: number_at(table, NumberKey::Shards) as usize,
        queue_capacity: number_at(table, NumberKey::QueueCapacity) as usize,
        export_capacity: number_at(table, NumberKey::ExportCapacity) as usize,
        send_batch_size: number_at(table, NumberKey::SendBatchSize) as usize,
        max_connections: number_at(table, NumberKey::MaxConnections) as usize,
        memory_limit_mib: number_at(table, NumberKey::MemoryLimit),
        max_request_mib: number_at(table, NumberKey::MaxRequest),
        maximum_trace_size: number_at(table, NumberKey::MaximumTraceSize),
        tick: number_at(table, NumberKey::Tick),
        listen: places.listen,
        admin: places.admin,
        metrics: places.metrics,
        output: places.output,
        output_max_mib: number_at(table, NumberKey::OutputMax),
        output_keep: number_at(table, NumberKey::OutputKeep),
        decisions: places.decisions,
        decisions_max_mib: number_at(table, NumberKey::DecisionsMax),
        request_record: places.request_record,
        record_max_mib: number_at(table, NumberKey::RecordMax),
        record_policy: truth_at(table, "record_policy"),
        log: log_form_at(table),
        accept_gzip: truth_at(table, "accept_gzip"),
        accept_protobuf: truth_at(table, "accept_protobuf"),
        waits_for_room: is_other_at(table, ChoiceKey::QueueFull),
        output_fault: output_fault_at(table),
        keeps_doubles: is_other_at(table, ChoiceKey::DoubleValues),
        close_at_end_of_input: truth_at(table, "close_at_end_of_input"),
        export: export_at(alloc, table)?,
        ledger: ledger_at(alloc, table)?,
    })
}
