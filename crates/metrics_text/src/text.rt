//! The text.
ghost use Rattle.std.specs.Prelude.{◌≡◌, ◌++◌, ℕ, List, [], ◌∷◌, IfOk, OnOk, codes, decimal, string_bytes};
ghost use Rattle.metrics_text.specs.Families.{build, connections, dropped, dropped_sample, family, family_text, handed, head_lines, labelled, number_of, reason_word, received, sample, sample_line, uptime, word_of};
ghost use Rattle.metrics_text.specs.Figures.{figure_text, figures_text};
ghost use Rattle.metrics_text.specs.Shards.{shard_line, shard_lines, shard_text, shards_text};
ghost use Rattle.metrics_text.specs.Text.{metrics_text};
ghost use Rattle.drop_ledger.specs.declared.count.Count.TheVariants.{Dropped};

use crate::deciders::put_policies;
use crate::figure::{Figure, ShardFigure};
use crate::kind::FamilyKind;
use crate::metrics::{Metrics, PolicyNumbers, ShardNumbers};
use drop_ledger::{Count, Report};
use span_ids::Reason;
use std::alloc::{AllocError, Global};

/// The version that the text tells.
pub const VERSION: &str = "0.1.0";

/// Appends the two lines in front of a family's samples.
pub fn put_head(
    text: &mut String,
    name: &str,
    help: &str,
    kind: FamilyKind,
) -> Result<(), AllocError>
    ensures { OnOk result (string_bytes text.new ≡ string_bytes text.old ++ head_lines name.now help.now (word_of kind)) }
{
    let word = kind.word();
    write!(text, "# HELP {name} {help}\n# TYPE {name} {word}\n")
}

/// Appends the line of a sample.
fn put_sample(text: &mut String, name: &str, labels: &str, value: u64) -> Result<(), AllocError>
    ensures { OnOk result (string_bytes text.new ≡ string_bytes text.old ++ sample_line name.now (sample labels.now value)) }
{
    write!(text, "{name}{labels} {value}\n")
}

/// Appends a family of one sample.
pub fn put_single(
    text: &mut String,
    name: &str,
    help: &str,
    kind: FamilyKind,
    labels: &str,
    value: u64,
) -> Result<(), AllocError>
    ensures { OnOk result (string_bytes text.new ≡ string_bytes text.old ++ family_text (family name.now help.now kind (sample labels.now value ∷ []))) }
{
    put_head(text, name, help, kind)?;
    put_sample(text, name, labels, value)
}

/// The word of a reason.
fn reason_word(reason: Reason) -> &'static str
    ensures { result.now ≡ reason_word reason }
{
    match reason {
        Reason::InvalidId => "invalid_id",
        Reason::QueueFull => "queue_full",
        Reason::NoMemory => "no_memory",
        Reason::Evicted => "evicted",
        Reason::NotSampled => "not_sampled",
        Reason::LateNotSampled => "late_not_sampled",
        Reason::ExporterDown => "exporter_down",
    }
}

/// Appends the line of a sample with one label.
fn put_labelled(
    text: &mut String,
    name: &str,
    label: &str,
    word: &str,
    value: u64,
) -> Result<(), AllocError>
    ensures { OnOk result (string_bytes text.new ≡ string_bytes text.old ++ sample_line name.now (sample (labelled label.now word.now) value)) }
{
    write!(text, "{name}{{{label}=\"{word}\"}} {value}\n")
}

/// Appends the line of the spans that were given up for a reason.
fn put_dropped(
    text: &mut String,
    name: &str,
    report: &Report,
    reason: Reason,
) -> Result<(), AllocError>
    ensures { OnOk result (string_bytes text.new ≡ string_bytes text.old ++ sample_line name.now (dropped_sample report.now reason)) }
{
    let word = reason_word(reason);
    let number = report.number(Count::Dropped(reason));
    put_labelled(text, name, "reason", word, number)
}

/// Appends the family of the spans that were given up, a sample for each reason.
fn put_all_dropped(text: &mut String, report: &Report) -> Result<(), AllocError>
    ensures { OnOk result (string_bytes text.new ≡ string_bytes text.old ++ family_text (dropped report.now)) }
{
    let name = "tsc_spans_dropped_total";
    let help = "Spans that were given up, by the reason.";
    put_head(text, name, help, FamilyKind::Counter)?;
    let reasons = [
        Reason::InvalidId,
        Reason::QueueFull,
        Reason::NoMemory,
        Reason::Evicted,
        Reason::NotSampled,
        Reason::LateNotSampled,
        Reason::ExporterDown,
    ];
    for reason in reasons {
        put_dropped(text, name, report, reason)?;
    }
    Ok(())
}

/// Appends the family of one count of a report.
fn put_count(
    text: &mut String,
    name: &str,
    help: &str,
    report: &Report,
    count: Count,
) -> Result<(), AllocError>
    ensures { OnOk result (string_bytes text.new ≡ string_bytes text.old ++ family_text (family name.now help.now FamilyKind.Counter (sample [] (number_of report.now count) ∷ []))) }
{
    let number = report.number(count);
    put_single(text, name, help, FamilyKind::Counter, "", number)
}

/// Appends the families of the spans that were received and handed over.
fn put_spans(text: &mut String, report: &Report) -> Result<(), AllocError>
    ensures { OnOk result (string_bytes text.new ≡ string_bytes text.old ++ (family_text (received report.now) ++ family_text (handed report.now))) }
{
    put_count(
        text,
        "tsc_spans_received_total",
        "Spans of requests that were read.",
        report,
        Count::Received,
    )?;
    put_count(
        text,
        "tsc_spans_handed_total",
        "Spans whose line the sink took whole.",
        report,
        Count::Handed,
    )
}

/// Appends the families of the collector itself.
fn put_collector(text: &mut String, metrics: &Metrics) -> Result<(), AllocError>
    ensures { OnOk result (string_bytes text.new ≡ string_bytes text.old ++ (family_text (connections metrics.now) ++ (family_text (uptime metrics.now) ++ family_text build))) }
{
    put_single(
        text,
        "tsc_connections_open",
        "Connections that are open.",
        FamilyKind::Gauge,
        "",
        metrics.open_connections,
    )?;
    put_single(
        text,
        "tsc_uptime_seconds",
        "Seconds since the collector began.",
        FamilyKind::Gauge,
        "",
        metrics.uptime_seconds,
    )?;
    put_build(text)
}

/// Appends the family of the build, whose one sample tells the version by its label.
fn put_build(text: &mut String) -> Result<(), AllocError>
    ensures { OnOk result (string_bytes text.new ≡ string_bytes text.old ++ family_text build) }
{
    let name = "tsc_build_info";
    let help = "The version of the collector, as a label.";
    put_head(text, name, help, FamilyKind::Gauge)?;
    put_labelled(text, name, "version", VERSION, 1)
}

/// Appends the lines of a number beside the report.
fn put_figure(text: &mut String, metrics: &Metrics, figure: Figure) -> Result<(), AllocError>
    ensures { OnOk result (string_bytes text.new ≡ string_bytes text.old ++ figure_text metrics.now figure) }
{
    let (name, help, kind, labels) = figure.row();
    if !help.is_empty() {
        put_head(text, name, help, kind)?;
    }
    put_sample(text, name, labels, figure.value(metrics))
}

/// Appends the lines of all numbers beside the report.
fn put_figures(text: &mut String, metrics: &Metrics) -> Result<(), AllocError>
    ensures { OnOk result (string_bytes text.new ≡ string_bytes text.old ++ figures_text metrics.now) }
{
    let figures = [
        Figure::SpansWaiting,
        Figure::ReceivedBytes,
        Figure::SentBytes,
        Figure::Lines,
        Figure::OutputBytes,
        Figure::Memory,
        Figure::Answered200,
        Figure::Answered400,
        Figure::Answered404,
        Figure::Answered405,
        Figure::Answered408,
        Figure::Answered413,
        Figure::Answered415,
        Figure::Answered431,
        Figure::Answered503,
        Figure::LateSampled,
        Figure::LateNotSampled,
        Figure::Rejected,
        Figure::AttemptsTaken,
        Figure::AttemptsRefused,
        Figure::AttemptsUnanswered,
        Figure::OutputStalled,
        Figure::OldestWaiting,
        Figure::LogWarnings,
        Figure::LogErrors,
        Figure::ClockJumps,
        Figure::ClosedIdle,
        Figure::Incomplete,
    ];
    for figure in figures {
        put_figure(text, metrics, figure)?;
    }
    Ok(())
}

/// Appends the line of a number of the shard that has this number.
fn put_shard(
    text: &mut String,
    figure: ShardFigure,
    number: usize,
    shard: &ShardNumbers,
) -> Result<(), AllocError>
    ensures { OnOk result (string_bytes text.new ≡ string_bytes text.old ++ shard_line figure number shard.now) }
{
    let (name, _) = figure.row();
    let value = figure.value(shard);
    write!(text, "{name}{{shard=\"{number}\"}} {value}\n")
}

/// Appends the lines of a number of all shards.
fn put_shard_lines(
    text: &mut String,
    figure: ShardFigure,
    shards: &[ShardNumbers],
) -> Result<(), AllocError>
    ensures { OnOk result (string_bytes text.new ≡ string_bytes text.old ++ shard_lines figure 0 shards.now) }
{
    for number in 0..shards.len() {
        put_shard(text, figure, number, &shards[number])?;
    }
    Ok(())
}

/// Appends the family of a number of all shards.
fn put_shard_figure(
    text: &mut String,
    figure: ShardFigure,
    shards: &[ShardNumbers],
) -> Result<(), AllocError>
    ensures { OnOk result (string_bytes text.new ≡ string_bytes text.old ++ shard_text shards.now figure) }
{
    let (name, help) = figure.row();
    put_head(text, name, help, FamilyKind::Gauge)?;
    put_shard_lines(text, figure, shards)
}

/// Appends the families of all numbers of the shards.
fn put_shards(text: &mut String, shards: &[ShardNumbers]) -> Result<(), AllocError>
    ensures { OnOk result (string_bytes text.new ≡ string_bytes text.old ++ shards_text shards.now) }
{
    for figure in [ShardFigure::Queued, ShardFigure::Traces, ShardFigure::Spans] {
        put_shard_figure(text, figure, shards)?;
    }
    Ok(())
}

/// The text of these numbers: a few lines for each family, in the order of `families`, then of `all_figures`, then that
/// of what the policies decided, and then those of `all_shard_figures`. Each line ends with a line feed.
pub fn metrics_text(
    alloc: Global,
    metrics: &Metrics,
    policies: &[PolicyNumbers],
    shards: &[ShardNumbers],
) -> Result<String, AllocError>
    ensures { IfOk result (λ text. string_bytes text ≡ metrics_text metrics.now policies.now shards.now) }
{
    let mut text = String::new(alloc);
    put_spans(&mut text, &metrics.report)?;
    put_all_dropped(&mut text, &metrics.report)?;
    put_collector(&mut text, metrics)?;
    put_figures(&mut text, metrics)?;
    put_policies(alloc, &mut text, policies)?;
    put_shards(&mut text, shards)?;
    Ok(text)
}
