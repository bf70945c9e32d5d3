//! Every fault of the text of a configuration.
ghost use Rattle.std.specs.Prelude.{◌≡◌, ◌≢◌, ◌⊎◌, ◌++◌, ◌+◌, ◌≤◌, [], Some, IfOk, IsOk, IsErr, OnOk, length};
ghost use Rattle.config_faults.specs.Faults.{twice_fault};
ghost use Rattle.config_findings.specs.AddressFindings.{text_addresses};
ghost use Rattle.config_findings.specs.FaultLists as spec;
ghost use Rattle.toml.specs.View.{table_view};
ghost use Rattle.tsc_config.specs.FaultSets.{MayBeTooBig};
ghost use Rattle.tsc_config.specs.Reading.{reading};
ghost use Rattle.tsc_config.specs.Values.{config_of};

use crate::address_findings::{AddressFinding, add_addresses};
use crate::expressions::add_expressions;
use crate::finding_texts::{no_toml_text, policy_fault_text, twice_text};
use crate::findings::{ConfigFinding, Findings};
use crate::policy_findings::add_policies;
use crate::settings_findings::{add_rows, add_settings, add_unknown};
use config_faults::{
    ConfigFault, NumberKey, TableKind, cache_settings, export_settings, ledger_settings, member,
    top_settings, twice_fault,
};
use policy_tree::Policies;
use std::alloc::{AllocError, Global};
use toml::Table;
use toml::de::Error;
use tsc_config::{number_at, policies_at};

/// What is told of the text of a configuration.
#[derive(Drop)]
pub struct AllFindings {
    /// Its faults.
    pub faults: Vec<ConfigFinding>,
    /// Its addresses that can't be one, which are no fault: only `listen`, `admin`, `metrics` and `endpoint` of
    /// `export`, in this order.
    pub addresses: Vec<AddressFinding>,
}

/// Every fault of the text of a configuration, as `tsc_config::read` reads it: those of its keys and values, a line for
/// each place that has one, and then those of what they give, where a value with a fault counts as its key's default;
/// of regular expressions those in policies without a fault of their own. Last come expressions that take too much
/// memory, which the text doesn't tell: at most as many as it has. There is none only where the text is read as a
/// configuration; and where there is one, `read` refuses the text for that of least number
/// ([`crate::laws::lists_each_fault`]), or it is read as a configuration that has an expression. `Err` only where
/// memory was refused.
#[tactic(auto, using(crate::proofs::Told::none_found))]
pub fn faults(alloc: Global, text: &str) -> Result<AllFindings, AllocError>
    ensures faults { IfOk result (λ all. spec.Tells text.now (spec.faults_in all.faults.items)) }
    ensures none { IfOk result (λ all. (all.faults.items ≡ []) → IsOk (reading text.now)) }
    ensures some { IfOk result (λ all. (all.faults.items ≢ []) → IsErr (reading text.now) ⊎ MayBeTooBig (reading text.now)) }
    ensures addresses { IfOk result (λ all. all.addresses.items ≡ text_addresses text.now) }
{
    let mut addresses = Vec::new(alloc);
    let faults = all_faults(alloc, text, &mut addresses)?;
    Ok(AllFindings { faults, addresses })
}

/// Every fault of a text; adds what is found of its addresses.
#[tactic(auto, using(crate::proofs::Told::none_found))]
fn all_faults(
    alloc: Global,
    text: &str,
    addresses: &mut Vec<AddressFinding>,
) -> Result<Vec<ConfigFinding>, AllocError>
    ensures faults { IfOk result (λ found. spec.Tells text.now (spec.faults_in found.items)) }
    ensures none { IfOk result (λ found. (found.items ≡ []) → IsOk (reading text.now)) }
    ensures some { IfOk result (λ found. (found.items ≢ []) → IsErr (reading text.now) ⊎ MayBeTooBig (reading text.now)) }
    ensures addresses { IfOk result (λ found. addresses.new.items ≡ addresses.old.items ++ text_addresses text.now) }
{
    let mut findings = Findings::new(alloc);
    let mut big = Vec::new(alloc);
    add_faults(alloc, text, &mut findings, &mut big, addresses)?;
    findings.with_big(big)
}

/// Adds the faults of a text, and what is said of its expressions that are too big.
fn add_faults(
    alloc: Global,
    text: &str,
    findings: &mut Findings,
    big: &mut Vec<String>,
    addresses: &mut Vec<AddressFinding>,
) -> Result<(), AllocError>
    ensures faults { OnOk result (findings.new ≡ findings.old ++ spec.text_faults text.now) }
    ensures big { OnOk result (length big.new.items ≤ length big.old.items + spec.text_expressions text.now) }
    ensures addresses { OnOk result (addresses.new.items ≡ addresses.old.items ++ text_addresses text.now) }
{
    match toml::table_from_str(alloc, text) {
        Ok(table) => {
            add_addresses(&table, addresses)?;
            add_table(alloc, &table, findings, big)
        }
        Err(error) if error.is_memory() => Err(AllocError),
        Err(error) => {
            let said = no_toml_text(alloc, before_fault(text, &error))?;
            findings.add(ConfigFault::NotToml, said)
        }
    }
}

/// What stands in front of the place where a text was found to be no TOML.
fn before_fault<'t>(text: &'t str, error: &Error) -> &'t [u8] {
    let bytes = text.as_bytes();
    match error.span() {
        Some(span) if span.start <= bytes.len() => &bytes[..span.start],
        _ => bytes,
    }
}

/// Adds the faults of the table of a configuration, and of what it gives.
fn add_table(
    alloc: Global,
    table: &Table,
    findings: &mut Findings,
    big: &mut Vec<String>,
) -> Result<(), AllocError>
    ensures faults { OnOk result (findings.new ≡ findings.old ++ spec.document_faults (Some (table_view table.now))) }
    ensures big { OnOk result (length big.new.items ≤ length big.old.items + spec.document_expressions (Some (table_view table.now))) }
{
    add_unknown(alloc, "", TableKind::Config, table, findings)?;
    add_twice(alloc, table, findings)?;
    add_rows(alloc, "", &top_settings(), table, findings)?;
    add_tables(alloc, table, findings)?;
    add_given(alloc, table, findings, big)
}

/// Adds the fault that both names of one setting stand there.
fn add_twice(alloc: Global, table: &Table, findings: &mut Findings) -> Result<(), AllocError>
    ensures { OnOk result (findings.new ≡ findings.old ++ spec.listed (twice_fault (table_view table.now))) }
{
    match twice_fault(table) {
        Some(fault) => {
            let name = NumberKey::RootReceived.row().0;
            findings.add(fault, twice_text(alloc, name, NumberKey::RootWait.row().0)?)
        }
        None => Ok(()),
    }
}

/// Adds the faults of the tables at the keys of tables.
fn add_tables(alloc: Global, table: &Table, findings: &mut Findings) -> Result<(), AllocError>
    ensures { OnOk result (findings.new ≡ findings.old ++ spec.tables_faults (table_view table.now)) }
{
    if let Some(value) = member(table, "decision_cache") {
        let kind = TableKind::DecisionCache;
        add_settings(
            alloc,
            "decision_cache",
            kind,
            &cache_settings(),
            value,
            findings,
        )?;
    }
    if let Some(value) = member(table, "export") {
        let kind = TableKind::Export;
        add_settings(alloc, "export", kind, &export_settings(), value, findings)?;
    }
    if let Some(value) = member(table, "ledger") {
        let kind = TableKind::Ledger;
        add_settings(alloc, "ledger", kind, &ledger_settings(), value, findings)?;
    }
    match member(table, "policies") {
        Some(value) => add_policies(alloc, value, findings),
        None => findings.add_missing(alloc, "policies"),
    }
}

/// Adds the faults of what the table gives, and what is said of its expressions that are too big.
fn add_given(
    alloc: Global,
    table: &Table,
    findings: &mut Findings,
    big: &mut Vec<String>,
) -> Result<(), AllocError>
    ensures faults { OnOk result (findings.new ≡ findings.old ++ spec.given_faults (config_of (table_view table.now))) }
    ensures big { OnOk result (length big.new.items ≤ length big.old.items + spec.policies_expressions (config_of (table_view table.now)).policies) }
{
    let traces = number_at(table, NumberKey::NumTraces);
    if traces < number_at(table, NumberKey::Shards) {
        let said = String::from_str(alloc, "num_traces: fewer than shards")?;
        findings.add(ConfigFault::TooFewTraces, said)?;
    }
    match Policies::new(alloc, policies_at(alloc, table)?) {
        Ok(policies) => add_expressions(alloc, table, &policies, findings, big),
        Err(fault) => {
            let said = policy_fault_text(alloc, table, fault)?;
            findings.add(ConfigFault::Policy(fault), said)
        }
    }
}
