//! What is told of addresses at which a collector can't listen, or to which it can't send, and of paths of files that it
//! can't write.
ghost use Rattle.std.specs.Prelude.{◌≡◌, ◌++◌, ◌≤◌, IfOk, OnOk, Some, length, take, drop, codes, string_bytes};
ghost use Rattle.std.specs.Str.{bytes_eq};
ghost use Rattle.toml.specs.Data.{get_member};
ghost use Rattle.toml.specs.View.{table_view, view};
ghost use Rattle.config_findings.specs.AddressFindings as spec;

use crate::addresses::{is_address, is_backend};
use config_faults::{ValueKind, member, value_fault};
use std::alloc::{AllocError, Global};
use toml::{Table, Value};

/// The longest path of a socket's file, in bytes: while the file is made, `.new` stands behind it, and the system takes
/// 107 (unix(7)).
const LONGEST_PATH: usize = 103;

/// The keys of addresses and of paths.
#[derive(Clone, Copy, PartialEq, Eq)]
pub enum AddressKey {
    Listen,
    Admin,
    Metrics,
    /// `endpoint` of `export`.
    Endpoint,
    Decisions,
    Record,
}

impl AddressKey {
    /// Its name, behind that of its table.
    fn name(self) -> &'static str
        ensures { result.now ≡ spec.key_name self }
    {
        match self {
            AddressKey::Listen => "listen",
            AddressKey::Admin => "admin",
            AddressKey::Metrics => "metrics",
            AddressKey::Endpoint => "export.endpoint",
            AddressKey::Decisions => "decisions",
            AddressKey::Record => "record",
        }
    }
}

/// Why an address or a path can't be one.
#[derive(Clone, Copy, PartialEq, Eq)]
pub enum AddressFault {
    /// Requests can't be taken there.
    NoListener,
    /// Those in charge, or who reads the numbers, can't be answered there.
    NoDoor,
    /// It is the path of a socket's file alone.
    PathAlone,
    /// Nothing stands behind `unix:`.
    NoPath,
    /// The path of a socket's file is too long.
    LongPath,
    /// Lines can't be sent there.
    NoBackend,
    /// The lines that are kept go to the same file.
    OutputToo,
    /// The lines of decisions go to the same file.
    DecisionsToo,
}

impl AddressFault {
    /// What would be right, and what `tsc serve` can't do.
    fn text(self) -> &'static str
        ensures { result.now ≡ spec.fault_text self }
    {
        match self {
            AddressFault::NoListener => {
                "no address: HOST:PORT, [IPV6]:PORT or :PORT is wanted (cannot listen)"
            }
            AddressFault::NoDoor => {
                "no address: HOST:PORT, [IPV6]:PORT, :PORT or unix:PATH is wanted (cannot listen)"
            }
            AddressFault::PathAlone => {
                "no address: a socket's path begins with unix: (cannot listen)"
            }
            AddressFault::NoPath => "no address: no path stands behind unix: (cannot listen)",
            AddressFault::LongPath => {
                "no address: a socket's path has at most 103 bytes (cannot listen)"
            }
            AddressFault::NoBackend => {
                "no address: HOST:PORT, with a port from 1 to 65535, is wanted behind http:// (cannot send)"
            }
            AddressFault::OutputToo => "no file of its own: the output has it (cannot write)",
            AddressFault::DecisionsToo => {
                "no file of its own: the decisions have it (cannot write)"
            }
        }
    }
}

/// An address or a path that can't be one, whatever the machine has.
#[derive(Clone, Copy)]
pub struct AddressFinding {
    /// Where it stands.
    pub key: AddressKey,
    /// Why it can't be one.
    pub fault: AddressFault,
}

impl AddressFinding {
    /// What is said of it, in one line without a line feed, as `listen: no address: ..`.
    pub fn said(&self, alloc: Global) -> Result<String, AllocError>
        ensures { IfOk result (λ said. string_bytes said ≡ spec.said_of self.now) }
    {
        let key = self.key.name();
        let text = self.fault.text();
        format!(in alloc; "{key}: {text}")
    }
}

/// Adds what is found of the addresses and paths of a table.
pub fn add_addresses(table: &Table, findings: &mut Vec<AddressFinding>) -> Result<(), AllocError>
    ensures { OnOk result (findings.new.items ≡ findings.old.items ++ spec.findings_in (table_view table.now)) }
{
    add(findings, AddressKey::Listen, listen_fault(table))?;
    add(findings, AddressKey::Admin, door_fault(table, "admin"))?;
    add(findings, AddressKey::Metrics, door_fault(table, "metrics"))?;
    add(findings, AddressKey::Endpoint, export_fault(table))?;
    add_paths(table, findings)
}

/// Adds what is found of the paths of files.
fn add_paths(table: &Table, findings: &mut Vec<AddressFinding>) -> Result<(), AllocError>
    ensures { OnOk result (findings.new.items ≡ findings.old.items ++ spec.paths_in (table_view table.now)) }
{
    let output = path_at(table, "output");
    let decisions = path_at(table, "decisions");
    let came = path_at(table, "record");
    let fault = decisions_fault(output, decisions);
    add(findings, AddressKey::Decisions, fault)?;
    let fault = record_fault(output, decisions, came);
    add(findings, AddressKey::Record, fault)
}

/// The path at a key: nothing where no text stands there.
fn path_at<'t>(table: &'t Table, key: &str) -> &'t [u8]
    ensures { result.now ≡ spec.path_at (get_member key.now (table_view table.now)) }
{
    match member(table, key) {
        Some(Value::String(text)) => text.as_bytes(),
        _ => b"",
    }
}

/// Whether a path is that of another's file; no path is of none.
fn is_same_path(path: &[u8], other: &[u8]) -> bool
    ensures { result ≡ spec.is_same_path path.now other.now }
{
    match path {
        [] => false,
        [_, ..] => path == other,
    }
}

/// Why the lines of decisions can't be written.
fn decisions_fault(output: &[u8], decisions: &[u8]) -> Option<AddressFault>
    ensures { result ≡ spec.decisions_fault output.now decisions.now }
{
    if is_same_path(decisions, output) {
        Some(AddressFault::OutputToo)
    } else {
        None
    }
}

/// Why the record of what came can't be written.
fn record_fault(output: &[u8], decisions: &[u8], came: &[u8]) -> Option<AddressFault>
    ensures { result ≡ spec.record_fault output.now decisions.now came.now }
{
    if is_same_path(came, output) {
        Some(AddressFault::OutputToo)
    } else if is_same_path(came, decisions) {
        Some(AddressFault::DecisionsToo)
    } else {
        None
    }
}

/// Adds a finding, where there is a fault.
fn add(
    findings: &mut Vec<AddressFinding>,
    key: AddressKey,
    fault: Option<AddressFault>,
) -> Result<(), AllocError>
    ensures { OnOk result (findings.new.items ≡ findings.old.items ++ spec.listed key fault) }
{
    if let Some(fault) = fault {
        findings.push(AddressFinding { key, fault })?;
    }
    Ok(())
}

/// Why requests can't be taken.
fn listen_fault(table: &Table) -> Option<AddressFault>
    ensures { result ≡ spec.at_text spec.listener_fault (get_member (codes "listen") (table_view table.now)) }
{
    match member(table, "listen") {
        Some(Value::String(text)) => listener_fault(text.as_bytes()),
        _ => None,
    }
}

/// Why nobody can be answered at the address of a key.
fn door_fault(table: &Table, key: &str) -> Option<AddressFault>
    ensures { result ≡ spec.at_text spec.door_fault (get_member key.now (table_view table.now)) }
{
    match member(table, key) {
        Some(Value::String(text)) => door_fault_of(text.as_bytes()),
        _ => None,
    }
}

/// Why lines can't be sent.
fn export_fault(table: &Table) -> Option<AddressFault>
    ensures { result ≡ spec.at_export (get_member (codes "export") (table_view table.now)) }
{
    match member(table, "export") {
        Some(value) => export_value_fault(value),
        None => None,
    }
}

fn export_value_fault(value: &Value) -> Option<AddressFault>
    ensures { result ≡ spec.at_export (Some (view value.now)) }
{
    match value {
        Value::Table(settings) => endpoint_fault(settings),
        _ => None,
    }
}

fn endpoint_fault(settings: &Table) -> Option<AddressFault>
    ensures { result ≡ spec.at_text spec.backend_fault (get_member (codes "endpoint") (table_view settings.now)) }
{
    match member(settings, "endpoint") {
        Some(value) => backend_fault(value),
        None => None,
    }
}

fn listener_fault(text: &[u8]) -> Option<AddressFault>
    ensures { result ≡ spec.listener_fault text.now }
{
    if is_address(text) {
        None
    } else {
        Some(AddressFault::NoListener)
    }
}

fn door_fault_of(text: &[u8]) -> Option<AddressFault>
    ensures { result ≡ spec.door_fault text.now }
{
    match text {
        [] => None,
        [first, ..] => {
            if is_socket(text) {
                path_fault(&text[5..])
            } else if is_address(text) {
                None
            } else if *first == b'/' || *first == b'.' {
                // It looks like a path, in front of which `unix:` was forgotten.
                Some(AddressFault::PathAlone)
            } else {
                Some(AddressFault::NoDoor)
            }
        }
    }
}

/// Whether a text begins as the address of a socket's file.
fn is_socket(text: &[u8]) -> bool
    ensures { result ≡ spec.is_socket text.now }
{
    text.len() >= 5 && begins_so(text)
}

fn begins_so(text: &[u8]) -> bool
    requires { 5 ≤ length text.now }
    ensures { result ≡ bytes_eq (take 5 text.now) (codes "unix:") }
{
    &text[..5] == b"unix:".as_slice()
}

fn path_fault(path: &[u8]) -> Option<AddressFault>
    ensures { result ≡ spec.path_fault path.now }
{
    if path.is_empty() {
        Some(AddressFault::NoPath)
    } else if path.len() > LONGEST_PATH {
        Some(AddressFault::LongPath)
    } else {
        None
    }
}

/// Why lines can't be sent to an address that has the form of one; another one is a fault.
fn backend_fault(value: &Value) -> Option<AddressFault>
    ensures { result ≡ spec.at_text spec.backend_fault (Some (view value.now)) }
{
    if value_fault(value, ValueKind::Endpoint).is_some() {
        return None;
    }
    match value {
        Value::String(text) => form_fault(text.as_bytes()),
        _ => None,
    }
}

/// Why lines can't be sent to an address that begins with `http://`.
fn form_fault(text: &[u8]) -> Option<AddressFault>
    ensures { result ≡ spec.authority_fault (drop 7 text.now) }
{
    if text.len() >= 7 && is_backend(before_slash(&text[7..])) {
        None
    } else {
        Some(AddressFault::NoBackend)
    }
}

/// What stands in front of the first slash.
fn before_slash(text: &[u8]) -> &[u8]
    ensures { result.now ≡ spec.before_slash text.now }
{
    match text.iter().position(|byte| *byte == b'/') {
        Some(at) => &text[..at],
        None => text,
    }
}
