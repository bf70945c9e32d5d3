//! What the program can be asked for, and what its arguments ask for.
ghost use Rattle.std.specs.Prelude.{◌≡◌, IfSome, IfNone, map, string_bytes};
ghost use Rattle.collector_commands.specs.Courses.{AsksFor, AsksNothing, asked_alone, asked_before, asked_by, asked_of_two};

/// How a comparison is told.
#[derive(Clone, Copy, PartialEq, Eq)]
pub enum Form {
    /// As a text for people.
    Text,
    /// As one object of JSON.
    Json,
    /// As a page of HTML.
    Page,
}

/// How a ledger's folder is told.
#[derive(Clone, Copy, PartialEq, Eq)]
pub enum LedgerForm {
    /// As numbers, a line each.
    Numbers,
    /// As a script of the requests that are pending.
    Script,
}

/// What the program is asked to do.
#[derive(Clone, Copy, PartialEq, Eq)]
pub enum Command {
    /// To run a script.
    Replay,
    /// To run a script by two configurations, and to tell what each keeps.
    Compare(Form),
    /// To take requests on a listener.
    Serve,
    /// To tell every fault of a configuration.
    Validate,
    /// To ask a running collector to close.
    Close,
    /// To show a request in protobuf as JSON.
    Show,
    /// To tell what is in the folder of a ledger.
    Ledger(LedgerForm),
    /// To tell what can be asked for.
    Help,
    /// To tell its version.
    Version,
}

/// The program's version.
pub const VERSION: &str = "0.1.0";

/// What can be asked for.
pub const HELP: &[u8] = b"\
tsc: a tail-sampling trace collector

  tsc serve CONFIG     takes requests until it is closed, and prints the spans that it keeps and a report
  tsc replay CONFIG    runs a script of requests from standard input, and prints the same and its replies
  tsc compare OLD NEW  runs a script by two configurations, and prints what each keeps and where they differ;
                       with --json as JSON, with --html as a page
  tsc validate CONFIG  prints ok, or a line for each fault of the configuration
  tsc close CONFIG     asks the collector that runs by the configuration to close, and waits for its answer
  tsc show             prints a request in protobuf, from standard input, as its line of JSON
  tsc ledger DIR       tells what is in the folder of a ledger; with --script prints the requests that are pending
                       as a script for tsc replay
  tsc help             prints this text
  tsc version          prints the version

CONFIG, OLD and NEW are paths of TOML files. The exit status is 0 where all was done, 1 where a write failed, 2 for wrong
arguments, 3 for a refused configuration, 4 for a refused script or request, 5 for no memory, 6 where the address
can't be listened at or the collector doesn't answer that it closes, and 7 for a full book.
";

/// What the arguments ask for, and the paths, where there are some: of the configuration, or of a ledger's folder; and of
/// the second configuration of a comparison.
pub fn asked(arguments: &[String]) -> Option<(Command, &str, &str)>
    ensures some { IfSome result (λ asked. AsksFor (map string_bytes arguments.now) asked.0) }
    ensures none { IfNone result (AsksNothing (map string_bytes arguments.now)) }
{
    match arguments {
        [word] => Some((asked_alone(word.as_str())?, "", "")),
        [word, path] => Some((asked_by(word.as_str())?, path.as_str(), "")),
        [word, path, last] => Some((
            asked_before(word.as_str(), last.as_str())?,
            path.as_str(),
            last.as_str(),
        )),
        [word, old, new, form] => Some((
            asked_of_two(word.as_str(), form.as_str())?,
            old.as_str(),
            new.as_str(),
        )),
        _ => None,
    }
}

/// What a word asks for that stands before a path and a last word: the second configuration's path, or how a ledger's
/// folder is told.
#[tactic(auto, unfolding(crate::specs::Courses::asked_before))]
fn asked_before(word: &str, last: &str) -> Option<Command>
    ensures { result ≡ asked_before word.now last.now }
{
    match (word, last) {
        ("compare", _) => Some(Command::Compare(Form::Text)),
        ("ledger", "--script") => Some(Command::Ledger(LedgerForm::Script)),
        _ => None,
    }
}

/// What a word asks for that stands before the paths of two configurations, by the word behind them.
#[tactic(auto, unfolding(crate::specs::Courses::asked_of_two))]
fn asked_of_two(word: &str, form: &str) -> Option<Command>
    ensures { result ≡ asked_of_two word.now form.now }
{
    match (word, form) {
        ("compare", "") => Some(Command::Compare(Form::Text)),
        ("compare", "--json") => Some(Command::Compare(Form::Json)),
        ("compare", "--html") => Some(Command::Compare(Form::Page)),
        _ => None,
    }
}

/// What a word asks for that stands alone.
#[tactic(auto, unfolding(crate::specs::Courses::asked_alone))]
fn asked_alone(word: &str) -> Option<Command>
    ensures { result ≡ asked_alone word.now }
{
    match word {
        "help" | "-h" | "--help" => Some(Command::Help),
        "version" | "--version" => Some(Command::Version),
        "show" => Some(Command::Show),
        _ => None,
    }
}

/// What a word asks for that stands before the path of a configuration, or of a ledger's folder.
#[tactic(auto, unfolding(crate::specs::Courses::asked_by))]
fn asked_by(word: &str) -> Option<Command>
    ensures { result ≡ asked_by word.now }
{
    match word {
        "replay" => Some(Command::Replay),
        "serve" => Some(Command::Serve),
        "validate" => Some(Command::Validate),
        "close" => Some(Command::Close),
        "ledger" => Some(Command::Ledger(LedgerForm::Numbers)),
        _ => None,
    }
}
