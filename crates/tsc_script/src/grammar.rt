//! What a line says.
ghost use Rattle.std.specs.Prelude.{◌≡◌, ◌≤◌, ◌<◌, ◌==◌, length, true, position, IfSome};
ghost use Rattle.std.specs.Option.{option_map};
ghost use Rattle.tsc_script.specs.declared.limits.TheConstants.{MAX_LINE_BYTES};
ghost use Rattle.tsc_script.specs.Instructions.{instruction_of_command, instruction_of, split_word, decimal_number, words_of, tick_of, receive_of};
ghost use Rattle.std.specs.Char.{is_ascii_digit};
ghost use Rattle.std.specs.List.{list_all};
ghost use Rattle.std.specs.Str.Parse.{digits_value};

use crate::command::ScriptCommand;

/// Reads a line, where it is one of the three forms.
#[tactic(auto, unfolding(crate::specs::Instructions::instruction_of))]
pub(crate) fn parse(line: &[u8]) -> Option<ScriptCommand<'_>>
    requires { length line.now ≤ MAX_LINE_BYTES }
    ensures { option_map instruction_of_command result ≡ instruction_of line.now }
{
    if line == b"close".as_slice() {
        Some(ScriptCommand::Close)
    } else {
        parse_words(line)
    }
}

/// Reads a line of several words.
fn parse_words(line: &[u8]) -> Option<ScriptCommand<'_>>
    ensures { option_map instruction_of_command result ≡ words_of line.now }
{
    let (word, rest) = split_word(line)?;
    if word == b"tick".as_slice() {
        parse_tick(rest)
    } else if word == b"recv".as_slice() {
        parse_receive(rest)
    } else {
        None
    }
}

/// Reads a moment.
fn parse_tick(text: &[u8]) -> Option<ScriptCommand<'_>>
    ensures { option_map instruction_of_command result ≡ tick_of text.now }
{
    let moment = number(text)?;
    Some(ScriptCommand::Tick { moment })
}

/// Reads a connection, a moment, and the rest of the line.
fn parse_receive(text: &[u8]) -> Option<ScriptCommand<'_>>
    ensures { option_map instruction_of_command result ≡ receive_of text.now }
{
    let (connection, rest) = split_word(text)?;
    let (moment, json) = split_word(rest)?;
    let connection = number(connection)?;
    let moment = number(moment)?;
    Some(ScriptCommand::Receive {
        connection,
        moment,
        json,
    })
}

/// The text before the first space, and the text behind it.
fn split_word(text: &[u8]) -> Option<(&[u8], &[u8])>
    ensures { option_map (λ pair. (pair.0.now, pair.1.now)) result ≡ split_word text.now }
{
    let at = find_space(text)?;
    Some((&text[..at], &text[at + 1..]))
}

/// The place of the first space.
fn find_space(text: &[u8]) -> Option<usize>
    ensures place { result ≡ position (λ byte. byte == 32) text.now }
    ensures within { IfSome result (λ at. at < length text.now) }
{
    text.iter().position(|byte| *byte == b' ')
}

/// The number that one to twenty decimal digits say, where it fits.
fn number(text: &[u8]) -> Option<u64>
    ensures { result ≡ decimal_number text.now }
{
    if text.is_empty() || text.len() > 20 || !are_digits(text) {
        return None;
    }
    u64::try_from(value_of(text)).ok()
}

/// Whether each byte is a decimal digit.
fn are_digits(text: &[u8]) -> bool
    ensures { result ≡ list_all is_ascii_digit text.now }
{
    text.iter().all(|byte| byte.is_ascii_digit())
}

/// The number that at most twenty digits say.
fn value_of(text: &[u8]) -> u128
    requires short { length text.now ≤ 20 }
    requires digits { list_all is_ascii_digit text.now ≡ true }
    ensures { result ≡ digits_value 10 text.now }
{
    let mut value = 0u128;
    for byte in text {
        value = value * 10 + u128::from(*byte - b'0');
    }
    value
}
