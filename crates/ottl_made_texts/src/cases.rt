//! Letters in another case, one by one.
ghost use Rattle.std.specs.Prelude.{◌≡◌, ◌+◌, ◌<◌, ◌≤◌, IsSome, None};
ghost use Rattle.std.specs.Char.Iter.{case_mapping_first, case_mapping_second, case_mapping_third, case_mapping_chars};
ghost use Rattle.ottl_made_texts.specs.Cases as spec;

use ottl_text::Case;
use std::char::ToLowercase;

/// The one letter that a letter becomes, if it is one.
fn only(mut mapped: ToLowercase) -> Option<char>
    requires some { IsSome (case_mapping_first mapped) }
    requires packed { case_mapping_second mapped ≡ None → case_mapping_third mapped ≡ None }
    ensures { result ≡ spec.only (case_mapping_chars mapped) }
{
    match (mapped.next(), mapped.next()) {
        (Some(letter), None) => Some(letter),
        _ => None,
    }
}

/// A letter so many places on.
fn moved(letter: char, places: u32) -> char
    requires letter { letter < 0x2000 }
    requires places { places ≤ 9 }
    ensures { result ≡ letter + places }
{
    match char::from_u32(letter as u32 + places) {
        Some(other) => other,
        None => unreachable!(),
    }
}

/// The letter in upper case where it becomes more than one in full.
fn upper_of_long(letter: char) -> char
    ensures { result ≡ spec.upper_of_long letter }
{
    match letter {
        '\u{1F80}'..='\u{1F87}' | '\u{1F90}'..='\u{1F97}' | '\u{1FA0}'..='\u{1FA7}' => {
            moved(letter, 8)
        }
        '\u{1FB3}' | '\u{1FC3}' | '\u{1FF3}' => moved(letter, 9),
        _ => letter,
    }
}

/// The same in lower case.
fn lower_of_long(letter: char) -> char
    ensures { result ≡ spec.lower_of_long letter }
{
    if letter == '\u{130}' { 'i' } else { letter }
}

/// A letter in a case.
#[tactic(auto, unfolding(crate::specs::Cases::letter_in))]
pub(crate) fn letter_in(case: Case, letter: char) -> char
    ensures { result ≡ spec.letter_in case letter }
{
    match case {
        Case::Lower => match only(letter.to_lowercase()) {
            Some(lower) => lower,
            None => lower_of_long(letter),
        },
        Case::Upper => match only(letter.to_uppercase()) {
            Some(upper) => upper,
            None => upper_of_long(letter),
        },
    }
}
