// Sets of places in a text. A set has a `bool` for the place in front of each character, and one
// for the end.
ghost use Rattle.std.specs.Prelude.{◌≡◌, ◌+◌, ◌-◌, ◌≤◌, ◌==◌, ◌↔◌, true, false, ◌++◌, length, take, replicate, chars, IsTrue, OnOk};
ghost use Rattle.nextest_filtering_globs.specs.Inside.{fits, next_places, later, either_of, none_of, start_of, has_last};

use super::character::Character;
use super::fitting::fits;
use super::token::GlobToken;
use std::alloc::AllocError;

/// The characters of a text, in place of others.
pub fn read_characters(text: &str, characters: &mut Vec<char>) -> Result<(), AllocError>
    ensures { OnOk result (characters.new.items ≡ chars text.now) }
{
    characters.clear();
    characters.extend(text.chars())
}

/// Each of these as a character, in place of others.
pub fn read_each<C: Character>(text: &[C], characters: &mut Vec<char>) -> Result<(), AllocError>
    ensures { OnOk result (characters.new.items ≡ C.codes text.now) }
{
    characters.clear();
    for c in text {
        characters.push(c.character())?;
    }
    Ok(())
}

/// The set that has just the place in front of the text, in place of another.
pub fn begin(text: &[char], places: &mut Vec<bool>) -> Result<(), AllocError>
    ensures { OnOk result (places.new.items ≡ start_of text.now) }
{
    places.clear();
    places.push(true)?;
    places.resize(text.len() + 1, false)
}

/// Whether the end of the text is in the set.
pub fn has_last(places: &[bool]) -> bool
    ensures { result ≡ has_last places.now }
{
    match places.last() {
        Some(is_there) => *is_there,
        None => false,
    }
}

/// Whether no place is in the set.
pub fn is_nowhere(places: &[bool]) -> bool
    ensures { IsTrue result ↔ (places.now ≡ none_of places.now) }
{
    let mut is_found = false;
    for is_there in places {
        is_found |= *is_there;
    }
    !is_found
}

/// Moves each place on by one where the token fits the character behind it, and takes it away
/// elsewhere.
pub fn advance(token: &GlobToken, text: &[char], places: &mut [bool])
    requires { length places.old ≡ length text.now + 1 }
    ensures { places.new ≡ next_places (fits token.now) false text.now places.old }
{
    match token {
        GlobToken::Literal(letter) => advance_letter(*letter, text, places),
        GlobToken::Any => advance_any(text, places),
        _ => advance_fitting(token, text, places),
    }
}

// Where the character is this one.
fn advance_letter(letter: char, text: &[char], places: &mut [bool])
    requires { length places.old ≡ length text.now + 1 }
    ensures { places.new ≡ next_places (λ c. c == letter) false text.now places.old }
{
    for place in (0..text.len()).rev() {
        places[place + 1] = places[place] & (text[place] == letter);
    }
    places[0] = false;
}

// Whatever the character is.
fn advance_any(text: &[char], places: &mut [bool])
    requires { length places.old ≡ length text.now + 1 }
    ensures { places.new ≡ next_places (λ _. true) false text.now places.old }
{
    places.copy_within(..text.len(), 1);
    places[0] = false;
}

// Where the token fits the character.
fn advance_fitting(token: &GlobToken, text: &[char], places: &mut [bool])
    requires { length places.old ≡ length text.now + 1 }
    ensures { places.new ≡ next_places (fits token.now) false text.now places.old }
{
    let mut carried = false;
    for (place, c) in text.iter().enumerate() {
        let goes_on = places[place] && fits(token, *c);
        places[place] = carried;
        carried = goes_on;
    }
    places[text.len()] = carried;
}

// The first place that is in the set, or how many places there are.
fn first_place(places: &[bool]) -> usize
    ensures within { result ≤ length places.now }
    ensures first { later false places.now
        ≡ take result places.now ++ replicate (length places.now - result) true }
{
    for (place, is_there) in places.iter().enumerate() {
        if *is_there {
            return place;
        }
    }
    places.len()
}

/// Adds to each place all later ones.
pub fn add_later(places: &mut [bool])
    ensures { places.new ≡ later false places.old }
{
    let first = first_place(places);
    places[first..].fill(true);
}

/// Adds the places of another set.
pub fn join(places: &mut [bool], others: &[bool])
    requires { length others.now ≡ length places.old }
    ensures { places.new ≡ either_of places.old others.now }
{
    for (place, other) in others.iter().enumerate() {
        places[place] |= *other;
    }
}
