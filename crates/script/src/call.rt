// A line of a script as a call, or what is wrong with it.
// Which words are which call: specs/Calls.antt. Another call is another case here and there.
ghost use Rattle.std.specs.Prelude.{Decides};
ghost use Rattle.script.specs.Words.{Whole, body, digit_sign, hex_sign, words};
ghost use Rattle.script.specs.Calls.{Named, OneWord, TwoWords, ArgumentRead, ArgumentKeys, ArgumentBoards, Arguments, Parses};

use crate::answer::Reason;
use crate::words::{body, is_text, next_word};

// A call: `read` has the hexadecimal digits of the bytes to read, `keys` those of the eight boards' keys; `views` has a digit for each board
// of a group and for each of its changes.
#[derive(Clone, Copy, Debug, PartialEq, Eq)]
pub enum Call<'a> {
    Read(&'a [u8]),
    Keys(&'a [u8]),
    Views {
        members: &'a [u8],
        changes: &'a [u8],
    },
}

// The names of calls. Apart from `Call`: the words after a name are asked for before they are read.
#[derive(Clone, Copy, Debug, PartialEq, Eq)]
pub(crate) enum Verb {
    Read,
    Keys,
    Views,
}

// The call that a word names.
fn named(word: &[u8]) -> Option<Verb>
    ensures { Named word.now result }
{
    match word {
        b"read" => Some(Verb::Read),
        b"keys" => Some(Verb::Keys),
        b"views" => Some(Verb::Views),
        _ => None,
    }
}

// The one word there must be.
fn one_word(text: &[u8]) -> Result<&[u8], Reason>
    ensures { OneWord text.now result }
{
    let (word, rest) = next_word(text).ok_or(Reason::TooFewWords)?;
    match next_word(rest) {
        None => Ok(word),
        Some(_) => Err(Reason::TooManyWords),
    }
}

// The two words there must be.
fn two_words(text: &[u8]) -> Result<(&[u8], &[u8]), Reason>
    ensures { TwoWords text.now result }
{
    let (first, rest) = next_word(text).ok_or(Reason::TooFewWords)?;
    Ok((first, one_word(rest)?))
}

// Whether all bytes are decimal digits.
fn is_decimal(bytes: &[u8]) -> bool
    ensures { Decides result (Whole digit_sign bytes.now) }
{
    bytes.iter().all(|b| b.is_ascii_digit())
}

// Whether all bytes are hexadecimal digits.
fn is_hex(bytes: &[u8]) -> bool
    ensures { Decides result (Whole hex_sign bytes.now) }
{
    bytes.iter().all(|b| b.is_ascii_hexdigit())
}

// The digits of a word: two for each byte, and none for the dash.
fn digits(word: &[u8]) -> Result<&[u8], Reason>
    ensures { ArgumentRead word.now result }
{
    if word == b"-".as_slice() {
        return Ok(&word[..0]);
    }
    if !is_hex(word) {
        return Err(Reason::NotHexadecimal);
    }
    if word.len() % 2 == 1 {
        return Err(Reason::OddDigits);
    }
    Ok(word)
}

// The digits of eight keys of 16 bytes each.
fn key_digits(word: &[u8]) -> Result<&[u8], Reason>
    ensures { ArgumentKeys word.now result }
{
    let digits = digits(word)?;
    if digits.len() == 256 {
        Ok(digits)
    } else {
        Err(Reason::NotEightKeys)
    }
}

// The digits of boards, one each, and none for the dash.
fn board_digits(word: &[u8]) -> Result<&[u8], Reason>
    ensures { ArgumentBoards word.now result }
{
    if word == b"-".as_slice() {
        return Ok(&word[..0]);
    }
    if is_decimal(word) {
        Ok(word)
    } else {
        Err(Reason::NotDigits)
    }
}

// The call that a name and the words after it make.
fn called(verb: Verb, text: &[u8]) -> Result<Call<'_>, Reason>
    ensures { Arguments verb (words text.now) result }
{
    match verb {
        Verb::Read => Ok(Call::Read(digits(one_word(text)?)?)),
        Verb::Keys => Ok(Call::Keys(key_digits(one_word(text)?)?)),
        Verb::Views => {
            let (members, changes) = two_words(text)?;
            Ok(Call::Views {
                members: board_digits(members)?,
                changes: board_digits(changes)?,
            })
        }
    }
}

// The call of what a line says; none if it says nothing.
fn said(text: &[u8]) -> Result<Option<Call<'_>>, Reason>
    ensures { Parses text.now result }
{
    if !is_text(text) {
        return Err(Reason::NotText);
    }
    // An `else`: a line with no word is no error that `?` could pass on.
    let Some((name, rest)) = next_word(text) else {
        return Ok(None);
    };
    let verb = named(name).ok_or(Reason::UnknownCall)?;
    Ok(Some(called(verb, rest)?))
}

// The call of a line of a script; none if the line is blank.
pub fn parse(line: &[u8]) -> Result<Option<Call<'_>>, Reason>
    ensures { Parses (body line.now) result }
{
    said(body(line))
}
