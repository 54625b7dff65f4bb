//! Cuts SQL text into tokens.
#![tactic(auto, using(crate::proofs::Cuts::cuts))]

ghost use Rattle.std.specs.Prelude.{◌≡◌, ◌+◌, ◌-◌, true, Ok, ◌<◌, ◌≤◌, drop, get_or, length, take, List, IfErr};
ghost use Rattle.std.specs.Prelude.{IfOk, IfSome, None, option_map, slice_index};
ghost use Rattle.std.specs.List.{AllByRecursion, prefix_len};
ghost use Rattle.std.specs.Char.{is_ascii_digit};
ghost use Rattle.filter_sql.specs.Words.{AreTokens, EndsAt, TokenTree, canonical, fault_at, items, stopped, trees};
ghost use Rattle.filter_sql.specs.Words.{Gives, name_token, quoted_token, string_bytes, bytes_at, number_at};
ghost use Rattle.filter_sql.specs.Words.{is_word_byte, is_word_start, keyword_named, keyword_text, mark_of};
ghost use Rattle.filter_sql.specs.Words.{parameter_at, quoted_at, token_at, token_tree, unquoted_at, view};
ghost use Rattle.filter_sql.specs.Words.{after_digits, after_fraction, after_minus, after_number, after_power};
ghost use Rattle.filter_sql.specs.Words.{after_sign, is_number, number_goes_on, word_at};

use crate::error::ParseError;
use crate::token::{Keyword, Placed, Token};
use hex::FromHexError;
use std::alloc::{AllocError, Global};
use vortex_filter::CompareOperator;

/// Why no token was read.
#[derive(Clone, Copy, Debug, PartialEq, Eq)]
pub(crate) enum LexError {
    OutOfMemory,
    BadText,
}

const KEYWORDS: [Keyword; 13] = [
    Keyword::And,
    Keyword::Or,
    Keyword::Not,
    Keyword::In,
    Keyword::Is,
    Keyword::Null,
    Keyword::Between,
    Keyword::Like,
    Keyword::Ilike,
    Keyword::Escape,
    Keyword::True,
    Keyword::False,
    Keyword::StartsWith,
];

/// The word in lower case.
pub(crate) fn keyword_text(keyword: Keyword) -> &'static str
    ensures { result.now ≡ keyword_text keyword }
{
    match keyword {
        Keyword::And => "and",
        Keyword::Or => "or",
        Keyword::Not => "not",
        Keyword::In => "in",
        Keyword::Is => "is",
        Keyword::Null => "null",
        Keyword::Between => "between",
        Keyword::Like => "like",
        Keyword::Ilike => "ilike",
        Keyword::Escape => "escape",
        Keyword::True => "true",
        Keyword::False => "false",
        Keyword::StartsWith => "starts_with",
    }
}

/// The keyword that the word is, in any case.
#[tactic(auto, using(crate::proofs::Cuts::cuts), unfolding(crate::specs::Tokens::keyword_named))]
fn keyword_named(word: &str) -> Option<Keyword>
    ensures { result ≡ keyword_named word.now }
{
    for keyword in KEYWORDS {
        if word.eq_ignore_ascii_case(keyword_text(keyword)) {
            return Some(keyword);
        }
    }
    None
}

fn is_word_start(byte: u8) -> bool
    ensures { result ≡ is_word_start byte }
{
    byte.is_ascii_alphabetic() || byte == b'_'
}

fn is_word_byte(byte: u8) -> bool
    ensures { result ≡ is_word_byte byte }
{
    is_word_start(byte) || byte.is_ascii_digit()
}

/// What follows so many bytes; the last of them is ASCII.
fn past(text: &str, count: usize) -> &str
    requires some { 0 < count }
    requires within { count ≤ length text.now }
    requires ascii { get_or text.now (count - 1) 0 < 128 }
    ensures { result.now ≡ drop count text.now }
{
    &text[count..]
}

/// The token of one or two bytes that stand first in a text, and how many it takes.
#[tactic(auto, using(crate::proofs::Cuts::cuts), unfolding(crate::specs::Lexing::mark_of))]
fn mark(first: u8, second: u8) -> Option<(Token, usize)>
    ensures token { option_map (λ m. (token_tree m.0, m.1)) result ≡ mark_of first second }
    ensures short { IfSome result (λ m. (0 < m.1) × (m.1 ≤ 2)) }
    ensures first { IfSome result (λ m. m.1 ≡ 1 → first < 128) }
    ensures second { IfSome result (λ m. m.1 ≡ 2 → (0 < second) × (second < 128)) }
{
    let (token, count) = match (first, second) {
        (b'(', _) => (Token::Open, 1),
        (b')', _) => (Token::Close, 1),
        (b',', _) => (Token::Comma, 1),
        (b'=', _) => (Token::Operator(CompareOperator::Eq), 1),
        (b'<', b'=') => (Token::Operator(CompareOperator::Lte), 2),
        (b'<', b'>') => (Token::Operator(CompareOperator::NotEq), 2),
        (b'<', _) => (Token::Operator(CompareOperator::Lt), 1),
        (b'>', b'=') => (Token::Operator(CompareOperator::Gte), 2),
        (b'>', _) => (Token::Operator(CompareOperator::Gt), 1),
        (b'!', b'=') => (Token::Operator(CompareOperator::NotEq), 2),
        _ => return None,
    };
    Some((token, count))
}

/// What stands before the lone quote, each doubled quote once, and what follows it.
fn unquoted(alloc: Global, text: &str, quote: char) -> Result<Option<(String, &str)>, AllocError>
    requires { quote < 128 }
    ensures { IfOk result (λ found. option_map (λ x. (string_bytes x.0, x.1.now)) found ≡ unquoted_at quote text.now) }
{
    let mut content = String::new(alloc);
    let mut rest = text;
    while let Some((part, after)) = rest.split_once(quote) {
        content.push_str(part)?;
        match after.strip_prefix(quote) {
            Some(more) => {
                content.push(quote)?;
                rest = more;
            }
            None => return Ok(Some((content, after))),
        }
    }
    Ok(None)
}

/// A name or a string, behind its first quote.
fn quoted(alloc: Global, text: &str, quote: char) -> Result<(Token, &str), LexError>
    requires { quote < 128 }
    ensures { Gives view result (quoted_at quote text.now) }
{
    match unquoted(alloc, text, quote) {
        Ok(Some((content, after))) => Ok((quoted_token(content, quote), after)),
        Ok(None) => Err(LexError::BadText),
        Err(_) => Err(LexError::OutOfMemory),
    }
}

fn quoted_token(content: String, quote: char) -> Token
    ensures { token_tree result ≡ quoted_token quote (string_bytes content) }
{
    if quote == '"' {
        Token::Name(content)
    } else {
        Token::Text(content)
    }
}

/// The bytes behind `x'`.
#[tactic(auto, using(crate::proofs::Cuts::cuts), unfolding(crate::specs::Lexing::bytes_at))]
fn hexadecimal(alloc: Global, text: &str) -> Result<(Token, &str), LexError>
    ensures { Gives view result (bytes_at text.now) }
{
    let Some((digits, after)) = text.split_once('\'') else {
        return Err(LexError::BadText);
    };
    match hex::decode(alloc, digits) {
        Ok(bytes) => Ok((Token::Bytes(bytes), after)),
        Err(FromHexError::OutOfMemory) => Err(LexError::OutOfMemory),
        Err(_) => Err(LexError::BadText),
    }
}

/// How many digits stand first.
fn digits_len(text: &[u8]) -> usize
    ensures { result ≡ prefix_len is_ascii_digit text.now }
{
    text.iter().take_while(|byte| byte.is_ascii_digit()).count()
}

/// What follows digits, if one stands first.
#[tactic(auto, using(crate::proofs::Cuts::cuts), unfolding(crate::specs::Lexing::after_digits))]
fn after_digits(text: &str) -> Option<&str>
    ensures { option_map (λ rest. rest.now) result ≡ after_digits text.now }
{
    let count = digits_len(text.as_bytes());
    if count == 0 {
        return None;
    }
    Some(past(text, count))
}

/// What follows a point and digits, if a point stands first.
#[tactic(auto, using(crate::proofs::Cuts::cuts), unfolding(crate::specs::Lexing::after_fraction))]
fn after_fraction(text: &str) -> Option<&str>
    ensures { option_map (λ rest. rest.now) result ≡ after_fraction text.now }
{
    match text.as_bytes() {
        [b'.', ..] => after_digits(past(text, 1)),
        _ => Some(text),
    }
}

/// What follows an exponent, if an `e` stands first.
#[tactic(auto, using(crate::proofs::Cuts::cuts), unfolding(crate::specs::Lexing::after_power))]
fn after_power(text: &str) -> Option<&str>
    ensures { option_map (λ rest. rest.now) result ≡ after_power text.now }
{
    match text.as_bytes() {
        [b'e' | b'E', ..] => after_digits(after_sign(past(text, 1))),
        _ => Some(text),
    }
}

/// What follows a sign, if one stands first.
fn after_sign(text: &str) -> &str
    ensures { result.now ≡ after_sign text.now }
{
    match text.as_bytes() {
        [b'+' | b'-', ..] => past(text, 1),
        _ => text,
    }
}

/// What follows a number without a sign.
fn after_number(text: &str) -> Option<&str>
    ensures { option_map (λ rest. rest.now) result ≡ after_number text.now }
{
    after_power(after_fraction(after_digits(text)?)?)
}

/// What follows a minus sign, if one stands first.
fn after_minus(text: &str) -> &str
    ensures { result.now ≡ after_minus text.now }
{
    match text.as_bytes() {
        [b'-', ..] => past(text, 1),
        _ => text,
    }
}

/// Whether a text begins with what cannot stand behind a number.
fn goes_on(text: &str) -> bool
    ensures { result ≡ number_goes_on (slice_index text.now 0) }
{
    match text.as_bytes() {
        [byte, ..] => byte.is_ascii_digit() || matches!(*byte, b'.' | b'e' | b'E'),
        [] => false,
    }
}

/// Whether a word is a number, to its end.
pub(crate) fn is_number(word: &str) -> bool
    ensures { result ≡ is_number word.now }
{
    match after_number(after_minus(word)) {
        Some(rest) => rest.is_empty(),
        None => false,
    }
}

/// A number, with a minus sign or none.
#[tactic(auto, using(crate::proofs::Cuts::cuts), unfolding(crate::specs::Lexing::number_at))]
fn number(alloc: Global, text: &str) -> Result<(Token, &str), LexError>
    ensures { Gives view result (number_at text.now) }
{
    let Some(after) = after_number(after_minus(text)) else {
        return Err(LexError::BadText);
    };
    if goes_on(after) {
        return Err(LexError::BadText);
    }
    match String::from_str(alloc, &text[..text.len() - after.len()]) {
        Ok(word) => Ok((Token::Number(word), after)),
        Err(_) => Err(LexError::OutOfMemory),
    }
}

/// A name such as `$1`.
#[tactic(auto, using(crate::proofs::Cuts::cuts), unfolding(crate::specs::Lexing::parameter_at))]
fn parameter(alloc: Global, text: &str) -> Result<(Token, &str), LexError>
    requires some { 0 < length text.now }
    requires dollar { get_or text.now 0 0 ≡ 36 }
    ensures { Gives view result (parameter_at text.now) }
{
    let digits = past(text, 1);
    let count = digits_len(digits.as_bytes());
    if count == 0 {
        return Err(LexError::BadText);
    }
    let after = past(digits, count);
    name(alloc, text, text.len() - after.len())
}

/// The bare name of so many bytes.
fn name(alloc: Global, text: &str, count: usize) -> Result<(Token, &str), LexError>
    requires some { 0 < count }
    requires within { count ≤ length text.now }
    requires ascii { get_or text.now (count - 1) 0 < 128 }
    ensures { Gives view result (Ok (name_token (take count text.now), drop count text.now)) }
{
    let after = past(text, count);
    match String::from_str(alloc, &text[..count]) {
        Ok(content) => Ok((Token::Name(content), after)),
        Err(_) => Err(LexError::OutOfMemory),
    }
}

/// How many bytes of a word stand first.
pub(crate) fn word_len(text: &[u8]) -> usize
    ensures { result ≡ prefix_len is_word_byte text.now }
{
    text.iter().take_while(|byte| is_word_byte(**byte)).count()
}

/// A keyword or a bare name.
#[tactic(auto, using(crate::proofs::Cuts::cuts), unfolding(crate::specs::Lexing::word_at))]
fn word(alloc: Global, text: &str) -> Result<(Token, &str), LexError>
    requires { is_word_start (get_or text.now 0 0) ≡ true }
    ensures { Gives view result (word_at text.now) }
{
    let count = word_len(text.as_bytes());
    match keyword_named(&text[..count]) {
        Some(keyword) => Ok((Token::Keyword(keyword), past(text, count))),
        None => name(alloc, text, count),
    }
}

/// The first token of the text, which has no white space first, and what follows it.
#[tactic(auto, using(crate::proofs::Cuts::cuts), unfolding(crate::specs::Lexing::token_at))]
fn first_token(alloc: Global, text: &str) -> Result<(Token, &str), LexError>
    requires { 0 < length text.now }
    ensures { Gives view result (token_at text.now) }
{
    let bytes = text.as_bytes();
    let first = bytes[0];
    let second = if bytes.len() > 1 { bytes[1] } else { 0 };
    if let Some((token, count)) = mark(first, second) {
        return Ok((token, past(text, count)));
    }
    match first {
        b'"' => quoted(alloc, past(text, 1), '"'),
        b'\'' => quoted(alloc, past(text, 1), '\''),
        b'-' | b'0'..=b'9' => number(alloc, text),
        b'$' => parameter(alloc, text),
        b'x' | b'X' if second == b'\'' => hexadecimal(alloc, past(text, 2)),
        _ if is_word_start(first) => word(alloc, text),
        _ => Err(LexError::BadText),
    }
}

/// The fault, at its offset.
pub(crate) fn at(fault: LexError, place: usize) -> ParseError
    ensures { result ≡ fault_at fault place }
{
    match fault {
        LexError::OutOfMemory => ParseError::OutOfMemory,
        LexError::BadText => ParseError::BadText { offset: place },
    }
}

/// Where the tokens of a text end: with the text, or before what is no token.
#[derive(Clone, Copy, Debug)]
pub(crate) struct Ending {
    pub(crate) place: usize,
    /// Why no token begins there, if the text does not end.
    pub(crate) fault: Option<LexError>,
}

/// The tokens of a text from the front, and where they end.
#[derive(Debug, Drop)]
pub(crate) struct Lexed {
    pub(crate) tokens: Vec<Placed>,
    pub(crate) ending: Ending,
}

/// The tokens before an offset where none was read.
fn stopped(tokens: Vec<Placed>, place: usize, fault: LexError) -> Result<Lexed, ParseError>
    ensures { result ≡ stopped tokens place fault }
{
    match fault {
        LexError::OutOfMemory => {
            drop(tokens);
            Err(ParseError::OutOfMemory)
        }
        LexError::BadText => Ok(Lexed {
            tokens,
            ending: Ending {
                place,
                fault: Some(fault),
            },
        }),
    }
}

/// The tokens of the text, each with its offset, up to its end or to the first offset where none
/// begins.
pub(crate) fn lex(alloc: Global, text: &str) -> Result<Lexed, ParseError>
    ensures found { IfOk result (λ lexed. EndsAt text.now (items lexed.tokens.items) lexed.ending) }
    ensures refused { IfErr result (λ e. e ≡ ParseError.OutOfMemory) }
    ensures canonical { (ts : List TokenTree) → AreTokens ts → text.now ≡ canonical ts →
        IfOk result (λ lexed. (trees lexed.tokens.items ≡ ts) × (lexed.ending.fault ≡ None)) }
    ensures places { IfOk result (λ lexed.
        AllByRecursion (λ p. p.place ≤ lexed.ending.place) lexed.tokens.items) }
    ensures place { IfOk result (λ lexed. lexed.ending.place ≤ length text.now) }
{
    let mut placed = Vec::new(alloc);
    let mut rest = text.trim_ascii_start();
    while !rest.is_empty() {
        let place = text.len() - rest.len();
        match first_token(alloc, rest) {
            Ok((token, after)) => {
                placed.push(Placed { token, place })?;
                rest = after.trim_ascii_start();
            }
            Err(fault) => return stopped(placed, place, fault),
        }
    }
    Ok(Lexed {
        tokens: placed,
        ending: Ending {
            place: text.len(),
            fault: None,
        },
    })
}
