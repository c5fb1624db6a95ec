ghost use Rattle.std.specs.Prelude.{◌≡◌, ◌+◌, ◌++◌, ◌<◌, ◌≤◌, true, false, [], Some, length, IfSome};
ghost use Rattle.std.specs.Char.{is_ascii_lowercase};
ghost use Rattle.std.specs.List.{prefix_len};
ghost use Rattle.toml.specs.Tables.{key_value, array_table};
ghost use Rattle.toml.specs.Parse.{line, key_equals, scalar_data, val, ends_line};
ghost use Rattle.toml_parser.specs.Lexical as lexical;
ghost use Rattle.toml_parser.specs.Strings as strings;
ghost use Rattle.toml_items.specs.Item.{item_view};
ghost use Rattle.toml_items.specs.Plain.{path_of, is_bare_key, are_bare_keys, dotted, spelling};

use crate::number::whole_number;
use crate::{Header, Item};
use std::alloc::Global;
use toml_parser::bytes::{is_bare, is_non_eol, is_word, is_ws};
use toml_parser::text::{byte_at, first, skip, skip_blank, skip_ws};
use toml_parser::{Scalar, unquoted};

/// A line of a bare key and a plain value, and the text behind it.
#[derive(Drop)]
pub struct Pair<'t> {
    pub key: &'t str,
    pub item: Item<'t>,
    pub rest: &'t str,
}

/// The keys of a header, and the text behind them.
#[derive(Clone, Copy, Drop)]
struct Keys<'t> {
    parent: Option<&'t str>,
    key: &'t str,
    rest: &'t str,
}

/// The pair at the front of a text, if a plain one stands there.
pub(crate) fn pair_at(alloc: Global, text: &str) -> Option<Pair<'_>>
    ensures line { IfSome result (λ p.
        line text.now ≡ Some ((([], p.key.now), key_value (item_view p.item)), p.rest.now)) }
    ensures shorter { IfSome result (λ p. length p.rest.now < length text.now) }
{
    let (key, value_text) = key_at(text)?;
    let (item, rest) = value_at(alloc, value_text)?;
    if !ends_here(rest) {
        return None;
    }
    Some(Pair { key, item, rest })
}

/// The header at the front of a text, if one of one or two bare keys stands there.
pub(crate) fn header_at(text: &str) -> Option<Header<'_>>
    ensures line { IfSome result (λ h.
        line text.now ≡ Some (((path_of h.parent, h.key.now), array_table), h.rest.now)) }
    ensures shorter { IfSome result (λ h. length h.rest.now < length text.now) }
{
    let keys = header_keys(text)?;
    if !ends_here(keys.rest) {
        return None;
    }
    Some(Header {
        parent: keys.parent,
        key: keys.key,
        spelled: text.get(..text.len() - keys.rest.len())?,
        rest: keys.rest,
    })
}

/// The keys between the brackets of a header, and the text behind these.
fn header_keys(text: &str) -> Option<Keys<'_>>
    ensures keys { IfSome result (λ h. are_bare_keys h.parent h.key.now ≡ true) }
    ensures text { IfSome result (λ h. text.now ≡ spelling h.parent h.key.now ++ h.rest.now) }
    ensures shorter { IfSome result (λ h. length h.rest.now < length text.now) }
{
    if first(text) != b'[' || byte_at(text, 1) != b'[' {
        return None;
    }
    let keys = keys_at(skip(text, 2))?;
    if first(keys.rest) != b']' || byte_at(keys.rest, 1) != b']' {
        return None;
    }
    Some(Keys {
        parent: keys.parent,
        key: keys.key,
        rest: skip(keys.rest, 2),
    })
}

/// After spaces and tabs. Mostly none or one stands there.
#[inline]
fn after_ws(text: &str) -> &str
    ensures rest { result.now ≡ lexical.skip_ws text.now }
    ensures within { length result.now ≤ length text.now }
{
    if !is_ws(first(text)) {
        return text;
    }
    let rest = skip(text, 1);
    if is_ws(first(rest)) {
        skip_ws(rest)
    } else {
        rest
    }
}

/// After blank lines and comments. Mostly a line ends here, and what begins the next one stands
/// behind it.
#[inline]
#[tactic(auto, using(crate::proofs::Lines::after_line_feed))]
pub fn after_blank(text: &str) -> &str
    ensures rest { result.now ≡ lexical.skip_blank text.now }
    ensures within { length result.now ≤ length text.now }
{
    if first(text) == b'\n' && byte_at(text, 1) > b'#' {
        skip(text, 1)
    } else {
        skip_blank(text, true)
    }
}

/// Whether the line ends behind spaces and tabs.
#[inline]
pub(crate) fn ends_here(text: &str) -> bool
    ensures { result ≡ ends_line (lexical.skip_ws text.now) }
{
    let rest = after_ws(text);
    rest.is_empty() || matches!(first(rest), b'#' | b'\n' | b'\r')
}

/// One or two bare keys, with a dot between them, and the text from the bracket that follows.
fn keys_at(text: &str) -> Option<Keys<'_>>
    ensures keys { IfSome result (λ h. are_bare_keys h.parent h.key.now ≡ true) }
    ensures text { IfSome result (λ h. text.now ≡ dotted h.parent h.key.now ++ h.rest.now) }
    ensures within { IfSome result (λ h. length h.rest.now ≤ length text.now) }
{
    let (key, rest) = bare_key(text)?;
    match first(rest) {
        b']' => Some(Keys {
            parent: None,
            key,
            rest,
        }),
        b'.' => {
            let (last, end) = bare_key(skip(rest, 1))?;
            if first(end) != b']' {
                return None;
            }
            Some(Keys {
                parent: Some(key),
                key: last,
                rest: end,
            })
        }
        _ => None,
    }
}

/// A bare key, and the text behind `=` and the white space after it.
fn key_at(text: &str) -> Option<(&str, &str)>
    ensures key { IfSome result (λ p. key_equals text.now ≡ Some (([], p.0.now), p.1.now)) }
    ensures bare { IfSome result (λ _. lexical.is_bare (lexical.first text.now) ≡ true) }
    ensures shorter { IfSome result (λ p. length p.1.now < length text.now) }
{
    let (key, behind) = bare_key(text)?;
    let at_equals = after_ws(behind);
    if first(at_equals) != b'=' {
        return None;
    }
    Some((key, after_ws(skip(at_equals, 1))))
}

/// A plain value, and the text behind it.
fn value_at(alloc: Global, text: &str) -> Option<(Item<'_>, &str)>
    ensures value { IfSome result (λ p.
        val strings.recursion_limit text.now ≡ Some (item_view p.0, p.1.now)) }
    ensures shorter { IfSome result (λ p. length p.1.now < length text.now) }
{
    let byte = first(text);
    if byte == b'"' {
        let (content, rest) = plain_text(text)?;
        Some((Item::Text(content), rest))
    } else if is_word(byte) {
        word_at(alloc, text)
    } else {
        None
    }
}

/// A whole number or a truth value at a byte of a word, and the text behind it.
fn word_at(alloc: Global, text: &str) -> Option<(Item<'_>, &str)>
    requires word { lexical.is_word (lexical.first text.now) ≡ true }
    ensures value { IfSome result (λ p.
        val strings.recursion_limit text.now ≡ Some (item_view p.0, p.1.now)) }
    ensures shorter { IfSome result (λ p. length p.1.now < length text.now) }
{
    if let Some((number, rest)) = whole_number(text) {
        return Some((Item::Number(number as i64), rest));
    }
    match unquoted(alloc, text) {
        Ok((scalar, rest)) => Some((scalar_item(scalar)?, rest)),
        Err(_) => None,
    }
}

/// A whole number or a truth value as an item.
#[inline]
fn scalar_item<'t>(scalar: Scalar) -> Option<Item<'t>>
    ensures { IfSome result (λ item. item_view item ≡ scalar_data scalar) }
{
    match scalar {
        Scalar::Integer(number) => Some(Item::Number(number)),
        Scalar::Boolean(flag) => Some(Item::Flag(flag)),
        _ => None,
    }
}

/// The content of a string at its quote, where it is not empty and stands for itself, and the
/// text behind it.
pub(crate) fn plain_text(text: &str) -> Option<(&str, &str)>
    requires quote { lexical.first text.now ≡ lexical.quote }
    ensures value { IfSome result (λ p. strings.quoted text.now ≡ Some (p.0.now, p.1.now)) }
    ensures shorter { IfSome result (λ p. length p.1.now < length text.now) }
{
    let (content, end) = split_plain(skip(text, 1));
    if content.is_empty() || first(end) != b'"' {
        return None;
    }
    Some((content, skip(end, 1)))
}

/// A bare key, and the text behind it.
#[inline]
fn bare_key(text: &str) -> Option<(&str, &str)>
    ensures key { IfSome result (λ p. strings.simple_key text.now ≡ Some (p.0.now, p.1.now)) }
    ensures run { IfSome result (λ p. (is_bare_key p.0.now ≡ true)
        × (text.now ≡ p.0.now ++ p.1.now)) }
    ensures bare { IfSome result (λ _. lexical.is_bare (lexical.first text.now) ≡ true) }
    ensures within { IfSome result (λ p. length p.1.now ≤ length text.now) }
{
    if !is_bare(first(text)) {
        return None;
    }
    Some(split_bare(text))
}

/// The bytes of a bare key at the front, and the text behind them.
#[inline]
fn split_bare(text: &str) -> (&str, &str)
    ensures parts { (result.0.now, result.1.now) ≡ lexical.split_while lexical.is_bare text.now }
    ensures lens { length result.0.now + length result.1.now ≡ length text.now }
{
    text.split_at(bare_len(text.as_bytes()))
}

/// How many bytes at the front are of a bare key. Mostly they are small letters.
#[inline]
fn bare_len(bytes: &[u8]) -> usize
    ensures len { result ≡ prefix_len lexical.is_bare bytes.now }
    ensures within { result ≤ length bytes.now }
{
    let small = small_len(bytes);
    small + run_len(&bytes[small..])
}

#[inline]
fn run_len(bytes: &[u8]) -> usize
    ensures len { result ≡ prefix_len lexical.is_bare bytes.now }
    ensures within { result ≤ length bytes.now }
{
    bytes.iter().take_while(|b| is_bare(**b)).count()
}

#[inline]
fn small_len(bytes: &[u8]) -> usize
    ensures len { result ≡ prefix_len is_ascii_lowercase bytes.now }
    ensures within { result ≤ length bytes.now }
{
    bytes.iter().take_while(|b| b.is_ascii_lowercase()).count()
}

/// The bytes that stand for themselves in a string, and the text behind them.
#[inline]
fn split_plain(text: &str) -> (&str, &str)
    ensures parts { (result.0.now, result.1.now)
        ≡ lexical.split_while (strings.is_plain lexical.quote false) text.now }
    ensures lens { length result.0.now + length result.1.now ≡ length text.now }
{
    text.split_at(plain_len(text.as_bytes()))
}

#[inline]
fn plain_len(bytes: &[u8]) -> usize
    ensures len { result ≡ prefix_len (strings.is_plain lexical.quote false) bytes.now }
    ensures within { result ≤ length bytes.now }
{
    bytes.iter().take_while(|b| is_plain(**b)).count()
}

/// Whether a byte stands for itself in a string on one line.
#[inline]
fn is_plain(byte: u8) -> bool
    ensures { result ≡ strings.is_plain lexical.quote false byte }
{
    byte != b'"' && byte != b'\\' && is_non_eol(byte)
}
