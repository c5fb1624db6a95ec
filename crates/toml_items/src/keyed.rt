//! The lines of known keys, for who makes no items of them.
ghost use Rattle.std.specs.Prelude.{◌≡◌, ◌++◌, ◌<◌, [], pos, true, codes, Some, length, IfSome};
ghost use Rattle.toml.specs.Data.{string, integer};
ghost use Rattle.toml.specs.Tables.{key_value};
ghost use Rattle.toml.specs.Parse.{line};
ghost use Rattle.toml_items.specs.Plain.{is_bare_key};

use crate::line::{ends_here, plain_text};
use crate::number::whole_number;
use toml_parser::text::first;

/// The number that a line gives its key, and the text behind it.
#[derive(Clone, Copy, Drop)]
pub struct NumberLine<'t> {
    pub number: u64,
    pub rest: &'t str,
}

/// The text that a line gives its key, and the text behind it.
#[derive(Clone, Copy, Drop)]
pub struct TextLine<'t> {
    pub content: &'t str,
    pub rest: &'t str,
}

/// The number above 0 that the line at the front of a text gives this bare key, if the line is
/// spelled as it mostly is: one space on each side of the equals sign, and digits alone.
#[inline(always)]
pub fn number_line<'t>(text: &'t str, key: &str) -> Option<NumberLine<'t>>
    requires { is_bare_key key.now ≡ true }
    ensures line { IfSome result (λ l.
        line text.now ≡ Some ((([], key.now), key_value (integer (pos l.number))), l.rest.now)) }
    ensures shorter { IfSome result (λ l. length l.rest.now < length text.now) }
{
    let value = value_of(text, key)?;
    let (number, rest) = whole_number(value)?;
    if !ends_here(rest) {
        return None;
    }
    Some(NumberLine { number, rest })
}

/// The text without escapes that the line at the front of a text gives this bare key, if the line
/// is spelled as it mostly is: one space on each side of the equals sign.
#[inline]
pub fn text_line<'t>(text: &'t str, key: &str) -> Option<TextLine<'t>>
    requires { is_bare_key key.now ≡ true }
    ensures line { IfSome result (λ l.
        line text.now ≡ Some ((([], key.now), key_value (string l.content.now)), l.rest.now)) }
    ensures shorter { IfSome result (λ l. length l.rest.now < length text.now) }
{
    let value = value_of(text, key)?;
    if first(value) != b'"' {
        return None;
    }
    let (content, rest) = plain_text(value)?;
    if !ends_here(rest) {
        return None;
    }
    Some(TextLine { content, rest })
}

/// What stands behind a key and an equals sign with a space on each side.
#[inline(always)]
fn value_of<'t>(text: &'t str, key: &str) -> Option<&'t str>
    ensures { IfSome result (λ value. text.now ≡ key.now ++ (codes " = " ++ value.now)) }
{
    text.strip_prefix(key)?.strip_prefix(" = ")
}
