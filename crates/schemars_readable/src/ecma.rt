//! Patterns of ECMA-262 (JSON Schema core 2020-12, 6.4) in the syntax of the `regex` crate.
ghost use Rattle.std.specs.Prelude.{◌≡◌, ◌++◌, IfOk, OnOk, string_bytes};
ghost use Rattle.schemars_readable.specs.Translation.{after, after_member, at_end, escape, expression_of, in_class, written};

use std::alloc::{AllocError, Global};

const SPACES: &str = r"[\t\n\x0B\x0C\r\x{FEFF}\x{2028}\x{2029}\p{Zs}]";

const NO_SPACES: &str = r"[^\t\n\x0B\x0C\r\x{FEFF}\x{2028}\x{2029}\p{Zs}]";

const ANY: &str = r"[^\n\r\x{2028}\x{2029}]";

// A class without members, which is also what its complement excludes.
const NONE: &str = "[a&&b]]";

// Where a character of a pattern stands.
#[derive(Clone, Copy, Debug, PartialEq, Eq)]
enum Place {
    // outside classes
    Outside,
    // after the bracket of a class
    Start,
    // after the `^` of a class
    Negated,
    // after a member of a class
    Member,
    // after a member and `-`, which make a range
    Range,
    // after a range
    Ended,
    // before so many digits of the code that ends a range
    EndDigits(u8),
    // between the braces of such a code
    EndBraces,
    // after a backslash
    Escaped,
    EscapedMember,
    EscapedEnd,
}

/// The expression of a pattern. The classes `\d`, `\s` and `\w`, the boundaries `\b` and `\B` and the dot
/// are those of ECMA-262, a bracket in a class is a character, and `-` makes a range after a member of a
/// class alone. What the `regex` crate does not have, such as references to groups, stays as it is, and
/// is then refused.
pub fn expression_of(alloc: Global, pattern: &str) -> Result<String, AllocError>
    ensures { IfOk result (λ expression. string_bytes expression ≡ expression_of pattern.now) }
{
    let mut expression = String::new(alloc);
    let mut place = Place::Outside;
    for c in pattern.chars() {
        push_written(&mut expression, place, c)?;
        place = after(place, c);
    }
    push_end(&mut expression, place)?;
    Ok(expression)
}

// Adds what a character becomes.
fn push_written(expression: &mut String, place: Place, c: char) -> Result<(), AllocError>
    ensures { OnOk result (string_bytes expression.new ≡ string_bytes expression.old ++ written place c) }
{
    match place {
        Place::Outside => push_outside(expression, c),
        Place::Start | Place::Negated if c == ']' => expression.push_str(NONE),
        Place::Member if c == '-' => expression.push('-'),
        Place::Start | Place::Negated | Place::Member | Place::Range | Place::Ended => {
            push_in_class(expression, c)
        }
        Place::EndDigits(_) | Place::EndBraces => expression.push(c),
        Place::Escaped if c == 'b' => expression.push_str(r"(?-u:\b)"),
        Place::Escaped if c == 'B' => expression.push_str(r"(?-u:\B)"),
        Place::EscapedMember | Place::EscapedEnd if c == 'b' => expression.push_str(r"\x08"),
        Place::Escaped | Place::EscapedMember | Place::EscapedEnd => push_escape(expression, c),
    }
}

fn push_outside(expression: &mut String, c: char) -> Result<(), AllocError>
    ensures { OnOk result (string_bytes expression.new
        ≡ string_bytes expression.old ++ written Place.Outside c) }
{
    match c {
        '\\' => Ok(()),
        '.' => expression.push_str(ANY),
        _ => expression.push(c),
    }
}

fn push_in_class(expression: &mut String, c: char) -> Result<(), AllocError>
    ensures { OnOk result (string_bytes expression.new ≡ string_bytes expression.old ++ in_class c) }
{
    match c {
        '\\' => Ok(()),
        '[' => expression.push_str(r"\["),
        '&' => expression.push_str(r"\&"),
        '~' => expression.push_str(r"\~"),
        '-' => expression.push_str(r"\-"),
        _ => expression.push(c),
    }
}

// Adds what a backslash and a character stand for.
fn push_escape(expression: &mut String, c: char) -> Result<(), AllocError>
    ensures { OnOk result (string_bytes expression.new ≡ string_bytes expression.old ++ escape c) }
{
    match c {
        'd' => expression.push_str("[0-9]"),
        'D' => expression.push_str("[^0-9]"),
        'w' => expression.push_str("[0-9A-Za-z_]"),
        'W' => expression.push_str("[^0-9A-Za-z_]"),
        's' => expression.push_str(SPACES),
        'S' => expression.push_str(NO_SPACES),
        '0' => expression.push_str(r"\x00"),
        '/' => expression.push('/'),
        _ => {
            expression.push('\\')?;
            expression.push(c)
        }
    }
}

// Where the next character stands.
fn after(place: Place, c: char) -> Place
    ensures { result ≡ after place c }
{
    match (place, c) {
        (Place::Outside, '\\') => Place::Escaped,
        (Place::Outside, '[') => Place::Start,
        (Place::Outside | Place::Escaped, _) => Place::Outside,
        (Place::Start, '^') => Place::Negated,
        (Place::Member, '-') => Place::Range,
        (Place::Start | Place::Negated | Place::Member | Place::Ended, _) => after_member(c),
        (Place::Range, '\\') => Place::EscapedEnd,
        (Place::Range, ']') => Place::Outside,
        (Place::Range, _) => Place::Ended,
        (Place::EscapedMember, _) => Place::Member,
        (Place::EscapedEnd, 'x') => Place::EndDigits(2),
        (Place::EscapedEnd, 'u') => Place::EndDigits(4),
        (Place::EscapedEnd, _) => Place::Ended,
        (Place::EndDigits(4), '{') => Place::EndBraces,
        (Place::EndDigits(0 | 1), _) => Place::Ended,
        (Place::EndDigits(n), _) => Place::EndDigits(n - 1),
        (Place::EndBraces, '}') => Place::Ended,
        (Place::EndBraces, _) => Place::EndBraces,
    }
}

// Where the character after a member of a class stands.
fn after_member(c: char) -> Place
    ensures { result ≡ after_member c }
{
    match c {
        '\\' => Place::EscapedMember,
        ']' => Place::Outside,
        _ => Place::Member,
    }
}

// A backslash at the end stays.
fn push_end(expression: &mut String, place: Place) -> Result<(), AllocError>
    ensures { OnOk result (string_bytes expression.new ≡ string_bytes expression.old ++ at_end place) }
{
    match place {
        Place::Escaped | Place::EscapedMember | Place::EscapedEnd => expression.push('\\'),
        Place::Outside
        | Place::Start
        | Place::Negated
        | Place::Member
        | Place::Range
        | Place::Ended
        | Place::EndDigits(_)
        | Place::EndBraces => Ok(()),
    }
}
