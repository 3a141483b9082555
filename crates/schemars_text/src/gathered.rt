//! Text that is handed to a sink in blocks.
ghost use Rattle.std.specs.Prelude.{◌≡◌, ◌<◌, ◌≤◌, ℕ, List, [], ◌∷◌, Option, length, take, false, not, cond, ◌&&◌};
ghost use Rattle.schemars_text.specs.Words.{OnTrue, escape, escape_letter, escape_byte, quoted, begins, ends, token_text, token_of, digit_char, IsGathered, AddsText};

use crate::sink::{Failed, Sink, write_all};
use crate::target::Target;
use arrayvec::ArrayVec;
use json::Token;
use serde_json::Number;

// The bytes to be written, whether a value has just ended, and whether the sink has failed.
#[derive(Drop)]
pub(crate) struct Gathered {
    block: ArrayVec<u8, 4096>,
    after_value: bool,
    failed: bool,
}

impl Gathered {
    pub(crate) fn new() -> Gathered
        ensures block { result.block.items ≡ [] }
        ensures after_value { result.after_value ≡ false }
        ensures failed { result.failed ≡ false }
    {
        Gathered {
            block: ArrayVec::new(),
            after_value: false,
            failed: false,
        }
    }

    // Hands on what was gathered. Answers whether the sink has taken all.
    pub(crate) fn finish<K: Sink>(mut self, sink: &mut K) -> bool
        ensures { (start : Option (List ℕ)) (text : List ℕ)
            → IsGathered start text (K.bytes sink.old) (K.has_failed sink.old)
            self.block.items self.failed
            → IsGathered start text (K.bytes sink.new) (K.has_failed sink.new) [] (not result) }
    {
        !hand(sink, self.failed, self.block.as_slice())
    }

    fn put<K: Sink>(&mut self, sink: &mut K, bytes: &[u8])
        ensures adds { AddsText (K.bytes sink.old) (K.has_failed sink.old) self.old.block.items
            self.old.failed (K.bytes sink.new) (K.has_failed sink.new) self.new.block.items
            self.new.failed bytes.now }
        ensures after { self.new.after_value ≡ self.old.after_value }
    {
        match self.block.try_extend_from_slice(bytes) {
            Ok(()) => {}
            Err(_full) => self.put_anew(sink, bytes),
        }
    }

    // Hands on what was gathered, and begins a block with the bytes.
    fn put_anew<K: Sink>(&mut self, sink: &mut K, bytes: &[u8])
        ensures adds { AddsText (K.bytes sink.old) (K.has_failed sink.old) self.old.block.items
            self.old.failed (K.bytes sink.new) (K.has_failed sink.new) self.new.block.items
            self.new.failed bytes.now }
        ensures after { self.new.after_value ≡ self.old.after_value }
    {
        self.failed = hand(sink, self.failed, self.block.as_slice());
        self.block.clear();
        match self.block.try_extend_from_slice(bytes) {
            Ok(()) => {}
            Err(_longer) => self.failed = hand(sink, self.failed, bytes),
        }
    }

    fn put_byte<K: Sink>(&mut self, sink: &mut K, byte: u8)
        ensures adds { AddsText (K.bytes sink.old) (K.has_failed sink.old) self.old.block.items
            self.old.failed (K.bytes sink.new) (K.has_failed sink.new) self.new.block.items
            self.new.failed (byte ∷ []) }
        ensures after { self.new.after_value ≡ self.old.after_value }
    {
        match self.block.try_push(byte) {
            Ok(()) => {}
            Err(_full) => self.put_anew(sink, &[byte]),
        }
    }

    // Writes the separator between the end of a value and the beginning of the next.
    fn put_comma<K: Sink>(&mut self, sink: &mut K, begins: bool)
        ensures adds { AddsText (K.bytes sink.old) (K.has_failed sink.old) self.old.block.items
            self.old.failed (K.bytes sink.new) (K.has_failed sink.new) self.new.block.items
            self.new.failed (cond (self.old.after_value && begins) (44 ∷ []) []) }
        ensures after { self.new.after_value ≡ self.old.after_value }
    {
        if self.after_value && begins {
            self.put_byte(sink, b',');
        }
    }

    fn put_quoted<K: Sink>(&mut self, sink: &mut K, text: &[u8])
        ensures adds { AddsText (K.bytes sink.old) (K.has_failed sink.old) self.old.block.items
            self.old.failed (K.bytes sink.new) (K.has_failed sink.new) self.new.block.items
            self.new.failed (quoted text.now) }
        ensures after { self.new.after_value ≡ self.old.after_value }
    {
        self.put_byte(sink, b'"');
        self.put_escaped(sink, text);
        self.put_byte(sink, b'"');
    }

    // Bytes that need no escape are put together.
    fn put_escaped<K: Sink>(&mut self, sink: &mut K, text: &[u8])
        ensures adds { AddsText (K.bytes sink.old) (K.has_failed sink.old) self.old.block.items
            self.old.failed (K.bytes sink.new) (K.has_failed sink.new) self.new.block.items
            self.new.failed (escape text.now) }
        ensures after { self.new.after_value ≡ self.old.after_value }
    {
        let mut rest = text;
        while !rest.is_empty() {
            let stop = plain_len(rest);
            self.put(sink, &rest[..stop]);
            rest = &rest[stop..];
            if let Some((byte, after)) = rest.split_first() {
                let (escape, len) = escape_of(*byte);
                self.put(sink, &escape[..len]);
                rest = after;
            }
        }
    }

    fn put_token<K: Sink>(&mut self, sink: &mut K, token: Token<'_>)
        ensures adds { AddsText (K.bytes sink.old) (K.has_failed sink.old) self.old.block.items
            self.old.failed (K.bytes sink.new) (K.has_failed sink.new) self.new.block.items
            self.new.failed (token_text (token_of token.entry)) }
        ensures after { self.new.after_value ≡ self.old.after_value }
    {
        match token {
            Token::BeginObject => self.put_byte(sink, b'{'),
            Token::EndObject => self.put_byte(sink, b'}'),
            Token::BeginArray => self.put_byte(sink, b'['),
            Token::EndArray => self.put_byte(sink, b']'),
            Token::Key(name) => {
                self.put_quoted(sink, name.as_bytes());
                self.put_byte(sink, b':');
            }
            Token::String(text) => self.put_quoted(sink, text.as_bytes()),
            Token::Number(text) => self.put(sink, text.as_bytes()),
            Token::Bool(true) => self.put(sink, b"true"),
            Token::Bool(false) => self.put(sink, b"false"),
            Token::Null => self.put(sink, b"null"),
            Token::Bad => {}
        }
    }
}

impl<K: Sink> Target<K> for Gathered {
    ghost use Rattle.std.specs.Prelude.{◌≡◌};
    ghost use Rattle.schemars_text.specs.Target.{IsGathered};

    ghost has = { λ w sink start o. (w.after_value ≡ o.after_value) × IsGathered start o.text
        (K.bytes sink) (K.has_failed sink) w.block.items w.failed };

    fn token(&mut self, lent: &mut K, token: Token<'_>) {
        self.put_comma(lent, begins(token));
        self.put_token(lent, token);
        self.after_value = ends(token);
    }

    fn number(&mut self, lent: &mut K, n: Number) {
        self.put_comma(lent, true);
        self.after_value = true;
        if let Some(whole) = n.as_u64() {
            self.put(lent, itoa::Buffer::new().format(whole).as_bytes());
        } else if let Some(below_zero) = n.as_i64() {
            self.put(lent, itoa::Buffer::new().format(below_zero).as_bytes());
        } else if let Some(x) = n.as_f64() {
            let mut buffer = ryu::Buffer::new();
            self.put(lent, buffer.format_finite_with_plus(x).as_bytes());
        }
    }
}

// Hands bytes to a sink that hasn't failed. Answers whether it has.
fn hand<K: Sink>(sink: &mut K, failed: bool, bytes: &[u8]) -> bool
    ensures { (start : Option (List ℕ)) (text : List ℕ) → IsGathered start text (K.bytes sink.old)
        (K.has_failed sink.old) bytes.now failed → IsGathered start text (K.bytes sink.new)
        (K.has_failed sink.new) [] result }
{
    if failed {
        return true;
    }
    if bytes.is_empty() {
        return false;
    }
    match write_all(sink, bytes) {
        Ok(()) => false,
        Err(Failed) => true,
    }
}

fn begins(token: Token<'_>) -> bool
    ensures { result ≡ begins (token_of token.entry) }
{
    !matches!(token, Token::EndObject | Token::EndArray)
}

fn ends(token: Token<'_>) -> bool
    ensures { result ≡ ends (token_of token.entry) }
{
    !matches!(
        token,
        Token::BeginObject | Token::BeginArray | Token::Key(_)
    )
}

// How many bytes at the front are written as they are.
pub(crate) fn plain_len(text: &[u8]) -> usize
    ensures within { result ≤ length text.now }
    ensures same { escape (take result text.now) ≡ take result text.now }
{
    let mut len = 0;
    while len < text.len() && is_plain(text[len]) {
        len += 1;
    }
    len
}

fn is_plain(byte: u8) -> bool
    ensures { OnTrue result (escape_byte byte ≡ byte ∷ []) }
{
    byte >= 32 && letter(byte) == 0
}

fn escape_of(byte: u8) -> ([u8; 6], usize)
    ensures value { take result.1 result.0 ≡ escape_byte byte }
    ensures bound { result.1 ≤ 6 }
{
    let letter = letter(byte);
    if letter > 0 {
        return ([b'\\', letter, 0, 0, 0, 0], 2);
    }
    if byte < 0x20 {
        return ([b'\\', b'u', b'0', b'0', hex(byte / 16), hex(byte % 16)], 6);
    }
    ([byte, 0, 0, 0, 0, 0], 1)
}

fn letter(byte: u8) -> u8
    ensures { result ≡ escape_letter byte }
{
    match byte {
        b'"' | b'\\' => byte,
        8 => b'b',
        12 => b'f',
        b'\n' => b'n',
        b'\r' => b'r',
        b'\t' => b't',
        _ => 0,
    }
}

fn hex(digit: u8) -> u8
    requires { digit < 16 }
    ensures { result ≡ digit_char digit }
{
    if digit < 10 {
        b'0' + digit
    } else {
        b'a' - 10 + digit
    }
}
