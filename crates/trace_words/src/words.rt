//! The words of a line: numbers, addresses, bytes.

ghost use Rattle.std.specs.Prelude.{◌≡◌, ◌↔◌, ◌==◌, [], IsOk, IsTrue, IfErr};
ghost use Rattle.std.specs.Result.{result_ok};
ghost use Rattle.hex.specs.Hex.{hex_digit_value, pair_value};
ghost use Rattle.trace_words.specs.Words.{is_short_form, is_dash, number_of, node_of, nodes_of, bytes_of, digits_of, id_of, general_of, extended_of, instance_of};
ghost use Rattle.trace_words.specs.Reader.{Finds};

use cip_types::{ConnId, Items, Node, OutOfMemory};
use std::alloc::{AllocError, AllocFailed, Global};
use std::net::Ipv4Addr;
use thiserror::Error;

/// Why a line is not read.
#[derive(Clone, Copy, Debug, PartialEq, Eq, Error)]
pub enum TextFault {
    /// It is none of the lines that are allowed there.
    #[error("bad line")]
    Bad,
    /// An allocation was refused.
    #[error("no memory")]
    OutOfMemory,
}

impl From<OutOfMemory> for TextFault {
    ghost use Rattle.trace_words.specs.declared.words.TextFault.TheVariants as fault;

    ghost from_gives = { λ _ f. f ≡ fault.OutOfMemory };

    fn from(_error: OutOfMemory) -> TextFault {
        TextFault::OutOfMemory
    }
}

impl<T: Drop> From<AllocFailed<T>> for TextFault {
    ghost use Rattle.trace_words.specs.declared.words.TextFault.TheVariants as fault;

    ghost from_gives = { λ _ f. f ≡ fault.OutOfMemory };

    fn from(_refused: AllocFailed<T>) -> TextFault {
        TextFault::OutOfMemory
    }
}

impl From<AllocError> for TextFault {
    ghost use Rattle.trace_words.specs.declared.words.TextFault.TheVariants as fault;

    ghost from_gives = { λ _ f. f ≡ fault.OutOfMemory };

    fn from(_refused: AllocError) -> TextFault {
        TextFault::OutOfMemory
    }
}

/// The words of a line that are not read yet. One space separates two words.
#[derive(Drop)]
pub struct Words<'a> {
    rest: Option<&'a str>,
}

impl<'a> Words<'a> {
    ghost use Rattle.trace_words.specs.Words.{words_of};
    ghost use Rattle.trace_words.specs.Reader.{unread_words, TakesWord, Takes, next_word, ends};

    /// All words of a line.
    pub fn of(line: &'a str) -> Words<'a>
        ensures { unread_words result ≡ words_of line.now }
    {
        Words { rest: Some(line) }
    }

    /// The next word.
    pub fn word(&mut self) -> Result<&'a str, TextFault>
        ensures { TakesWord (unread_words self.old) (unread_words self.new) result }
    {
        let rest = self.rest.ok_or(TextFault::Bad)?;
        match rest.split_once(' ') {
            Some((word, after)) => {
                self.rest = Some(after);
                Ok(word)
            }
            None => {
                self.rest = None;
                Ok(rest)
            }
        }
    }

    /// The next word as a number of 64 bits.
    pub fn u64(&mut self) -> Result<u64, TextFault>
        ensures { Takes (next_word (number_of 64) (unread_words self.old)) result (unread_words self.new) }
    {
        read_u64(self.word()?).ok_or(TextFault::Bad)
    }

    /// The next word as a number of 32 bits.
    pub fn u32(&mut self) -> Result<u32, TextFault>
        ensures { Takes (next_word (number_of 32) (unread_words self.old)) result (unread_words self.new) }
    {
        read_u32(self.word()?).ok_or(TextFault::Bad)
    }

    /// The next word as a number of 32 bits, or none.
    #[tactic(auto, unfolding(crate::specs::Words::instance_of))]
    pub fn u32_or_none(&mut self) -> Result<Option<u32>, TextFault>
        ensures { Takes (next_word instance_of (unread_words self.old)) result (unread_words self.new) }
    {
        let word = self.word()?;
        if is_dash(word) {
            return Ok(None);
        }
        let instance = read_u32(word).ok_or(TextFault::Bad)?;
        Ok(Some(instance))
    }

    /// The next word as a number of 16 bits.
    pub fn u16(&mut self) -> Result<u16, TextFault>
        ensures { Takes (next_word (number_of 16) (unread_words self.old)) result (unread_words self.new) }
    {
        read_u16(self.word()?).ok_or(TextFault::Bad)
    }

    /// The next word as a number of 8 bits.
    pub fn u8(&mut self) -> Result<u8, TextFault>
        ensures { Takes (next_word (number_of 8) (unread_words self.old)) result (unread_words self.new) }
    {
        read_u8(self.word()?).ok_or(TextFault::Bad)
    }

    /// The next word as an address.
    pub fn node(&mut self) -> Result<Node, TextFault>
        ensures { Takes (next_word node_of (unread_words self.old)) result (unread_words self.new) }
    {
        read_node(self.word()?).ok_or(TextFault::Bad)
    }

    /// The next word as addresses.
    pub fn nodes(&mut self, alloc: Global) -> Result<Items<Node>, TextFault>
        ensures { Takes (next_word nodes_of (unread_words self.old)) result (unread_words self.new) }
    {
        read_nodes(alloc, self.word()?)
    }

    /// The next word as a connection id: eight hexadecimal digits of either case.
    #[tactic(auto, unfolding(crate::specs::Words::id_of))]
    pub fn id(&mut self, alloc: Global) -> Result<ConnId, TextFault>
        ensures { Takes (next_word id_of (unread_words self.old)) result (unread_words self.new) }
    {
        let bytes = read_digits(alloc, self.word()?)?;
        let [a, b, c, d] = bytes.as_slice() else {
            return Err(TextFault::Bad);
        };
        Ok(ConnId(u32::from_be_bytes([*a, *b, *c, *d])))
    }

    /// The next word as a general status: two hexadecimal digits of either case.
    #[tactic(auto, unfolding(crate::specs::Words::general_of))]
    pub fn general(&mut self, alloc: Global) -> Result<u8, TextFault>
        ensures { Takes (next_word general_of (unread_words self.old)) result (unread_words self.new) }
    {
        let bytes = read_digits(alloc, self.word()?)?;
        let [general] = bytes.as_slice() else {
            return Err(TextFault::Bad);
        };
        Ok(*general)
    }

    /// The next word as an extended status: four hexadecimal digits of either case; `-` for none.
    #[tactic(auto, unfolding(crate::specs::Words::extended_of))]
    pub fn extended(&mut self, alloc: Global) -> Result<Option<u16>, TextFault>
        ensures { Takes (next_word extended_of (unread_words self.old)) result (unread_words self.new) }
    {
        let word = self.word()?;
        if is_dash(word) {
            return Ok(None);
        }
        let bytes = read_digits(alloc, word)?;
        let [high, low] = bytes.as_slice() else {
            return Err(TextFault::Bad);
        };
        Ok(Some(u16::from_be_bytes([*high, *low])))
    }

    /// The next word as bytes: hexadecimal digits of either case, two a byte; `-` for no bytes.
    #[tactic(auto, unfolding(crate::specs::Words::bytes_of))]
    pub fn bytes(&mut self, alloc: Global) -> Result<Items<u8>, TextFault>
        ensures { Takes (next_word bytes_of (unread_words self.old)) result (unread_words self.new) }
    {
        let word = self.word()?;
        if is_dash(word) {
            return Ok(Items::new(alloc));
        }
        read_digits(alloc, word)
    }

    /// A value at the end of the line.
    #[inline(always)]
    pub fn last<T: Drop>(&self, value: T) -> Result<T, TextFault>
        ensures { Takes (ends value (unread_words self.now)) result (unread_words self.now) }
    {
        self.end()?;
        Ok(value)
    }

    /// Whether all words are read.
    pub fn is_done(&self) -> bool
        ensures { IsTrue result ↔ (unread_words self.now ≡ []) }
    {
        self.end().is_ok()
    }

    /// The end of the line.
    pub fn end(&self) -> Result<(), TextFault>
        ensures end { IsOk result ↔ (unread_words self.now ≡ []) }
        ensures bad { IfErr result (λ fault. fault ≡ TextFault.Bad) }
    {
        match self.rest {
            Some(_) => Err(TextFault::Bad),
            None => Ok(()),
        }
    }
}

/// A number as it is printed: decimal digits, the first of them 0 only if it is the only one.
pub fn read_u64(word: &str) -> Option<u64>
    ensures { result ≡ number_of 64 word.now }
{
    if !is_short_form(word.as_bytes()) {
        return None;
    }
    word.parse().ok()
}

fn read_u32(word: &str) -> Option<u32>
    ensures { result ≡ number_of 32 word.now }
{
    let number = read_u64(word)?;
    u32::try_from(number).ok()
}

fn read_u16(word: &str) -> Option<u16>
    ensures { result ≡ number_of 16 word.now }
{
    let number = read_u64(word)?;
    u16::try_from(number).ok()
}

fn read_u8(word: &str) -> Option<u8>
    ensures { result ≡ number_of 8 word.now }
{
    let number = read_u64(word)?;
    u8::try_from(number).ok()
}

/// Whether a word has neither a plus nor a needless zero in front.
fn is_short_form(word: &[u8]) -> bool
    ensures { result ≡ is_short_form word.now }
{
    match word {
        [b'+', ..] => false,
        [b'0', rest @ ..] => rest.is_empty(),
        _ => true,
    }
}

/// An address as it is printed: four numbers below 256, separated by dots.
fn read_node(word: &str) -> Option<Node>
    ensures { result ≡ node_of word.now }
{
    match word.parse::<Ipv4Addr>() {
        Ok(address) => Some(Node(address.to_bits())),
        Err(_) => None,
    }
}

/// Whether a word stands for nothing.
fn is_dash(word: &str) -> bool
    ensures { result ≡ is_dash word.now }
{
    word == "-"
}

/// The bytes of hexadecimal digits, at least one byte.
fn read_digits(alloc: Global, word: &str) -> Result<Items<u8>, TextFault>
    ensures { Finds (digits_of word.now) result }
{
    if word.is_empty() {
        return Err(TextFault::Bad);
    }
    let mut bytes = Vec::with_capacity(alloc, word.len() / 2)?;
    let mut rest = word.as_bytes();
    while let [high, low, after @ ..] = rest {
        let Some(byte) = byte_of(*high, *low) else {
            return Err(TextFault::Bad);
        };
        bytes.push(byte)?;
        rest = after;
    }
    if !rest.is_empty() {
        return Err(TextFault::Bad);
    }
    Ok(Items::from_vec(bytes))
}

/// The byte of two hexadecimal digits.
fn byte_of(high: u8, low: u8) -> Option<u8>
    ensures { result ≡ result_ok (pair_value high low 0) }
{
    Some(digit_value(high)? * 16 + digit_value(low)?)
}

/// The value of a hexadecimal digit of either case.
fn digit_value(digit: u8) -> Option<u8>
    ensures { result ≡ hex_digit_value digit }
{
    match digit {
        b'0'..=b'9' => Some(digit - b'0'),
        b'a'..=b'f' => Some(digit - b'a' + 10),
        b'A'..=b'F' => Some(digit - b'A' + 10),
        _ => None,
    }
}

/// Addresses separated by commas; `-` for none.
#[tactic(auto, unfolding(crate::specs::Words::nodes_of))]
fn read_nodes(alloc: Global, word: &str) -> Result<Items<Node>, TextFault>
    ensures { Finds (nodes_of word.now) result }
{
    if is_dash(word) {
        return Ok(Items::new(alloc));
    }
    let mut nodes = Vec::new(alloc);
    let mut rest = word;
    while let Some((node, after)) = rest.split_once(',') {
        let Some(node) = read_node(node) else {
            return Err(TextFault::Bad);
        };
        nodes.push(node)?;
        rest = after;
    }
    let Some(last) = read_node(rest) else {
        return Err(TextFault::Bad);
    };
    nodes.push(last)?;
    Ok(Items::from_vec(nodes))
}
