// Symbols of base64.
ghost use Rattle.std.specs.Prelude.{◌≡◌, ◌↔◌, ◌+◌, ◌*◌, ◌/◌, ◌%◌, ◌<◌, ◌≤◌, [], ◌∷◌, ◌++◌, length, take, drop, map, filter, IsTrue};
ghost use Rattle.std.specs.List.{AllPass};
ghost use Rattle.mime_codes.specs.Base64.{is_symbol as is_of_alphabet, symbol_count, sextet, octets};

use base64::engine::general_purpose::STANDARD;
use std::marker::Model;

/// For each byte 1 where it is of the alphabet, and else 0.
const COUNTS: [u8; 256] = [
    0, 0, 0, 0, 0, 0, 0, 0, 0, 0, 0, 0, 0, 0, 0, 0, 0, 0, 0, 0, 0, 0, 0, 0, 0, 0, 0, 0, 0, 0, 0, 0,
    0, 0, 0, 0, 0, 0, 0, 0, 0, 0, 0, 1, 0, 0, 0, 1, 1, 1, 1, 1, 1, 1, 1, 1, 1, 1, 0, 0, 0, 0, 0, 0,
    0, 1, 1, 1, 1, 1, 1, 1, 1, 1, 1, 1, 1, 1, 1, 1, 1, 1, 1, 1, 1, 1, 1, 1, 1, 1, 1, 0, 0, 0, 0, 0,
    0, 1, 1, 1, 1, 1, 1, 1, 1, 1, 1, 1, 1, 1, 1, 1, 1, 1, 1, 1, 1, 1, 1, 1, 1, 1, 1, 0, 0, 0, 0, 0,
    0, 0, 0, 0, 0, 0, 0, 0, 0, 0, 0, 0, 0, 0, 0, 0, 0, 0, 0, 0, 0, 0, 0, 0, 0, 0, 0, 0, 0, 0, 0, 0,
    0, 0, 0, 0, 0, 0, 0, 0, 0, 0, 0, 0, 0, 0, 0, 0, 0, 0, 0, 0, 0, 0, 0, 0, 0, 0, 0, 0, 0, 0, 0, 0,
    0, 0, 0, 0, 0, 0, 0, 0, 0, 0, 0, 0, 0, 0, 0, 0, 0, 0, 0, 0, 0, 0, 0, 0, 0, 0, 0, 0, 0, 0, 0, 0,
    0, 0, 0, 0, 0, 0, 0, 0, 0, 0, 0, 0, 0, 0, 0, 0, 0, 0, 0, 0, 0, 0, 0, 0, 0, 0, 0, 0, 0, 0, 0, 0,
];

fn count_of(byte: u8) -> usize
    ensures { result ≡ symbol_count byte }
{
    usize::from(COUNTS[usize::from(byte)])
}

/// Puts the symbols of a text behind so many bytes, and says how many bytes there are then. Among mixed bytes no guess
/// is right which of them are symbols, so no branch asks.
fn gather(bytes: &mut [u8], len: usize, text: &[u8]) -> usize
    requires { len + length text.now ≤ length bytes.old }
    ensures value { take result bytes.new ≡ take len bytes.old ++ filter is_of_alphabet text.now }
    ensures bound { result ≤ len + length text.now }
{
    let mut len = len;
    for byte in text {
        bytes[len] = *byte;
        len += count_of(*byte);
    }
    len
}

/// Decodes groups of four symbols.
fn decode_groups(symbols: &[u8], bytes: &mut [u8])
    requires whole { length symbols.now % 4 ≡ 0 }
    requires symbols { AllPass is_of_alphabet symbols.now }
    requires room { length symbols.now / 4 * 3 ≤ length bytes.old }
    ensures { take (length symbols.now / 4 * 3) bytes.new ≡ octets (map sextet symbols.now) }
{
    let Ok(_) = STANDARD.decode_slice_unchecked(symbols, bytes) else {
        unreachable!();
    };
}

/// At most 1,024 symbols that wait to be decoded, which contracts see as a list.
#[derive(Drop)]
pub(crate) struct Symbols {
    bytes: [u8; 1024],
    len: usize,
}

impl Model for Symbols {
    ghost use Rattle.std.specs.Prelude.{ℕ, List, ◌≤◌, take};
    ghost use Rattle.std.specs.List.{AllPass};
    ghost use Rattle.mime_codes.specs.Base64.{is_symbol as is_of_alphabet};

    ghost Value = { List ℕ };

    ghost view = { λ s. take s.len s.bytes };

    ghost invariant = { λ s. (s.len ≤ 1024) × AllPass is_of_alphabet (take s.len s.bytes) };
}

impl Symbols {
    pub(crate) fn new() -> Symbols
        ensures { result ≡ [] }
    {
        Symbols {
            bytes: [b'A'; 1024],
            len: 0,
        }
    }

    pub(crate) fn is_full(&self) -> bool
        ensures { IsTrue result ↔ (length self.now ≡ 1024) }
    {
        self.len == 1024
    }

    /// How many symbols more there is room for.
    pub(crate) fn room(&self) -> usize
        ensures { length self.now + result ≡ 1024 }
    {
        1024 - self.len
    }

    /// Takes the symbols of a text.
    pub(crate) fn take(&mut self, text: &[u8])
        requires { length self.old + length text.now ≤ 1024 }
        ensures { self.new ≡ self.old ++ filter is_of_alphabet text.now }
    {
        self.len = gather(&mut self.bytes, self.len, text);
    }

    /// Decodes all symbols that wait, from place `at` on.
    pub(crate) fn decode(&mut self, into: &mut [u8], at: usize) -> usize
        requires { at + length self.old * 3 / 4 ≤ length into.old }
        ensures count { result ≡ at + length (octets (map sextet self.old)) }
        ensures written { into.new ≡ take at into.old ++ octets (map sextet self.old) ++ drop result into.old }
        ensures empty { self.new ≡ [] }
    {
        let whole = (self.len + 3) / 4 * 4;
        self.bytes[self.len..whole].fill(b'A');
        let mut bytes = [0u8; 768];
        decode_groups(&self.bytes[..whole], &mut bytes);
        let count = self.len * 3 / 4;
        into[at..at + count].copy_from_slice(&bytes[..count]);
        self.len = 0;
        at + count
    }
}
