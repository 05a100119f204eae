//! Numbers of up to 32 bits, as `Display` writes them.

ghost use Rattle.std.specs.Prelude.{◌≡◌, ℕ, ◌<◌, ◌^◌, ◌↔◌, decimal, true, Some};
ghost use Rattle.words.specs.Numbers.{begins_well, is_numeral, is_past, is_prefixed_past, is_too_large};

/// The number of up to 32 bits that is written so: without a sign, and without a zero that leads.
#[tactic(auto, using(crate::proofs::Numerals::not_parsed))]
pub fn number(digits: &str) -> Option<u32>
    ensures { (n : ℕ) → result ≡ Some n ↔ (digits.now ≡ decimal n) × (n < 2 ^ 32) }
{
    if is_numeral(digits) {
        parsed(digits)
    } else {
        None
    }
}

// The number of up to 32 bits that a numeral is.
fn parsed(digits: &str) -> Option<u32>
    requires { is_numeral digits.now ≡ true }
    ensures { (n : ℕ) → result ≡ Some n ↔ (digits.now ≡ decimal n) × (n < 2 ^ 32) }
{
    digits.parse().ok()
}

// Is this how a number is written, of however many digits?
fn is_numeral(digits: &str) -> bool
    ensures { result ≡ is_numeral digits.now }
{
    let bytes = digits.as_bytes();
    begins_well(bytes) && bytes.iter().all(|byte| byte.is_ascii_digit())
}

// Is there a first digit, which is no zero unless it is the only one?
fn begins_well(digits: &[u8]) -> bool
    ensures { result ≡ begins_well digits.now }
{
    match digits {
        [] => false,
        [_] => true,
        [first, ..] => *first != b'0',
    }
}

/// Is it a number, but one of more than 32 bits?
pub fn is_past(digits: &str) -> bool
    ensures { result ≡ is_past digits.now }
{
    is_numeral(digits) && is_large(digits)
}

// Has the numeral more than 32 bits?
fn is_large(digits: &str) -> bool
    requires { is_numeral digits.now ≡ true }
    ensures { result ≡ is_past digits.now }
{
    number(digits).is_none()
}

/// Does the word name a block or an instruction by a number of more than 32 bits?
pub fn is_too_large(word: &str) -> bool
    ensures { result ≡ is_too_large word.now }
{
    is_prefixed_past("block", word) || is_prefixed_past("inst", word)
}

// Is the word the prefix, with a number of more than 32 bits behind it?
fn is_prefixed_past(prefix: &str, word: &str) -> bool
    ensures { result ≡ is_prefixed_past prefix.now word.now }
{
    match word.strip_prefix(prefix) {
        Some(digits) => is_past(digits),
        None => false,
    }
}
