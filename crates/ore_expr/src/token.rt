//! The tokens of an expression.

ghost use Rattle.std.specs.Prelude.{◌≡◌, ℕ, ◌<◌, List, ◌∷◌, length, take_while};
ghost use Rattle.std.specs.Char.{is_ascii_digit};
ghost use Rattle.ore_expr.specs.Tokens.{is_name_byte as is_name_byte_of, symbol as symbol_of, token_at as token_from, more_bytes as more_bytes_of};
ghost use Rattle.ore_expr.specs.TokenView.{token_of, IsNumeric};

use ore_text::is_name_byte;

/// A token, with its bytes where it is a number or a name.
#[derive(Clone, Copy, Drop)]
pub(crate) enum Token<'a> {
    Number(&'a [u8]),
    Name(&'a [u8]),
    Plus,
    Minus,
    Star,
    Slash,
    Caret,
    Open,
    Close,
    /// A byte that begins no token.
    Stray(u8),
}

impl Token<'_> {
    /// How many bytes the token has after its first.
    pub(crate) fn more_bytes(&self) -> usize
        ensures { result ≡ more_bytes_of (token_of self.now) }
    {
        match self {
            Token::Number(digits) => digits.len().saturating_sub(1),
            Token::Name(bytes) => bytes.len().saturating_sub(1),
            _ => 0,
        }
    }
}

/// The token at the front of a text, which isn't empty. A number and a name are as long as they reach.
pub(crate) fn token_at(text: &[u8]) -> Token<'_>
    requires { 0 < length text.now }
    ensures value { (b : ℕ) (bs : List ℕ) → text.now ≡ b ∷ bs → token_of result ≡ token_from b bs }
    ensures numeric { IsNumeric (token_of result) }
{
    let first = text[0];
    if first.is_ascii_digit() {
        Token::Number(digits_at(text))
    } else if first.is_ascii_alphabetic() {
        Token::Name(name_at(text))
    } else {
        symbol(first)
    }
}

// The digits at the front of a text, as many as there are.
fn digits_at(text: &[u8]) -> &[u8]
    ensures { result.now ≡ take_while is_ascii_digit text.now }
{
    &text[..digit_count(text)]
}

fn digit_count(text: &[u8]) -> usize
    ensures { result ≡ length (take_while is_ascii_digit text.now) }
{
    text.iter().take_while(|b| b.is_ascii_digit()).count()
}

// The letters, digits and underscores at the front of a text, as many as there are.
fn name_at(text: &[u8]) -> &[u8]
    ensures { result.now ≡ take_while is_name_byte_of text.now }
{
    &text[..name_byte_count(text)]
}

fn name_byte_count(text: &[u8]) -> usize
    ensures { result ≡ length (take_while is_name_byte_of text.now) }
{
    text.iter().take_while(|b| is_name_byte(**b)).count()
}

// The token of one byte.
fn symbol(b: u8) -> Token<'static>
    ensures { token_of result ≡ symbol_of b }
{
    match b {
        b'+' => Token::Plus,
        b'-' => Token::Minus,
        b'*' => Token::Star,
        b'/' => Token::Slash,
        b'^' => Token::Caret,
        b'(' => Token::Open,
        b')' => Token::Close,
        _ => Token::Stray(b),
    }
}
