//! Texts of capitals and digits.

ghost use Rattle.std.specs.Prelude.{◌≡◌, ◌↔◌, All, IsTrue};
ghost use Rattle.std.specs.List.{list_all};
ghost use Rattle.base_words.specs.Letters.{IsCapital, IsDigit, IsCapitalOrDigit, is_capital, is_digit, is_capital_or_digit, is_word};

/// Whether the byte is one of A to Z.
pub fn is_capital(letter: u8) -> bool
    ensures value { result ≡ is_capital letter }
    ensures meaning { IsTrue result ↔ IsCapital letter }
{
    letter.is_ascii_uppercase()
}

fn is_digit(letter: u8) -> bool
    ensures value { result ≡ is_digit letter }
    ensures meaning { IsTrue result ↔ IsDigit letter }
{
    letter.is_ascii_digit()
}

fn is_capital_or_digit(letter: u8) -> bool
    ensures value { result ≡ is_capital_or_digit letter }
    ensures meaning { IsTrue result ↔ IsCapitalOrDigit letter }
{
    is_capital(letter) || is_digit(letter)
}

/// Whether each byte of the text is one of A to Z.
pub fn are_capitals(text: &[u8]) -> bool
    ensures value { result ≡ list_all is_capital text.now }
    ensures meaning { IsTrue result ↔ All IsCapital text.now }
{
    text.iter().all(|letter| is_capital(*letter))
}

/// Whether each byte of the text is one of 0 to 9.
pub fn are_digits(text: &[u8]) -> bool
    ensures value { result ≡ list_all is_digit text.now }
    ensures meaning { IsTrue result ↔ All IsDigit text.now }
{
    text.iter().all(|letter| is_digit(*letter))
}

/// Whether each byte of the text is one of A to Z or 0 to 9.
pub fn are_capitals_or_digits(text: &[u8]) -> bool
    ensures value { result ≡ list_all is_capital_or_digit text.now }
    ensures meaning { IsTrue result ↔ All IsCapitalOrDigit text.now }
{
    text.iter().all(|letter| is_capital_or_digit(*letter))
}

/// Whether the text is of so many capitals or digits.
pub fn is_word(least: usize, most: usize, text: &[u8]) -> bool
    ensures { result ≡ is_word least most text.now }
{
    least <= text.len() && text.len() <= most && are_capitals_or_digits(text)
}
