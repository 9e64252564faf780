//! The number that a word writes.
ghost use Rattle.std.specs.Prelude.{◌≡◌, ◌<◌, ◌≤◌, IfSome};
ghost use Rattle.std.specs.Char.{is_ascii_digit};
ghost use Rattle.std.specs.List.{list_all};
ghost use Rattle.join_generator.specs.Words.{is_numeral, number_of_word};

/// The greatest number of build rows.
pub const MOST_ROWS: u32 = 100_000;

fn are_digits(word: &[u8]) -> bool
    ensures { result ≡ list_all is_ascii_digit word.now }
{
    word.iter().all(|byte| byte.is_ascii_digit())
}

/// Whether it is one to six digits, the first of which is not 0.
fn is_numeral(word: &[u8]) -> bool
    ensures { result ≡ is_numeral word.now }
{
    match word {
        [] => false,
        [first, ..] => *first != b'0' && word.len() <= 6 && are_digits(word),
    }
}

/// The number that a word writes in decimal, from 1 to 100,000. Any other word gives `None`, also one
/// with a zero in front.
pub fn number_of_word(word: &str) -> Option<u32>
    ensures number { result ≡ number_of_word word.now }
    ensures some { IfSome result (λ number. 0 < number) }
    ensures most { IfSome result (λ number. number ≤ 100000) }
{
    if !is_numeral(word.as_bytes()) {
        return None;
    }
    match word.parse::<u32>() {
        Ok(number) if number <= MOST_ROWS => Some(number),
        _ => None,
    }
}
