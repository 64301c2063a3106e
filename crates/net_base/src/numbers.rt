ghost use Rattle.std.specs.Prelude.{◌≡◌};
ghost use Rattle.std.specs.Char.{is_ascii_digit};
ghost use Rattle.std.specs.List.{list_all};
ghost use Rattle.net_base.specs.Numbers.{is_plain, is_numeral, number_of};

fn all_digits(word: &[u8]) -> bool
    ensures { result ≡ list_all is_ascii_digit word.now }
{
    word.iter().all(|b| b.is_ascii_digit())
}

fn is_plain(word: &[u8]) -> bool
    ensures { result ≡ is_plain word.now }
{
    match word {
        [] => false,
        [_] => true,
        [first, ..] => *first != b'0',
    }
}

#[tactic(auto, unfolding(crate::specs::Numbers::is_numeral))]
fn is_numeral(word: &[u8]) -> bool
    ensures { result ≡ is_numeral word.now }
{
    all_digits(word) && is_plain(word)
}

/// The number that a word is: decimal digits without a sign or a leading zero, below 2^64. `None` exactly where
/// the word is no such number.
pub fn number(word: &str) -> Option<u64>
    ensures { result ≡ number_of word.now }
{
    if is_numeral(word.as_bytes()) {
        word.parse::<u64>().ok()
    } else {
        None
    }
}
