ghost use Rattle.std.specs.Prelude.{◌≡◌, ◌≤◌, Some};
ghost use Rattle.search_board.specs.Margins.{margin_in, IsOffer, most_word};

// Where the margin 0 lies among the words.
const ZERO: i64 = 1 << 62;

/// The word that holds the margin.
pub(crate) fn word_of(margin: i64) -> u64
    requires { IsOffer margin }
    ensures holds { margin_in result ≡ Some margin }
    ensures small { result ≤ most_word }
{
    (margin + ZERO) as u64
}

/// The margin that the word holds.
pub(crate) fn margin_of(word: u64) -> Option<i64>
    requires { word ≤ most_word }
    ensures { result ≡ margin_in word }
{
    if word == 0 {
        None
    } else {
        Some(word as i64 - ZERO)
    }
}
