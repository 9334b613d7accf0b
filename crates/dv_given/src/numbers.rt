// Numbers, and values of options, in words of the command line.
ghost use Rattle.std.specs.Char.{is_ascii_digit};
ghost use Rattle.std.specs.List.{list_all};
ghost use Rattle.std.specs.Prelude.{◌≡◌, ◌≤◌, IfSome, option_map};
ghost use Rattle.dv_print.specs.Words.{behind};
ghost use Rattle.dv_given.specs.Numbers as spec;

/// How many workers load a window, where no words say it.
pub const WORKERS: u32 = 4;

const MOST_WORKERS: u32 = 64;

// Whether all bytes are digits.
fn are_digits(word: &[u8]) -> bool
    ensures { result ≡ list_all is_ascii_digit word.now }
{
    word.iter().all(|byte| byte.is_ascii_digit())
}

// Whether the bytes are a decimal number without a sign or a leading zero.
fn is_number(word: &[u8]) -> bool
    ensures { result ≡ spec.is_number word.now }
{
    match word {
        [] => false,
        [first, ..] => *first != b'0' && are_digits(word),
    }
}

/// The number that a word says: in decimal without sign or leading zero, and from 1 to so many. Takes no memory.
pub fn number_in(most: u32, word: &[u8]) -> Option<u32>
    ensures number { result ≡ spec.number_in most word.now }
    ensures some { IfSome result (λ number. 1 ≤ number) }
    ensures most { IfSome result (λ number. number ≤ most) }
{
    if !is_number(word) {
        return None;
    }
    let Ok(text) = str::from_utf8(word) else {
        return None;
    };
    match text.parse() {
        Ok(number) if number <= most => Some(number),
        _ => None,
    }
}

/// The number of workers that a word says, from 1 to 64. Takes no memory.
pub fn workers_in(word: &[u8]) -> Option<u32>
    ensures workers { result ≡ spec.workers_in word.now }
    ensures some { IfSome result (λ workers. 1 ≤ workers) }
    ensures most { IfSome result (λ workers. workers ≤ 64) }
{
    number_in(MOST_WORKERS, word)
}

/// The value of an option in a word that holds both: what stands behind this front.
pub fn value_behind<'a>(front: &[u8], word: &'a [u8]) -> Option<&'a [u8]>
    ensures { option_map (λ value. value.now) result ≡ behind front.now word.now }
{
    word.strip_prefix(front)
}
