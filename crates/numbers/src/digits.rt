// Digits, and the number that they say, for every width.
ghost use Rattle.std.specs.Prelude.{◌≡◌, true, ◌<◌, ◌^◌};
ghost use Rattle.alphabet.specs.Digits.{all_digits, counted};
ghost use Rattle.numbers.specs.Plain.{Leads};

// Digits and nothing else.
pub fn is_digits(bytes: &[u8]) -> bool
    ensures { result ≡ all_digits bytes.now }
{
    bytes.iter().all(|b| alphabet::is_digit(*b))
}

// How many digits bytes begin with.
pub fn leading_digits(bytes: &[u8]) -> usize
    ensures { Leads bytes.now result }
{
    bytes.iter().take_while(|b| alphabet::is_digit(**b)).count()
}

// The number that is written by the digits of `number` and those that follow.
pub fn count_on(number: u64, bytes: &[u8]) -> u64
    requires bytes_value { all_digits bytes.now ≡ true }
    requires bytes_bound { counted number bytes.now < 2 ^ 64 }
    ensures { result ≡ counted number bytes.now }
{
    let mut n = number;
    for b in bytes {
        n = n * 10 + u64::from(*b - b'0');
    }
    n
}
