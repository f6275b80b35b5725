// Bytes as pairs of hex digits in lower case.
ghost use Rattle.std.specs.Prelude.{◌*◌, ◌<◌, ◌≡◌, length};
ghost use Rattle.answering.specs.Hex.{hex_digit, hexed};

// The lower-case hex digit of a number below 16.
fn digit(number: u8) -> u8
    requires { number < 16 }
    ensures { result ≡ hex_digit number }
{
    if number < 10 {
        number + b'0'
    } else {
        number + (b'a' - 10)
    }
}

// Writes bytes as pairs of hex digits over a buffer of twice as many bytes.
pub fn put_digits(said: &[u8], buffer: &mut [u8])
    requires { 2 * length said.now ≡ length buffer.old }
    ensures { buffer.new ≡ hexed said.now }
{
    for place in 0..said.len() {
        let byte = said[place];
        buffer[2 * place] = digit(byte / 16);
        buffer[2 * place + 1] = digit(byte % 16);
    }
}
