// Bytes put into a lent buffer.

ghost use Rattle.std.specs.Prelude.{◌≡◌};
ghost use Rattle.fields.specs.{Bytes.digits, Put.put_at, Put.put_end};

// Writes the bytes at `at`, as many as there is room for, and gives the place behind them. Byte by byte: `copy_from_slice` would have C callers link with
// `memmove`.
pub fn put(buffer: &mut [u8], at: usize, bytes: &[u8]) -> usize
    ensures value { result ≡ put_end buffer.old at bytes.now }
    ensures buffer_after { buffer.new ≡ put_at buffer.old at bytes.now }
{
    let start = at.min(buffer.len());
    let count = bytes.len().min(buffer.len() - start);
    for i in 0..count {
        buffer[start + i] = bytes[i];
    }
    start + count
}

// Of a number of 64 bits.
const MAX_DIGITS: usize = 20;

// Writes a number in decimal, as `put` writes bytes. The last digit is found first.
pub fn put_number(buffer: &mut [u8], at: usize, number: usize) -> usize
    ensures value { result ≡ put_end buffer.old at (digits number) }
    ensures buffer_after { buffer.new ≡ put_at buffer.old at (digits number) }
{
    let mut digits = [0u8; MAX_DIGITS];
    let mut rest = number;
    let mut i = MAX_DIGITS - 1;
    while 10 <= rest {
        digits[i] = b'0' + ((rest % 10) as u8);
        rest /= 10;
        i -= 1;
    }
    digits[i] = b'0' + (rest as u8);
    put(buffer, at, &digits[i..])
}
