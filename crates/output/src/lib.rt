// Text written into a lent buffer. A function is given the place of its first byte and gives back the place behind its last one. Bytes past the
// buffer's end are counted and not stored: a last place beyond the buffer tells the caller how long the buffer should have been.
#![tactic(auto)]

ghost use Rattle.std.specs.Prelude.{◌≡◌, ◌+◌, ◌*◌, ◌-◌, ◌^◌, ◌<◌, ◌≤◌, min, [], ◌∷◌, length, replicate};
ghost use Rattle.output.specs.Text.{Wrote, digit, hex_of, decimal_of};

// One byte.
pub fn put_byte(out: &mut [u8], at: usize, b: u8) -> usize
    requires { at < 2 ^ 63 }
    ensures { Wrote (b ∷ []) at out.old out.new result }
{
    let next = at + 1;
    if at < out.len() {
        out[at] = b;
    }
    next
}

// Bytes as they are. How many have a place is found first, and those are copied at once.
pub fn put_bytes(out: &mut [u8], at: usize, src: &[u8]) -> usize
    requires { at + length src.now < 2 ^ 64 }
    ensures { Wrote src.now at out.old out.new result }
{
    if at < out.len() {
        let n = src.len().min(out.len() - at);
        out[at..at + n].copy_from_slice(&src[..n]);
    }
    at + src.len()
}

// One byte so many times.
pub fn put_fill(out: &mut [u8], at: usize, b: u8, count: usize) -> usize
    requires { at + count < 2 ^ 64 }
    ensures { Wrote (replicate count b) at out.old out.new result }
{
    if at < out.len() {
        let n = count.min(out.len() - at);
        out[at..at + n].fill(b);
    }
    at + count
}

// A digit below 16, in upper case.
fn digit(n: u32) -> u8
    requires { n < 16 }
    ensures { result ≡ digit n }
{
    let digits = b"0123456789ABCDEF";
    digits[n as usize]
}

// One byte as two hexadecimal digits.
pub fn put_hex_byte(out: &mut [u8], at: usize, b: u8) -> usize
    requires { at < 2 ^ 62 }
    ensures { Wrote (hex_of (b ∷ [])) at out.old out.new result × (result ≡ at + 2) }
{
    let n = u32::from(b);
    let next = put_byte(out, at, digit(n / 16));
    put_byte(out, next, digit(n % 16))
}

// Bytes as two hexadecimal digits each.
pub fn put_hex(out: &mut [u8], at: usize, src: &[u8]) -> usize
    requires { at + 2 * length src.now < 2 ^ 62 }
    ensures { Wrote (hex_of src.now) at out.old out.new result × (result ≡ at + 2 * length src.now) }
{
    let mut next = at;
    for &b in src {
        next = put_hex_byte(out, next, b);
    }
    next
}

// A number in decimal: at most ten digits, so no deeper than ten calls.
pub fn put_decimal(out: &mut [u8], at: usize, n: u32) -> usize
    requires { at < 2 ^ 62 }
    ensures { Wrote (decimal_of n) at out.old out.new result × (result ≤ at + 10) }
{
    if n < 10 {
        return put_byte(out, at, digit(n));
    }
    let next = put_decimal(out, at, n / 10);
    put_byte(out, next, digit(n % 10))
}
