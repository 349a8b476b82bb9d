// Decimal numbers in a lent slice of bytes.
#![tactic(auto)]

ghost use Rattle.std.specs.Prelude.{◌≡◌, ◌+◌, ◌<◌, set};
ghost use Rattle.decimal.specs.Decimal.{digit_byte, put_of};

// Puts a digit at index `at + k`, where the slice has one.
fn put_digit(out: &mut [u8], at: usize, k: usize, digit: u32)
    requires { digit < 10 }
    ensures { out.new ≡ set out.old (at + k) (digit_byte digit) }
{
    let Some(index) = at.checked_add(k) else {
        return;
    };
    // A test and an index, for what a write through `get_mut` leaves, no proof can cite.
    if index < out.len() {
        out[index] = b'0' + digit as u8;
    }
}

// Puts the digits of a number into a slice, the first at index `at`; what is past the slice's end is left out. Answers how many digits there are.
pub fn put(out: &mut [u8], at: usize, number: u32) -> usize
    ensures { (result, out.new) ≡ put_of out.old at number }
{
    if number < 10 {
        put_digit(out, at, 0, number);
        return 1;
    }
    let k = put(out, at, number / 10);
    put_digit(out, at, k, number % 10);
    k + 1
}
