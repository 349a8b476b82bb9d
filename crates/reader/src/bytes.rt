// Classes of bytes.
ghost use Rattle.std.specs.Prelude.{◌≡◌};
ghost use Rattle.text.specs.Bytes.{class_of, in_name, is_digit, is_foreign};
ghost use Rattle.reader.specs.Types.{class_meant};
ghost use Rattle.reader.specs.Scanning.{in_gap};

#[derive(Clone, Copy)]
enum Class {
    Letter,
    Digit,
    Blank,
    Sign,
    Foreign,
}

#[tactic(auto, unfolding(text::specs::Bytes::class_of))]
fn class_of(b: u8) -> Class
    ensures { class_meant result ≡ class_of b }
{
    match b {
        b'a'..=b'z' => Class::Letter,
        b'0'..=b'9' => Class::Digit,
        b' ' | b'\n' => Class::Blank,
        b'\\' | b'.' | b'(' | b')' => Class::Sign,
        _ => Class::Foreign,
    }
}

pub(crate) fn in_name(b: u8) -> bool
    ensures { result ≡ in_name (class_of b) }
{
    matches!(class_of(b), Class::Letter | Class::Digit)
}

// Neither in a name nor a sign.
pub(crate) fn in_gap(b: u8) -> bool
    ensures { result ≡ in_gap (class_of b) }
{
    matches!(class_of(b), Class::Blank | Class::Foreign)
}

pub(crate) fn is_digit(b: u8) -> bool
    ensures { result ≡ is_digit (class_of b) }
{
    matches!(class_of(b), Class::Digit)
}

pub(crate) fn is_foreign(b: u8) -> bool
    ensures { result ≡ is_foreign (class_of b) }
{
    matches!(class_of(b), Class::Foreign)
}
