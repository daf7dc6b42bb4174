// The runs of digits, letters and blanks at the start of a text.
ghost use Rattle.std.specs.Prelude.{◌≡◌};
ghost use Rattle.std.specs.List.{list_all};
ghost use Rattle.nextest_config_elements_values.specs.Duration.{is_blank};
ghost use Rattle.nextest_config_elements_values.specs.Ahead.{run, behind};
ghost use Rattle.nextest_config_elements_values.specs.Class.{is_of};

// What a byte may be.
#[derive(Clone, Copy)]
pub(crate) enum Class {
    Digit,
    Letter,
    Blank,
}

// Whether a byte is of a class.
fn is_of(class: Class, byte: u8) -> bool
    ensures { result ≡ is_of class byte }
{
    match class {
        Class::Digit => byte.is_ascii_digit(),
        Class::Letter => byte.is_ascii_alphabetic(),
        Class::Blank => is_blank(byte),
    }
}

// Whether the byte is a space, a tab, a line feed or a carriage return.
fn is_blank(byte: u8) -> bool
    ensures { result ≡ is_blank byte }
{
    byte == b' ' || byte == b'\t' || byte == b'\n' || byte == b'\r'
}

// Whether bytes are blanks and nothing else.
pub(crate) fn are_blanks(bytes: &[u8]) -> bool
    ensures { result ≡ list_all is_blank bytes.now }
{
    bytes.iter().all(|byte| is_blank(*byte))
}

// The longest run of bytes of a class at the start of a text, and what follows it.
pub(crate) fn split_run(class: Class, text: &[u8]) -> (&[u8], &[u8])
    ensures run { result.0.now ≡ run (is_of class) text.now }
    ensures rest { result.1.now ≡ behind (is_of class) text.now }
{
    for (index, byte) in text.iter().enumerate() {
        if !is_of(class, *byte) {
            return text.split_at(index);
        }
    }
    (text, &[])
}

// What follows the blanks at the start of a text.
pub(crate) fn skip_blanks(text: &[u8]) -> &[u8]
    ensures { result.now ≡ behind is_blank text.now }
{
    split_run(Class::Blank, text).1
}
