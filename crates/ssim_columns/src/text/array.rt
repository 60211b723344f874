//! Texts of known lengths by value.

ghost use Rattle.std.specs.Prelude.{◌≡◌, length};

/// The bytes of a text by value. They overlap nothing, so a part that is written from them is
/// copied in whole words.
pub fn bytes_of<const N: usize>(text: &[u8]) -> [u8; N]
    requires { length text.now ≡ N }
    ensures { result ≡ text.now }
{
    let mut bytes = [0; N];
    bytes.copy_from_slice(text);
    bytes
}

/// Seven bytes by value. They are taken one by one, which is faster than a copy of seven.
pub fn seven(text: &[u8]) -> [u8; 7]
    requires { length text.now ≡ 7 }
    ensures { result ≡ text.now }
{
    match text {
        [a, b, c, d, e, f, g] => [*a, *b, *c, *d, *e, *f, *g],
        _ => unreachable!(),
    }
}
