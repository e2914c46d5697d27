ghost use Rattle.std.specs.Prelude.{◌≡◌, List, ℕ, IsSome, IfOk};
ghost use Rattle.serde_json.specs.Read.{read};
ghost use Rattle.cable_base.specs.Squeeze.{squeezed, next_quoting, is_kept, IsSqueezedJson};

use crate::faults::OutOfMemory;
use crate::texts::Text;
use std::alloc::Global;

/// Where a byte of a JSON text stands: outside strings, inside one, or behind a backslash in one.
#[derive(Clone, Copy, Debug, PartialEq, Eq)]
pub enum Quoting {
    Outside,
    Inside,
    Escaped,
}

/// Where the byte behind this one stands.
fn quoting_behind(quoting: Quoting, byte: u8) -> Quoting
    ensures { result ≡ next_quoting quoting byte }
{
    match quoting {
        Quoting::Outside => {
            if byte == b'"' {
                Quoting::Inside
            } else {
                Quoting::Outside
            }
        }
        Quoting::Inside => {
            if byte == b'"' {
                Quoting::Outside
            } else if byte == b'\\' {
                Quoting::Escaped
            } else {
                Quoting::Inside
            }
        }
        Quoting::Escaped => Quoting::Inside,
    }
}

/// Whether the byte stays: it isn't white space outside a string.
fn keeps(quoting: Quoting, byte: u8) -> bool
    ensures { result ≡ is_kept quoting byte }
{
    match quoting {
        Quoting::Outside => !(byte == b' ' || byte == b'\t' || byte == b'\n' || byte == b'\r'),
        Quoting::Inside | Quoting::Escaped => true,
    }
}

/// The bytes of the text that aren't white space outside its strings.
fn kept_bytes(alloc: Global, text: &[u8]) -> Result<Vec<u8>, OutOfMemory>
    ensures { IfOk result (λ kept. kept.items ≡ squeezed text.now) }
{
    let mut kept = Vec::new(alloc);
    let mut quoting = Quoting::Outside;
    for byte in text {
        if keeps(quoting, *byte) {
            kept.push(*byte)?;
        }
        quoting = quoting_behind(quoting, *byte);
    }
    Ok(kept)
}

/// The JSON text without the white space outside its strings. RFC 8259 lets white space stand there, and it has no meaning.
pub fn squeeze(alloc: Global, text: &str) -> Result<Text, OutOfMemory>
    requires { IsSome (read text.now) }
    ensures squeezed { IfOk result (λ t. t ≡ squeezed text.now) }

    // It reads as the same value, and has nothing more to lose.
    ensures reads { IfOk result (λ t. read t ≡ read text.now) }
    ensures whole { IfOk result IsSqueezedJson }
{
    let bytes = kept_bytes(alloc, text.as_bytes())?;
    match String::from_utf8(bytes) {
        Ok(inner) => Text::of(inner),
        Err(_) => unreachable!(),
    }
}

/// Squeezing keeps the value of a JSON text, and leaves nothing to squeeze.
pub fn squeezing_keeps_the_value()
    ensures value { (text : List ℕ) → IsSome (read text) → read (squeezed text) ≡ read text }
    ensures squeezed { (text : List ℕ) → IsSome (read text) → IsSqueezedJson (squeezed text) }
{}
