ghost use Rattle.std.specs.Prelude.{◌≡◌, ◌<◌, length, position, IfSome};
ghost use Rattle.std.specs.List.{list_all};
ghost use Rattle.ws_gate.specs.Protocols.{is_blank, is_other, skip_blanks, is_named, lists, protocol_in};

use crate::verdicts::Protocol;

/// Where the first byte stands that isn't a blank.
fn first_other(text: &[u8]) -> Option<usize>
    ensures value { result ≡ position is_other text.now }
    ensures within { IfSome result (λ start. start < length text.now) }
{
    text.iter().position(|b| *b != b' ')
}

/// The text without the blanks in front.
#[tactic(auto, unfolding(crate::specs::Protocols::skip_blanks))]
fn skip_blanks(text: &[u8]) -> &[u8]
    ensures { result.now ≡ skip_blanks text.now }
{
    match first_other(text) {
        Some(start) => &text[start..],
        None => &[],
    }
}

fn are_blank(text: &[u8]) -> bool
    ensures { result ≡ list_all is_blank text.now }
{
    text.iter().all(|b| *b == b' ')
}

/// Whether a part of a header is the name, with blanks around it that don't count.
fn is_named(part: &[u8], name: &[u8]) -> bool
    ensures { result ≡ is_named name.now part.now }
{
    match skip_blanks(part).strip_prefix(name) {
        Some(rest) => are_blank(rest),
        None => false,
    }
}

/// Whether the name is one of a header's parts, cut at commas.
fn lists(header: &[u8], name: &[u8]) -> bool
    ensures { result ≡ lists name.now header.now }
{
    header
        .split(|b| *b == b',')
        .any(|part| is_named(part, name))
}

/// The protocol that a header lists. The server would rather speak than refuse.
#[tactic(auto, unfolding(crate::specs::Protocols::protocol_in))]
pub fn protocol_in(header: &[u8]) -> Option<Protocol>
    ensures { result ≡ protocol_in header.now }
{
    if lists(header, b"actioncable-v1-json") {
        Some(Protocol::V1)
    } else if lists(header, b"actioncable-unsupported") {
        Some(Protocol::Unsupported)
    } else {
        None
    }
}
