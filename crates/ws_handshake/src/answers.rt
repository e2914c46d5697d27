ghost use Rattle.std.specs.Prelude.{◌≡◌, ◌++◌, IfOk, OnOk};
ghost use Rattle.websocket.specs.Headers.{field_line};
ghost use Rattle.ws_handshake.specs.Replies.{protocol_line, acceptance, refusal};

use std::alloc::{AllocError, Global};
use ws_gate::{Denial, Protocol};

/// A header of an answer.
fn put_line(answer: &mut Vec<u8>, name: &[u8], value: &[u8]) -> Result<(), AllocError>
    ensures { OnOk result (answer.new.items ≡ answer.old.items ++ field_line name.now value.now) }
{
    answer.extend_from_slice(name)?;
    answer.extend_from_slice(b": ")?;
    answer.extend_from_slice(value)?;
    answer.extend_from_slice(b"\r\n")
}

/// The header that names a protocol, where there is one.
fn put_protocol(answer: &mut Vec<u8>, protocol: Option<Protocol>) -> Result<(), AllocError>
    ensures { OnOk result (answer.new.items ≡ answer.old.items ++ protocol_line protocol) }
{
    match protocol {
        Some(Protocol::V1) => put_line(answer, b"sec-websocket-protocol", b"actioncable-v1-json"),
        Some(Protocol::Unsupported) => {
            put_line(
                answer,
                b"sec-websocket-protocol",
                b"actioncable-unsupported",
            )
        }
        None => Ok(()),
    }
}

/// The answer to a request that is admitted.
pub(crate) fn acceptance(
    alloc: Global,
    accept_key: &[u8; 28],
    protocol: Option<Protocol>,
) -> Result<Vec<u8>, AllocError>
    ensures { IfOk result (λ answer. answer.items ≡ acceptance accept_key.now protocol) }
{
    let mut answer = Vec::new(alloc);
    answer.extend_from_slice(b"HTTP/1.1 101 Switching Protocols\r\n")?;
    put_line(&mut answer, b"connection", b"Upgrade")?;
    put_line(&mut answer, b"upgrade", b"websocket")?;
    put_line(&mut answer, b"sec-websocket-accept", accept_key)?;
    put_protocol(&mut answer, protocol)?;
    answer.extend_from_slice(b"\r\n")?;
    Ok(answer)
}

/// The answer to a request that is denied. It has no body, and the socket is closed behind it.
pub(crate) fn refusal(denial: Denial) -> &'static [u8]
    ensures { result.now ≡ refusal denial }
{
    match denial {
        Denial::OutOfMemory => {
            b"HTTP/1.1 503 Service Unavailable\r\nconnection: close\r\ncontent-length: 0\r\n\r\n"
        }
        _ => b"HTTP/1.1 404 Not Found\r\nconnection: close\r\ncontent-length: 0\r\n\r\n",
    }
}
