ghost use Rattle.std.specs.Prelude.{◌≡◌};
ghost use Rattle.ws_gate.specs.Handshakes.{handshake_of};
ghost use Rattle.ws_gate.specs.Tokens.{token_of};
ghost use Rattle.ws_gate.specs.Protocols.{protocol_of};
ghost use Rattle.ws_gate.specs.Admissions.{admission_of, Gives};

use crate::headers::first_value;
use crate::origins::is_foreign;
use crate::protocols::protocol_in;
use crate::tokens::token_in;
use crate::verdicts::{Admission, Denial, Protocol, Rules};
use cable_base::Text;
use http::Request;
use std::alloc::Global;

fn token_of(request: &Request<()>) -> &str
    ensures { result.now ≡ token_of (handshake_of request.now).query }
{
    match request.uri().query() {
        Some(query) => token_in(query).unwrap_or(""),
        None => "",
    }
}

fn protocol_of(request: &Request<()>) -> Option<Protocol>
    ensures { result ≡ protocol_of (handshake_of request.now).protocols }
{
    let header = first_value(request, "sec-websocket-protocol")?;
    protocol_in(header)
}

/// Admits the request of a handshake, or denies it for the first rule that it breaks.
pub fn admit(alloc: Global, request: &Request<()>, rules: &Rules) -> Result<Admission, Denial>
    ensures { Gives result (admission_of (handshake_of request.now) rules.now) }
{
    if request.method().as_str() != "GET" {
        return Err(Denial::WrongMethod);
    }
    if request.uri().path() != rules.path.as_str() {
        return Err(Denial::WrongPath);
    }
    if is_foreign(request, rules) {
        return Err(Denial::ForeignOrigin);
    }
    Ok(Admission {
        token: Text::new(alloc, token_of(request))?,
        protocol: protocol_of(request),
    })
}
