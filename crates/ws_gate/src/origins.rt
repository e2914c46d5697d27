ghost use Rattle.std.specs.Prelude.{◌≡◌, bytes_eq};
ghost use Rattle.std.specs.List.{list_any};
ghost use Rattle.ws_gate.specs.Handshakes.{handshake_of};
ghost use Rattle.ws_gate.specs.Admissions.{is_foreign};

use crate::headers::first_value;
use crate::verdicts::Rules;
use cable_base::Text;
use http::Request;

fn is_known(origins: &[Text], origin: &[u8]) -> bool
    ensures { result ≡ list_any (bytes_eq origin.now) origins.now }
{
    origins
        .iter()
        .any(|known| origin == known.as_str().as_bytes())
}

/// Whether the rules name origins, and the request has none of them.
#[tactic(auto, unfolding(crate::specs::Admissions::is_foreign))]
pub fn is_foreign(request: &Request<()>, rules: &Rules) -> bool
    ensures { result ≡ is_foreign rules.now.origins (handshake_of request.now).origin }
{
    let origins = rules.origins.as_slice();
    if origins.is_empty() {
        return false;
    }
    match first_value(request, "origin") {
        Some(origin) => !is_known(origins, origin),
        None => true,
    }
}
