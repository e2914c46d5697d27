ghost use Rattle.std.specs.Prelude.{◌≡◌, option_map};
ghost use Rattle.http_header.specs.Token.{lowercase};
ghost use Rattle.ws_gate.specs.Handshakes.{first_value};

use http::Request;

/// The value of a header. Of a header that stands more than once the first counts.
pub fn first_value<'r>(request: &'r Request<()>, name: &str) -> Option<&'r [u8]>
    ensures { option_map (λ s. s.now) result ≡ first_value request.now (lowercase name.now) }
{
    let value = request.headers().get(name)?;
    Some(value.as_bytes())
}
