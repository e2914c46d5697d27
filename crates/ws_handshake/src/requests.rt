ghost use Rattle.std.specs.Prelude.{◌≡◌, ◌≤◌, [], ◌∷◌, length, take, map, All, IfOk, OnOk};
ghost use Rattle.httparse.specs.Spans.{IsHeaderWithin, IsRequestWithin, span_bytes};
ghost use Rattle.http_header.specs.HeaderMap.{append_all};
ghost use Rattle.websocket.specs.Headers.{fields_of};
ghost use Rattle.ws_handshake.specs.Requests.{header_of, IsRequestBy};

use http::request::Parts;
use http::{HeaderMap, HeaderName, HeaderValue, Request, Uri};
use httparse::spans::{HeaderSpan, RequestSpans};
use std::alloc::Global;

/// A target or a header that `http` doesn't take, or memory was wanted.
#[derive(Clone, Copy, Debug)]
pub(crate) struct Unfit;

/// Adds a header behind those of its name.
fn append_field(
    alloc: Global,
    headers: &mut HeaderMap<HeaderValue>,
    name: &[u8],
    value: &[u8],
) -> Result<(), Unfit>
    ensures { OnOk result (headers.new ≡ append_all headers.old (header_of (name.now, value.now) ∷ [])) }
{
    let Ok(name) = HeaderName::from_bytes(alloc, name) else {
        return Err(Unfit);
    };
    let Ok(value) = HeaderValue::from_bytes(alloc, value) else {
        return Err(Unfit);
    };
    match headers.append(name, value) {
        Ok(_) => Ok(()),
        Err(_) => Err(Unfit),
    }
}

/// Adds the headers of a head in their order.
fn append_fields(
    alloc: Global,
    headers: &mut HeaderMap<HeaderValue>,
    head: &[u8],
    limit: usize,
    spans: &[HeaderSpan],
) -> Result<(), Unfit>
    requires fits { limit ≤ length head.now }
    requires within { All (IsHeaderWithin limit) spans.now }
    ensures { OnOk result (headers.new ≡ append_all headers.old (map header_of (fields_of head.now spans.now))) }
{
    let Some((first, rest)) = spans.split_first() else {
        return Ok(());
    };
    append_field(alloc, headers, first.name.of(head), first.value.of(head))?;
    append_fields(alloc, headers, head, limit, rest)
}

/// The request by GET that stands in a head.
pub(crate) fn request_of(
    alloc: Global,
    head: &[u8],
    found: &RequestSpans,
    spans: &[HeaderSpan],
) -> Result<Request<()>, Unfit>
    requires { IsRequestWithin head.now spans.now found.now }
    ensures { IfOk result (IsRequestBy (span_bytes head.now found.now.path) (fields_of head.now (take found.now.headers spans.now))) }
{
    let mut parts = Parts::new(alloc);
    let Ok(uri) = Uri::from_bytes(alloc, found.path.of(head)) else {
        return Err(Unfit);
    };
    parts.uri = uri;
    append_fields(
        alloc,
        &mut parts.headers,
        head,
        found.len,
        &spans[..found.headers],
    )?;
    Ok(Request::from_parts(parts, ()))
}
