ghost use Rattle.httparse.specs.Spans.{IsRequestWithin, IsRequestOf};
ghost use Rattle.ws_handshake.specs.Replies.{FollowsRules, IsRuled};

use crate::answers::acceptance;
use crate::requests::request_of;
use http::Request;
use httparse::Status;
use httparse::spans::{EMPTY_HEADER_SPAN, HeaderSpan, RequestSpans, parse_request};
use std::alloc::Global;
use websocket::handshake::HandshakeError;
use websocket::handshake::server::check_request;
use ws_gate::{Admission, Denial, Rules, admit};

/// How many headers a request may have.
const FIELD_LIMIT: usize = 124;

/// Why bytes are answered by nothing.
#[derive(Clone, Copy, Debug, PartialEq, Eq)]
pub enum Failure {
    /// They are no request, or one with too many headers, whatever comes behind them.
    NoRequest,
    /// Something came behind the request, before it was answered.
    TooEarly,
    /// The request asks for no WebSocket.
    NoUpgrade(HandshakeError),
    /// Its target or a header is none that `http` takes, or memory was wanted.
    Unfit,
}

/// What a server makes of the bytes that a client has sent.
#[derive(Drop)]
pub enum Reply {
    /// They are the beginning of a request.
    Unfinished,
    /// The request is admitted, and answered by these bytes.
    Admitted(Admission, Vec<u8>),
    /// A rule denies the request.
    Denied(Denial),
    /// It is closed without an answer.
    Refused(Failure),
}

/// The answer to a request that asks for an upgrade.
fn ruled(alloc: Global, accept_key: &[u8; 28], request: &Request<()>, rules: &Rules) -> Reply
    ensures { IsRuled accept_key.now request.now rules.now result }
{
    match admit(alloc, request, rules) {
        Ok(admission) => match acceptance(alloc, accept_key, admission.protocol) {
            Ok(answer) => Reply::Admitted(admission, answer),
            Err(_) => Reply::Denied(Denial::OutOfMemory),
        },
        Err(denial) => Reply::Denied(denial),
    }
}

/// What is answered to a whole request.
fn reply_to_request(
    alloc: Global,
    head: &[u8],
    found: &RequestSpans,
    spans: &[HeaderSpan],
    rules: &Rules,
) -> Reply
    requires within { IsRequestWithin head.now spans.now found.now }
    requires parsed { IsRequestOf head.now spans.now found.now }
    ensures { FollowsRules head.now rules.now result }
{
    if found.len != head.len() {
        return Reply::Refused(Failure::TooEarly);
    }
    let accept_key = match check_request(head, found, spans) {
        Ok(accept_key) => accept_key,
        Err(error) => return Reply::Refused(Failure::NoUpgrade(error)),
    };
    match request_of(alloc, head, found, spans) {
        Ok(request) => ruled(alloc, &accept_key, &request, rules),
        Err(_) => Reply::Refused(Failure::Unfit),
    }
}

/// What a server with these rules answers to a client that has sent these bytes.
pub fn reply_to_head(alloc: Global, head: &[u8], rules: &Rules) -> Reply
    ensures { FollowsRules head.now rules.now result }
{
    let mut spans = [EMPTY_HEADER_SPAN; FIELD_LIMIT];
    match parse_request(head, &mut spans) {
        Ok(Status::Complete(found)) => reply_to_request(alloc, head, &found, &spans, rules),
        Ok(Status::Partial) => Reply::Unfinished,
        Err(_) => Reply::Refused(Failure::NoRequest),
    }
}
