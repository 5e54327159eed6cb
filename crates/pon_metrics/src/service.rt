//! The HTTP service that answers with the page.

ghost use Rattle.std.specs.Prelude.{◌≡◌, [], ◌∷◌, OnOk};
ghost use Rattle.http_server.specs.Response.{IsResponse};
ghost use Rattle.pon_metrics.specs.Answers.{AnswersMethod, IsAnswer, IsNoMethod, IsNoPage, IsPage, close_field, is_read};

use bytes::{BufMut, Bytes};
use http::{Request, StatusCode};
use http_header::{HeaderName, HeaderValue};
use http_server::{Response, Service};
use std::alloc::AllocError;

/// The path of the page.
pub const PATH: &str = "/metrics";

/// Answers each request of `/metrics` by `GET` or `HEAD` with one page, another method with 405 and another path with 404.
/// Each answer closes its connection.
#[derive(Debug, Drop)]
pub struct MetricsService {
    /// The page.
    pub page: Bytes,
}

// Answers with the page.
fn add_page(response: &mut Response, page: &Bytes) -> Result<(), AllocError>
    requires { IsResponse 200 (close_field ∷ []) [] response.old }
    ensures { OnOk result (IsPage page.now response.new) }
{
    response.add_header(
        HeaderName::from_static("content-type"),
        HeaderValue::from_static("text/plain; version=0.0.4; charset=utf-8"),
    )?;
    response.body.push(page.clone()?)
}

// Answers that the path has no page.
fn add_no_page(response: &mut Response) -> Result<(), AllocError>
    requires { IsResponse 200 (close_field ∷ []) [] response.old }
    ensures { OnOk result (IsNoPage response.new) }
{
    response.status = StatusCode::NOT_FOUND;
    response.add_header(
        HeaderName::from_static("content-type"),
        HeaderValue::from_static("text/plain; charset=utf-8"),
    )?;
    response.body.put_slice(b"The metrics are at /metrics\n")
}

// Answers that the page does not take the method.
fn add_no_method(response: &mut Response) -> Result<(), AllocError>
    requires { IsResponse 200 (close_field ∷ []) [] response.old }
    ensures { OnOk result (IsNoMethod response.new) }
{
    response.status = StatusCode::METHOD_NOT_ALLOWED;
    response.add_header(
        HeaderName::from_static("allow"),
        HeaderValue::from_static("GET, HEAD"),
    )
}

// Answers a request of the page by its method.
fn answer_method(response: &mut Response, page: &Bytes, method: &str) -> Result<(), AllocError>
    requires { IsResponse 200 (close_field ∷ []) [] response.old }
    ensures { OnOk result (AnswersMethod page.now (is_read method.now) response.new) }
{
    if method == "GET" || method == "HEAD" {
        add_page(response, page)
    } else {
        add_no_method(response)
    }
}

impl Service for MetricsService {
    ghost answers = { λ old request response new.
        IsAnswer old.page request response × (new ≡ old) };

    fn call(
        &mut self,
        request: &Request<Bytes>,
        response: &mut Response,
    ) -> Result<(), AllocError> {
        response.add_header(
            HeaderName::from_static("connection"),
            HeaderValue::from_static("close"),
        )?;
        if request.uri().path() == PATH {
            answer_method(response, &self.page, request.method().as_str())
        } else {
            add_no_page(response)
        }
    }
}
