//! The methods of routes, as HTTP names them.

ghost use Rattle.std.specs.Prelude.{◌≡◌, ◌≤◌, length};
ghost use Rattle.ci_http_messages.specs.Methods.{method_text, is_text};

use ci_machine::reply::Method;

/// The method of HTTP for a route's method.
pub fn http_method(method: Method) -> http::Method
    ensures text { result ≡ method_text method }
    ensures len { length result ≤ 6 }
{
    match method {
        Method::Delete => http::Method::DELETE,
        Method::Get => http::Method::GET,
        Method::Patch => http::Method::PATCH,
        Method::Post => http::Method::POST,
        Method::Put => http::Method::PUT,
    }
}

/// Is the text the name of a route's method?
pub(crate) fn is_named(method: Method, text: &[u8]) -> bool
    ensures { result ≡ is_text (method_text method) text.now }
{
    http_method(method).as_str().as_bytes() == text
}
