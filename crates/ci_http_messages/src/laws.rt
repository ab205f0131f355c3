//! Laws of the definitions that the contracts cite.

ghost use Rattle.std.specs.Prelude.{◌≡◌, ◌≢◌, ◌++◌, ℕ, List, [], Some, option_map};
ghost use Rattle.ci_machine.specs.declared.reply.Method.{Method};
ghost use Rattle.ci_http_messages.specs.Routes.{other_methods, asked_in};
ghost use Rattle.ci_http_messages.specs.Reading.{Message, Reading, ended, request, IsReading};
ghost use Rattle.ci_http_messages.specs.ReplyText.{listed};
ghost use Rattle.ci_http_messages.specs.RequestBytes.{methods_of};

use crate::fault::HttpFault;
use crate::head::{HeadBytes, read_head, whole_head};
use crate::limits::MAX_HEAD_FIELDS;
use crate::link::{Failed, Source};
use httparse::spans::EMPTY_HEADER_SPAN;

// Bytes as a reader whose calls never fail.
#[derive(Drop)]
pub(crate) struct Lent<'b> {
    pub(crate) rest: &'b [u8],
}

impl<'b> Source for Lent<'b> {
    ghost use Rattle.std.specs.Prelude.{Some};

    ghost left = { λ l. Some l.rest.now };

    ghost failures = { λ l. 0 };

    fn get(&mut self, buf: &mut [u8]) -> Result<usize, Failed> {
        if self.rest.is_empty() || buf.is_empty() {
            return Ok(0);
        }
        buf[0] = self.rest[0];
        self.rest = &self.rest[1..];
        Ok(1)
    }
}

/// Each text is one of these things: it ends early, is refused, or begins with a request. The body decides it by reading the
/// head.
pub fn each_text_has_a_reading(bytes: &[u8])
    ensures { (reading : Reading) × (rest : List ℕ) × IsReading bytes.now reading rest }
{
    let mut reader = Lent { rest: bytes };
    let mut head = HeadBytes::new();
    match read_head(&mut reader, &mut head) {
        Ok(()) => {
            let mut headers = [EMPTY_HEADER_SPAN; MAX_HEAD_FIELDS];
            match whole_head(head.as_slice(), &mut headers) {
                Some(_) => (),
                None => (),
            }
        }
        Err(HttpFault::Ended) => (),
        Err(HttpFault::Refused(_)) => (),
        Err(HttpFault::ReadFailed) => (),
        Err(HttpFault::Memory) => (),
    }
}

/// What a text is, and how much of it isn't needed to say so, are determined: it ends early, is
/// refused for one reason, or begins with one request, and never two of these.
pub fn one_reading()
    ensures { (bytes : List ℕ) (a b : Reading) (r s : List ℕ) → IsReading bytes a r → IsReading bytes b s → (a ≡ b) × (r ≡ s) }
{}

/// The bytes after a request, or after those that refuse it, have no part in it: with any others
/// in their place it is the same.
pub fn rest_has_no_part()
    ensures { (taken rest other : List ℕ) (reading : Reading) → reading ≢ ended
        → IsReading (taken ++ rest) reading rest → IsReading (taken ++ other) reading other }
{}

/// A proper beginning of a request ends early: it is no request, and isn't refused.
pub fn beginning_ends()
    ensures { (front back rest : List ℕ) (m : Message) → back ≢ []
        → IsReading (front ++ back ++ rest) (request m) rest → IsReading front ended [] }
{}

/// The reply to another method names each method of the path's routes, in their order.
#[tactic(auto, using(crate::proofs::Allows::names_each))]
pub fn allow_names_each_method()
    ensures { (method path : List ℕ) (methods : List Method) → asked_in method path ≡ other_methods methods
        → option_map listed (methods_of methods) ≡ Some methods }
{}
