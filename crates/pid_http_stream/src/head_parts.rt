//! The parts of a request's head.
ghost use Rattle.std.specs.Prelude.{◌≡◌, length, take, All, option_copied};
ghost use Rattle.httparse.specs.Grammar.{RequestHead};
ghost use Rattle.httparse.specs.Spans.{IsHeaderWithin};
ghost use Rattle.pid_http_stream.specs.Connections.{asks_to_close as asks};
ghost use Rattle.pid_http_stream.specs.FieldValues.{values_of, first_value};
ghost use Rattle.pid_http_stream.specs.HeadParts.{IsHeadOf};
ghost use Rattle.pid_http_stream.specs.Requests.{fields_of};

use crate::connection::asks_to_close;
use crate::fields::{count_named, first_named};
use crate::head::Head;
use httparse::spans::HeaderSpan;

impl<'b> Head<'b> {
    /// The method, as it was sent.
    pub fn method(&self) -> &'b [u8]
        ensures { (head : RequestHead) → IsHeadOf self.now head
            → result.now ≡ head.method }
    {
        self.spans.method.of(self.bytes)
    }

    /// The target, as it was sent: UTF-8, and neither blank nor control byte in it.
    pub fn target(&self) -> &'b [u8]
        ensures { (head : RequestHead) → IsHeadOf self.now head
            → result.now ≡ head.target }
    {
        self.spans.path.of(self.bytes)
    }

    // Where the fields are.
    fn present(&self) -> &'b [HeaderSpan]
        ensures value { result.now ≡ take self.now.spans.headers self.now.fields.now }
        ensures within { All (IsHeaderWithin (length self.now.bytes.now)) result.now }
    {
        &self.fields[..self.spans.headers]
    }

    /// How many fields have this name, in any case.
    pub fn count_named(&self, name: &[u8]) -> usize
        ensures { (head : RequestHead) → IsHeadOf self.now head
            → result ≡ length (values_of name.now (fields_of head)) }
    {
        count_named(self.bytes, self.present(), name)
    }

    /// The value of the first field with this name, in any case, without the blanks around it.
    pub fn first_named(&self, name: &[u8]) -> Option<&'b [u8]>
        ensures { (head : RequestHead) → IsHeadOf self.now head
            → option_copied result ≡ first_value (values_of name.now (fields_of head)) }
    {
        first_named(self.bytes, self.present(), name)
    }

    /// Whether the request asks that the connection be closed after its reply.
    pub fn closes(&self) -> bool
        ensures { (head : RequestHead) → IsHeadOf self.now head
            → result ≡ asks head.minor (fields_of head) }
    {
        asks_to_close(self.bytes, self.present(), self.spans.version)
    }
}
