//! The service as what answers the requests of a stream.
ghost use Rattle.std.specs.Prelude.{◌≡◌};

use crate::api::{Format, Request, Routes, question_of, sender_of};
use crate::dispatch::{answer, sender_for};
use crate::importing::import;
use pid_http_stream::{BodyStop, Handler, Head, HttpReply, NoReply, Wanted};
use pid_ident::{Input, Output};
use pid_service_laws::{ExportFault, RegistryQueries};
use std::alloc::Global;

/// A registry and the routes, lent for a stream of requests.
#[derive(Drop)]
pub(crate) struct Service<'r, 't, R: RegistryQueries> {
    pub(crate) alloc: Global,
    pub(crate) registry: &'r mut R,
    pub(crate) routes: &'t Routes,
}

impl<R: RegistryQueries> Handler for Service<'_, '_, R> {
    ghost use Rattle.std.specs.Prelude.{◌≡◌, refl};
    ghost use Rattle.pid_http.specs.Steps.Handling.{WritesText, exports_text, same_on};
    ghost use Rattle.pid_http.specs.Known.{IsSessionState, LivesOn, SessionState};
    ghost use Rattle.pid_http.specs.Steps.Going.{lives_further, lives_still};
    ghost use Rattle.pid_http.specs.Serving.{serving};
    ghost use Rattle.pid_http.specs.Api.Questions.{question};

    type Question = Request;

    /// The format of the reply to an import.
    type Upload = Format;

    ghost View = { SessionState R.RegistryCalls };

    ghost stands = { λ a t. IsSessionState R.RegistryCalls a.registry.now t };

    ghost is_good = { λ a. R.RegistryCalls.showing.is_clean a.registry.now };

    ghost becomes = { λ a b. (b.registry.ghost_name ≡ a.registry.ghost_name)
        × LivesOn R.RegistryCalls a.registry.now b.registry.now };

    ghost conduct = { serving R.RegistryCalls };

    ghost writes = { WritesText R.RegistryCalls };

    ghost kept = { exports_text };

    ghost stays = { λ a. (refl, lives_still a.registry.now) };

    ghost joins = { λ a b c p q. (
      same_on a.registry.ghost_name b.registry.ghost_name c.registry.ghost_name p.0 q.0,
      lives_further a.registry.now b.registry.now c.registry.now p.1 q.1,
    ) };

    ghost means = { λ wanted head. wanted ≡ question head.method head.target };

    fn question(&self, head: &Head<'_>) -> Result<Wanted<Request, Format>, NoReply> {
        match question_of(self.alloc, self.routes, head.method(), head.target()) {
            Ok(wanted) => Ok(wanted),
            Err(_) => Err(NoReply),
        }
    }

    fn answer(
        &mut self,
        request: Request,
        head: &Head<'_>,
        body: &[u8],
    ) -> Result<HttpReply, NoReply> {
        let sender = sender_for(&request, head);
        match answer(self.alloc, self.registry, &request, sender, body) {
            Ok(reply) => Ok(reply),
            Err(_) => Err(NoReply),
        }
    }

    fn answer_streamed<B: Input>(
        &mut self,
        format: Format,
        head: &Head<'_>,
        body: &mut B,
    ) -> Result<HttpReply, NoReply> {
        import(self.alloc, self.registry, format, sender_of(head), body)
    }

    fn write_body<W: Output>(&mut self, out: &mut W) -> Result<(), BodyStop> {
        match self.registry.export(out) {
            Ok(()) => Ok(()),
            Err(ExportFault::Write(_)) => Err(BodyStop::Writer),
            Err(ExportFault::Refused(_)) => Err(BodyStop::Store),
        }
    }
}
