//! Laws on what streams send a registry. Each is the contract of a function that does nothing of
//! its own.
ghost use Rattle.pid_http.specs.Sending.{StreamsSend};

use pid_service_laws::RegistryCalls;

/// What a stream sends a registry that shows a history, whichever way it ends. The calls of the
/// registry's session go on by calls that sent commands of the first requests of the stream, in
/// their order, and nothing else; and the registry shows the history after these. Or it failed at
/// one of the commands after them, and what a crash may leave shows the history without that one or
/// with it.
pub fn streams_send_their_commands<R: RegistryCalls>()
    ensures { StreamsSend R.RegistryCalls }
{
    pid_service_laws::judgements_are_outcomes(); // proof only
    pid_http_stream::laws::requests_stay(); // proof only
}
