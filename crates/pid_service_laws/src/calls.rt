//! From the calls on a registry to sessions. Each law is the contract of a function that does
//! nothing of its own.
ghost use Rattle.pid_service_laws.specs.CallLaws.{CallsAreASession};

use crate::registry_calls::RegistryCalls;

/// The calls on a registry that shows a history are a session, with exactly the outcomes that
/// they answered. At its end the registry shows the history after the session, or it has failed
/// between the two that a doubt leaves.
pub fn calls_make_a_session<R: RegistryCalls>()
    ensures { CallsAreASession R.showing }
{}
