//! What serves the streams of connections.
ghost use Rattle.std.specs.Prelude.{◌≡◌, true, ◌+◌, ◌≤◌};
ghost use Rattle.pid_file.specs.Writing.{use_of};
ghost use Rattle.pid_http_stream.specs.Listener.Streams.{IsGivenMore, exchange, use_of_reader};

use crate::Served;
use pid_ident::{Incoming, Output};

/// What serves the streams of connections, one after another.
pub trait StreamServer {
    ghost use Rattle.std.specs.Prelude.{Bool, ℕ, Option, None};
    ghost use Rattle.pid_http_stream.specs.Listener.Streams.{Exchange};

    /// Whether it can go on with another stream.
    ghost live: { Self → Bool };

    /// What the serving of streams, however many, may make of it: before it and after.
    ghost goes: { Self → Self → Type 0 };

    /// What serving one stream is: the server before it and after, and what became of the stream's
    /// reader and writer. It holds of each stream, whatever reader and writer these are; so what it
    /// says of bytes binds the server at sockets too, of which none are known.
    ghost answers: { Self → Self → Exchange → Type 0 };

    /// How many streams it was given, if it counts them: exact below the greatest count.
    ghost given: { Self → Option ℕ } = { λ _. None };

    fn is_live(&self) -> bool
        ensures { result ≡ live self.now };

    /// Serves the stream of one connection, in at most so many reads. The reader may keep account
    /// of what the writer had taken whenever it was read.
    fn serve<I: Incoming<O>, O: Output>(
        &mut self,
        input: &mut I,
        output: &mut O,
        turns: u64,
    ) -> Served
        requires { live self.old ≡ true }
        ensures goes { goes self.old self.new }
        ensures answers { answers self.old self.new
            (exchange (use_of_reader I.Incoming input.old input.new)
            (use_of O.Output output.old output.new) turns result) }
        ensures counted { IsGivenMore 1 (given self.old) (given self.new) }
        ensures reads { I.reads input.new ≤ I.reads input.old + turns };

    /// No stream leaves it as it is.
    ghost stays: { (a : Self) → goes a a };

    /// Some streams and then others are streams.
    ghost joins: { (a b c : Self) → goes a b → goes b c → goes a c };
}
