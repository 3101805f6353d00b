//! A law of scripts: the contract of a function that does nothing.
ghost use Rattle.std.specs.Prelude.{ℕ, List};
ghost use Rattle.pid_moderation.specs.History.{History};
ghost use Rattle.pid_script.specs.Replies.{line_reply};
ghost use Rattle.pid_script.specs.ScriptLines.{ask_of};
ghost use Rattle.pid_script.specs.StopLines.{IsStopLine};

/// No reply over a history is a stop line, whatever the line asks.
pub fn replies_are_no_stop_lines()
    ensures { (line : List ℕ) (h : History) → IsStopLine (line_reply (ask_of line) h) → ⊥ }
{}
