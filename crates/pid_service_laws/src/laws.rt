//! Laws over sessions. Each is the contract of a function that does nothing of its own.
ghost use Rattle.std.specs.Prelude.{◌≡◌, ℕ, Bool, true, List};
ghost use Rattle.pid_moderation.specs.declared.refusal.Refusal.{Refusal};
ghost use Rattle.pid_moderation.specs.History.{Asked, Begins, History};
ghost use Rattle.pid_moderation.specs.Judgement.{after, answer, judge};
ghost use Rattle.pid_moderation.specs.Sound.{IsSound};
ghost use Rattle.pid_moderation.specs.Views.{Views};
ghost use Rattle.pid_moderation.specs.WellMade.{AreWellMade};
ghost use Rattle.pid_service_laws.specs.Acknowledged.{HoldsSessions};
ghost use Rattle.pid_service_laws.specs.Doubts.{left_at_stop};
ghost use Rattle.pid_service_laws.specs.KeptReplies.{KeepsSessions};
ghost use Rattle.pid_service_laws.specs.SessionLaws.{
  HasKey,
  IsOutcomesAndDoubt,
  IsRefusedOver,
  EndsAlike,
  JoinsPrefixes,
  all_prefixes,
  history_left,
};
ghost use Rattle.pid_service_laws.specs.Sessions.{AreSessions, Session, prefix_of};
ghost use Rattle.pid_service_laws.specs.Outcomes.{is_outcome};

/// The history that the next opening finds is the one after the prefixes of all sessions, joined in
/// order: of each session the commands with an outcome, and the one in doubt if it was written. The
/// history keeps the mark with which it began. It has every command that was acknowledged, and no
/// command that was not sent. It has at most one of an account under a key, and every reply that
/// was answered there is that command's. If the commands are well made, the history has a tree of
/// names, and what tables ask of it.
pub fn sessions_are_prefixes()
    ensures prefix { (session : Session) → IsOutcomesAndDoubt session (prefix_of session) }
    ensures joined { (mark : ℕ) (sessions : List Session)
        → JoinsPrefixes mark sessions (history_left mark sessions) }
    ensures holds { (mark : ℕ) (sessions : List Session)
        → AreSessions (Begins mark) sessions → HoldsSessions (history_left mark sessions) sessions }
    ensures kept { (mark : ℕ) (sessions : List Session)
        → AreSessions (Begins mark) sessions → KeepsSessions (history_left mark sessions) sessions }
    ensures sound { (mark : ℕ) (sessions : List Session)
        → AreWellMade (all_prefixes sessions) → IsSound (history_left mark sessions) }
{
    pid_moderation::laws::histories_are_sound(); // proof only
    pid_moderation::laws::keys_stand_once(); // proof only
    pid_moderation::laws::marks_stay(); // proof only
}

/// A command under a key that was in doubt, and is sent again as the next one, has the outcome and
/// leaves the history that it would have had without the stop, whichever way that went.
pub fn doubts_end()
    ensures { (h : History) (c : Asked) (stands : Bool)
        → HasKey c → EndsAlike h (left_at_stop h c stands) c }
{}

/// What the judgement answers is an outcome: a reply, or a refusal by judgement.
pub fn judgements_are_outcomes()
    ensures { (v : Views) (c : Asked) → is_outcome (answer (judge v c)) ≡ true }
{}

/// A command that is refused changes nothing.
pub fn refusals_change_nothing()
    ensures { (h : History) (c : Asked) (refusal : Refusal)
        → IsRefusedOver h c refusal → after h c ≡ h }
{}
