//! A conversation answers the lines of a scenario as a run does.

ghost use Rattle.std.specs.Prelude.{ℕ, List, map};
ghost use Rattle.mp_signatures.specs.declared.scheme.Scheme.{Scheme};
ghost use Rattle.mp_session.specs.Scene.{empty_scene};
ghost use Rattle.mp_serve.specs.Talk.{new_conversation};
ghost use Rattle.mp_serve.specs.PlainRun.{or_ok, IsPlainRun, Answers};

/// If a run does some lines, and none of them is bad, a conversation answers each with what the run writes for it, or with `ok` if
/// that is nothing. The pool may make a further change and there may be a further name throughout, and each submit names its
/// transaction as the answers do. The
/// conversation has the salt of scenarios, and no allocation fails.
pub fn answers_as_a_run()
    ensures { (scheme : Scheme) (most : ℕ) (lines texts : List (List ℕ))
        → IsPlainRun most (empty_scene scheme) lines texts
        → Answers (new_conversation scheme 0 most) lines (map or_ok texts) }
{}
