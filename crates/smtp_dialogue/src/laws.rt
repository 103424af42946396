//! Laws of the dialogue, each the contract of a function that does nothing.
ghost use Rattle.std.specs.Prelude.{ℕ, List};
ghost use Rattle.smtp_dialogue.specs.Transcript.{greeting, attempted};
ghost use Rattle.smtp_dialogue.specs.Speaks.{IsStable};

/// A greeting that left the link alive stays as it was when more bytes come.
#[tactic(auto, using(crate::proofs::Stability::greeting_stable))]
pub fn greeting_stays()
    ensures { (ehlo : List ℕ) → IsStable (greeting ehlo) }
{}

/// An attempt that left the link alive stays as it was when more bytes come.
#[tactic(auto, using(crate::proofs::Stability::attempted_stable))]
pub fn attempt_stays()
    ensures { (sender recipient body : List ℕ) → IsStable (attempted sender recipient body) }
{}
