//! Laws of how a call of the program ends. Each function does nothing: its contract is the law, and the check proves it.
ghost use Rattle.std.specs.Prelude.{ℕ, List, Option};
ghost use Rattle.kumo_outside.specs.declared.session.Session.{Session};
ghost use Rattle.history_core.specs.declared.entry.Entry.{Entry};
ghost use Rattle.command_words.specs.Commands.{Command};
ghost use Rattle.kumo_run.specs.Outside.{Outside};
ghost use Rattle.kumo_run.specs.Causes.{inputs_of};
ghost use Rattle.kumo_run.specs.Ends.{EndsCommand};
ghost use Rattle.kumo_run.specs.Good.{IsGood, IsCalm, EndsWell};

/// Good inputs, where no device failed, end with status 0, or with 11 for want of memory, unless the receiver of the one
/// message did not take it.
pub fn good_inputs_end_well()
    ensures { (c : Option Command) (b a : Outside) (code : ℕ) (history : Option (List Entry)) (sessions : List Session)
        → EndsCommand c b a code history sessions → IsGood (inputs_of c) b → IsCalm b a
        → EndsWell (inputs_of c) b code sessions }
{}
