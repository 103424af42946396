//! Laws of paths. Each function does nothing: its contract is the law, and the check proves it.
//!
//! They are for callers that know the calls made on a path: what the calls allow, its state allows.
ghost use Rattle.std.specs.Prelude.{◌≡◌, ℕ, List, true};
ghost use Rattle.policy_core.specs.declared.options.InForce.{InForce};
ghost use Rattle.path_lease.specs.declared.leave.Leave.TheVariants.{Yes};
ghost use Rattle.path_lease.specs.Calls.{Call, is_idle, is_working};
ghost use Rattle.path_lease.specs.Leaves.{Rates, AgreesOn, may_open, leave};
ghost use Rattle.path_lease.specs.State.{PathState};
ghost use Rattle.path_lease.specs.Standing.{StandsFor};
ghost use Rattle.path_lease.specs.Allowed.{MayOpen, MayBegin, IsIdle, IsBusy};

/// Where the calls allow an opening, `Path::open` may be called.
pub fn calls_allow_an_opening()
    ensures { (p : PathState) (rates : Rates) (calls : List Call) (t : ℕ) (now : InForce) → StandsFor p rates calls
        → AgreesOn rates now → may_open calls t now ≡ true → MayOpen p t now }
{}

/// Where they allow a beginning on a connection that is open and not busy, `Path::begin` may be called.
pub fn calls_allow_a_beginning()
    ensures { (p : PathState) (rates : Rates) (calls : List Call) (t : ℕ) (conn : ℕ) (now : InForce) → StandsFor p rates calls
        → AgreesOn rates now → is_idle calls conn ≡ true → leave calls t conn now ≡ Yes → MayBegin p t conn now }
{}

/// A connection is open and not busy, or open and busy, as the calls say.
pub fn calls_say_what_is_idle()
    ensures idle { (p : PathState) (rates : Rates) (calls : List Call) (conn : ℕ) → StandsFor p rates calls
        → is_idle calls conn ≡ true → IsIdle p conn }
    ensures busy { (p : PathState) (rates : Rates) (calls : List Call) (conn : ℕ) → StandsFor p rates calls
        → is_working calls conn ≡ true → IsBusy p conn }
{}
