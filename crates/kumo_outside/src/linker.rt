//! What opens connections.
ghost use Rattle.std.specs.Prelude.{◌≡◌, IfOk, OnErr};
ghost use Rattle.kumo_base.specs.Causes.{HasCause};
ghost use Rattle.kumo_outside.specs.Sessions.{LinkerSeen, Opens, GivesBack, IsOpenAt};

use crate::link::Link;
use kumo_base::Failed;

/// Opens links to hosts, and may tell what went over each.
pub trait Linker {
    type Link: Link;

    /// The sessions of the links opened so far, in the order of opening, where they are told, and the faults counted so
    /// far. The session of a link that is out is as it was opened. The count never falls.
    ghost seen: { Self → LinkerSeen };

    /// Opens a link to a host from a source. An open that fails leaves no session, and the count of
    /// faults has risen.
    fn open(&mut self, host: &str, source: &str) -> Result<Self::Link, Failed>
        ensures opened { IfOk result (λ link.
            Opens (seen self.old).sessions (seen self.new).sessions host.now source.now (Self.Link.seen link)) }
        ensures failed { OnErr result ((seen self.new).sessions ≡ (seen self.old).sessions) }
        ensures cause { HasCause (seen self.old).faults (seen self.new).faults result };

    /// Takes a link back that an `open` of this linker gave, and tells its session from then on.
    fn done(&mut self, link: Self::Link)
        requires { IsOpenAt (seen self.old).sessions (Self.Link.seen link).opening }
        ensures session { GivesBack (seen self.old).sessions (seen self.new).sessions (Self.Link.seen link) }
        ensures faults { (seen self.new).faults ≡ (seen self.old).faults };
}
