//! Why a policy text is refused, and which of its keys have no effect.
//!
//! All readers of policy texts answer these types, and the top call prints their words. `Why` has one variant for each word,
//! in one list for all files. The types keep the place as texts of their own, so that a fault outlives the file; copying one
//! may answer `Memory`.
ghost use Rattle.std.specs.Prelude.{◌≡◌, IfOk};
ghost use Rattle.policy_fault.specs.Words.{name_of_file, name_of_why};

use kumo_base::{Memory, Text};
use std::alloc::Global;

/// The text that a fault or an ignored key is in.
#[derive(Clone, Copy, Debug, PartialEq, Eq)]
pub enum PolicyFile {
    /// Sources and pools.
    Sources,
    /// Settings of queues.
    Queues,
    /// Shaping of paths.
    Shaping,
    /// The mail exchangers of domains.
    Mx,
    /// What scripted peers say.
    Peers,
    /// Orders of an administrator.
    Orders,
}

/// Why a place of a policy text is refused. Of several at one place the first in the order of the variants is reported. That
/// order serves all files: a shaping file lists BadDuration behind BadAction, but at its `duration` no other word but BadType
/// stands.
#[derive(Clone, Copy, Debug, PartialEq, Eq, PartialOrd, Ord)]
pub enum Why {
    /// The text is no TOML document.
    NotToml,
    /// A value of another kind than the key wants, or a table where none may be.
    BadType,
    /// A name that nothing of its kind may have.
    BadName,
    /// A weight that is no whole number in its range.
    BadWeight,
    /// More of a kind than there may be.
    TooMany,
    /// A source that is named and has no table.
    UnknownSource,
    /// A text or number that is no duration.
    BadDuration,
    /// An interval of no length.
    Zero,
    /// What may stand once stands twice.
    Twice,
    /// The line is no UTF-8.
    NotText,
    /// The line is no JSON object in UTF-8.
    NotJson,
    /// A pool that is named and is not there.
    UnknownPool,
    /// A number that the option may not have.
    BadOption,
    /// A text that is no throttle.
    BadThrottle,
    /// A pattern that is none, or one too many.
    BadPattern,
    /// A trigger that is none.
    BadTrigger,
    /// An action that is none.
    BadAction,
    /// A match that is none.
    BadMatch,
    /// A domain without a host.
    NoHost,
    /// A key that has to be there is not, or has no text.
    Missing,
    /// An order of no known kind.
    BadKind,
    /// A value that the key may not have.
    BadValue,
    /// A moment before that of an earlier line.
    Unsorted,
}

/// The place of a fault of a policy text, and its word. Each of the texts is `-` where there is no table or no key.
#[derive(Drop)]
pub struct PolicyPlace {
    pub file: PolicyFile,
    pub table: Text,
    pub key: Text,
    pub why: Why,
}

/// Why a policy text gives no value.
#[derive(Drop)]
pub enum PolicyFault {
    /// The text is refused at this place.
    At(PolicyPlace),
    /// The search engine failed on a pattern of a shaping file, and counted a fault. No other reader answers it.
    Search,
    /// There was no memory.
    Memory,
}

/// A key that was accepted and has no effect. `table` is `-` at the top level.
#[derive(Drop)]
pub struct Ignored {
    pub file: PolicyFile,
    pub table: Text,
    pub key: Text,
}

impl PolicyFile {
    /// The word by which printed lines name the text.
    pub fn name(self) -> &'static str
        ensures { result.now ≡ name_of_file self }
    {
        match self {
            PolicyFile::Sources => "sources",
            PolicyFile::Queues => "queues",
            PolicyFile::Shaping => "shaping",
            PolicyFile::Mx => "mx",
            PolicyFile::Peers => "peers",
            PolicyFile::Orders => "orders",
        }
    }
}

impl Why {
    /// The word that printed lines have for it: the variant's name.
    pub fn name(self) -> &'static str
        ensures { result.now ≡ name_of_why self }
    {
        match self {
            Why::NotToml => "NotToml",
            Why::NotText => "NotText",
            Why::NotJson => "NotJson",
            Why::BadType => "BadType",
            Why::BadName => "BadName",
            Why::BadWeight => "BadWeight",
            Why::UnknownSource => "UnknownSource",
            Why::UnknownPool => "UnknownPool",
            Why::BadDuration => "BadDuration",
            Why::Zero => "Zero",
            Why::Twice => "Twice",
            Why::BadOption => "BadOption",
            Why::BadThrottle => "BadThrottle",
            Why::BadPattern => "BadPattern",
            Why::BadTrigger => "BadTrigger",
            Why::BadAction => "BadAction",
            Why::BadMatch => "BadMatch",
            Why::NoHost => "NoHost",
            Why::Missing => "Missing",
            Why::BadKind => "BadKind",
            Why::BadValue => "BadValue",
            Why::Unsorted => "Unsorted",
            Why::TooMany => "TooMany",
        }
    }
}

impl PolicyPlace {
    /// An equal place.
    pub fn copy(&self, alloc: Global) -> Result<PolicyPlace, Memory>
        ensures { IfOk result (λ copy. copy ≡ self.now) }
    {
        Ok(PolicyPlace {
            file: self.file,
            table: self.table.copy(alloc)?,
            key: self.key.copy(alloc)?,
            why: self.why,
        })
    }
}

impl From<Memory> for PolicyFault {
    ghost use Rattle.policy_fault.specs.declared.fault.PolicyFault.{PolicyFault};

    ghost from_gives = { λ _ fault. fault ≡ PolicyFault.Memory };

    fn from(_memory: Memory) -> PolicyFault {
        PolicyFault::Memory
    }
}

impl PolicyFault {
    /// An equal fault.
    pub fn copy(&self, alloc: Global) -> Result<PolicyFault, Memory>
        ensures { IfOk result (λ copy. copy ≡ self.now) }
    {
        match self {
            PolicyFault::At(place) => Ok(PolicyFault::At(place.copy(alloc)?)),
            PolicyFault::Search => Ok(PolicyFault::Search),
            PolicyFault::Memory => Ok(PolicyFault::Memory),
        }
    }
}

impl Ignored {
    /// An equal value.
    pub fn copy(&self, alloc: Global) -> Result<Ignored, Memory>
        ensures { IfOk result (λ copy. copy ≡ self.now) }
    {
        Ok(Ignored {
            file: self.file,
            table: self.table.copy(alloc)?,
            key: self.key.copy(alloc)?,
        })
    }
}
