//! The promotions of a history, and the paths that messages were promoted to.
ghost use Rattle.std.specs.Prelude.{◌≡◌, ◌++◌, ◌∷◌, [], List, IfOk, OnOk, OnErr, Some, option_map, option_to_list, find, bytes_eq};
ghost use Rattle.std.specs.List.{list_any};
ghost use Rattle.policy_core.specs.Policy.{Policy as policy};
ghost use Rattle.history_core.specs.declared.entry.Entry.{Entry as entry};
ghost use Rattle.history_core.specs.History.{path_for, text_of, promoted_at, path_named, is_same_path};
ghost use Rattle.history_automation.specs.Known.{known_path, known_of, with_known, IsKnown};

use history_core::{Entry, Event, Path, Promoted};
use history_views::messages::message_with;
use kumo_base::{Memory, Text};
use policy_core::{PathBase, Policy};
use queue_name::Message;
use shaping_merge::{path_base, site};
use std::alloc::Global;
use std::marker::Model;

/// A path that a message was promoted to.
#[derive(Drop)]
pub struct KnownPath {
    pub path: Path,
    /// The text by which it is printed and named.
    pub text: Text,
    /// What its tables come to.
    pub base: PathBase,
}

/// The promotions of a history and its paths, each in the order in which they came.
#[derive(Drop)]
pub struct Known {
    pub promotions: Vec<Promoted>,
    pub paths: Vec<KnownPath>,
}

impl Model for Known {
    ghost use Rattle.history_automation.specs.Known.{Known};

    ghost Value = { Known };

    ghost view = { λ k. record { promotions = k.promotions.items; paths = k.paths.items } };
}

/// The path of a message from a source.
pub fn path_for(
    alloc: Global,
    policy: &Policy,
    message: &Message,
    source: &str,
) -> Result<Path, Memory>
    ensures { IfOk result (λ path. path ≡ path_for policy.now message.now source.now) }
{
    Ok(Path {
        source: Text::of(alloc, source)?,
        site: site(alloc, policy, message.name.domain.as_str())?,
    })
}

/// The text by which a path is printed and named.
pub fn text_of(alloc: Global, path: &Path) -> Result<Text, Memory>
    ensures { IfOk result (λ text. text ≡ text_of path.now) }
{
    let mut text = path.source.copy(alloc)?;
    text.push_str("->")?;
    text.push_str(path.site.name.as_str())?;
    Ok(text)
}

/// What an entry promotes, after those before it.
pub fn promoted_by(
    alloc: Global,
    policy: &Policy,
    before: &[Entry],
    entry: &Entry,
) -> Result<Option<Promoted>, Memory>
    ensures { IfOk result (λ promoted. option_to_list promoted ≡ promoted_at policy.now before.now entry.now) }
{
    let Event::Promoted { id, source } = &entry.what else {
        return Ok(None);
    };
    let Some(message) = message_with(before, *id) else {
        return Ok(None);
    };
    Ok(Some(Promoted {
        place: before.len() as u64,
        id: *id,
        path: path_for(alloc, policy, message, source.as_str())?,
    }))
}

/// A path with its text and what its tables come to.
pub fn known_path(alloc: Global, policy: &Policy, path: &Path) -> Result<KnownPath, Memory>
    ensures { IfOk result (λ known. known ≡ known_path policy.now path.now) }
{
    Ok(KnownPath {
        path: path.copy(alloc)?,
        text: text_of(alloc, path)?,
        base: path_base(alloc, policy, &path.site, path.source.as_str())?,
    })
}

/// Whether a path is among these.
fn is_among(known: &[KnownPath], path: &Path) -> bool
    ensures { result ≡ list_any (λ k. is_same_path path.now k.path) known.now }
{
    known.iter().any(|other| path.is_same(&other.path))
}

impl Known {
    /// What is known of no history yet.
    pub fn new(alloc: Global) -> Known
        ensures { (p : policy) → IsKnown p [] result }
    {
        Known {
            promotions: Vec::new(alloc),
            paths: Vec::new(alloc),
        }
    }

    /// The promotions, in the order in which they came.
    pub fn promotions(&self) -> &[Promoted]
        ensures { result.now ≡ self.now.promotions }
    {
        self.promotions.as_slice()
    }

    /// The paths, in the order in which they came.
    pub fn paths(&self) -> &[KnownPath]
        ensures { result.now ≡ self.now.paths }
    {
        self.paths.as_slice()
    }

    /// What is known of a history.
    pub fn of(alloc: Global, policy: &Policy, entries: &[Entry]) -> Result<Known, Memory>
        ensures { IfOk result (λ known. IsKnown policy.now entries.now known) }
    {
        let mut known = Known::new(alloc);
        for place in 0..entries.len() {
            known.add(alloc, policy, &entries[..place], &entries[place])?;
        }
        Ok(known)
    }

    /// Adds what an entry promotes. `before` are the entries so far. After `Memory` all is as it was.
    pub fn add(
        &mut self,
        alloc: Global,
        policy: &Policy,
        before: &[Entry],
        entry: &Entry,
    ) -> Result<(), Memory>
        requires { IsKnown policy.now before.now self.old }
        ensures ok { OnOk result (IsKnown policy.now (before.now ++ entry.now ∷ []) self.new) }
        ensures err { OnErr result (self.new ≡ self.old) }
    {
        match promoted_by(alloc, policy, before, entry)? {
            Some(promoted) => {
                self.add_promoted(alloc, policy, promoted)?;
                Ok(())
            }
            None => Ok(()),
        }
    }

    /// Adds a promotion, and its path where it is not there yet.
    fn add_promoted(
        &mut self,
        alloc: Global,
        policy: &Policy,
        promoted: Promoted,
    ) -> Result<(), Memory>
        ensures promotions { OnOk result (self.new.promotions ≡ self.old.promotions ++ promoted ∷ []) }
        ensures paths { OnOk result (self.new.paths ≡ with_known policy.now self.old.paths promoted.path) }
        ensures err { OnErr result (self.new ≡ self.old) }
    {
        match fresh_path(alloc, policy, &self.paths, &promoted.path)? {
            Some(path) => self.put_both(promoted, path),
            None => {
                self.promotions.push(promoted)?;
                Ok(())
            }
        }
    }

    /// Adds a promotion and a path.
    fn put_both(&mut self, promoted: Promoted, path: KnownPath) -> Result<(), Memory>
        ensures promotions { OnOk result (self.new.promotions ≡ self.old.promotions ++ promoted ∷ []) }
        ensures paths { OnOk result (self.new.paths ≡ self.old.paths ++ path ∷ []) }
        ensures err { OnErr result (self.new ≡ self.old) }
    {
        let count = self.promotions.len();
        self.promotions.push(promoted)?;
        if let Err(memory) = self.paths.push(path) {
            self.promotions.truncate(count);
            return Err(memory.into());
        }
        Ok(())
    }
}

/// What is known of a path that is not among these.
fn fresh_path(
    alloc: Global,
    policy: &Policy,
    known: &[KnownPath],
    path: &Path,
) -> Result<Option<KnownPath>, Memory>
    ensures { IfOk result (λ fresh. with_known policy.now known.now path.now ≡ known.now ++ option_to_list fresh) }
{
    if is_among(known, path) {
        return Ok(None);
    }
    Ok(Some(known_path(alloc, policy, path)?))
}

/// The first path of a text.
fn named<'k>(paths: &'k [KnownPath], text: &str) -> Option<&'k KnownPath>
    ensures { option_map (λ k. k.now) result ≡ find (λ k. bytes_eq k.text text.now) paths.now }
{
    paths.iter().find(|other| other.text.is_same(text))
}

/// The known path of a text.
pub fn known_path_named<'k>(known: &'k Known, text: &str) -> Option<&'k KnownPath>
    ensures { (p : policy) (h : List entry) → IsKnown p h known.now
        → option_map (λ k. k.now) result ≡ option_map (known_path p) (path_named p h text.now) }
{
    named(&known.paths, text)
}

/// The first path that is the same.
fn same<'k>(paths: &'k [KnownPath], path: &Path) -> Option<&'k KnownPath>
    ensures { option_map (λ k. k.now) result ≡ find (λ k. is_same_path path.now k.path) paths.now }
{
    paths.iter().find(|other| path.is_same(&other.path))
}

/// What is known of a path, where messages were promoted to it.
pub fn known_path_of<'k>(known: &'k Known, path: &Path) -> Option<&'k KnownPath>
    ensures { (p : policy) (h : List entry) → IsKnown p h known.now → option_map (λ k. k.now) result ≡ known_of p h path.now }
{
    same(&known.paths, path)
}

/// The path of a text, after these entries.
pub fn path_named(
    alloc: Global,
    policy: &Policy,
    before: &[Entry],
    text: &str,
) -> Result<Option<Path>, Memory>
    ensures { IfOk result (λ path. path ≡ path_named policy.now before.now text.now) }
{
    let known = Known::of(alloc, policy, before)?;
    match known_path_named(&known, text) {
        Some(found) => Ok(Some(found.path.copy(alloc)?)),
        None => Ok(None),
    }
}
