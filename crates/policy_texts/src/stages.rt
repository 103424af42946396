//! One policy text after another: the bytes of its name, and what they give.
//!
//! `load.rt` calls the four functions `take_..` in the order of work. Each reads its text whole, or nothing where no name is
//! given, and answers what the reader of that file gives, or the `LoadFault` of reading, of the limit or of the reader.
ghost use Rattle.std.specs.Prelude.{◌≡◌, ◌≤◌, List, IsTrue, Ok, Err, IfOk, IfErr, IfSome};
ghost use Rattle.kumo_outside.specs.Reading.{IsReadUpTo};
ghost use Rattle.kumo_outside.specs.declared.text_reader.TheConstants.{TEXT_LIMIT};
ghost use Rattle.policy_core.specs.Policy.{has_pool, are_entrants_sources, are_sources_named};
ghost use Rattle.policy_core.specs.Mx.{are_hosts_named};
ghost use Rattle.policy_core.specs.Limits.{unspecified};
ghost use Rattle.policy_core.specs.declared.mx.MxRow.{MxRow};
ghost use Rattle.mx_table.specs.MxText.{Joins};
ghost use Rattle.policy_texts.specs.Texts.{sources_given, queues_given, shaping_given, mx_given};
ghost use Rattle.policy_texts.specs.Policies.{HasCauseIn, counts_of};
ghost use Rattle.policy_texts.specs.inside.Stages.{told_under, Comes, no_counts, texts_counts, search_counts};

use crate::load::LoadFault;
use kumo_base::Bytes;
use kumo_outside::{ReadTextFault, Search, TEXT_LIMIT, Texts, read_text};
use mx_table::read_mx;
use policy_core::{MxTable, Queues, Shaping, Sources};
use policy_fault::Ignored;
use queues_policy::read_queues;
use shaping_policy::read_shaping;
use sources_policy::read_sources;
use std::alloc::Global;

/// What the text of that name gives as a sources file.
pub(crate) fn take_sources<T: Texts>(
    alloc: Global,
    texts: &mut T,
    name: Option<&str>,
) -> Result<(Sources, Vec<Ignored>), LoadFault>
    ensures ok { IfOk result (λ r. Comes sources_given (told_under (T.seen texts.old) name.entry)
        (Ok (record { sources = r.0; ignored = r.1.items }))) }
    ensures base { IfOk result (λ r. IsTrue (has_pool r.0 unspecified)) }
    ensures entrants { IfOk result (λ r. IsTrue (are_entrants_sources r.0)) }
    ensures source_names { IfOk result (λ r. IsTrue (are_sources_named r.0)) }
    ensures err { IfErr result (λ fault. HasCauseIn
        (λ stop. Comes sources_given (told_under (T.seen texts.old) name.entry) (Err stop))
        (texts_counts (T.seen texts.old).faults (T.seen texts.new).faults) fault) }
    ensures told { (T.seen texts.new).told ≡ (T.seen texts.old).told }
    ensures later { (T.seen texts.old).faults ≤ (T.seen texts.new).faults }
{
    let text = read_named(alloc, texts, name)?;
    sources_in(alloc, text.as_slice())
}

/// What the text of that name gives as a queues file.
pub(crate) fn take_queues<T: Texts>(
    alloc: Global,
    texts: &mut T,
    name: Option<&str>,
) -> Result<(Queues, Vec<Ignored>), LoadFault>
    ensures ok { IfOk result (λ r. Comes queues_given (told_under (T.seen texts.old) name.entry)
        (Ok (record { queues = r.0; ignored = r.1.items }))) }
    ensures err { IfErr result (λ fault. HasCauseIn
        (λ stop. Comes queues_given (told_under (T.seen texts.old) name.entry) (Err stop))
        (texts_counts (T.seen texts.old).faults (T.seen texts.new).faults) fault) }
    ensures told { (T.seen texts.new).told ≡ (T.seen texts.old).told }
    ensures later { (T.seen texts.old).faults ≤ (T.seen texts.new).faults }
{
    let text = read_named(alloc, texts, name)?;
    queues_in(alloc, text.as_slice())
}

/// What the text of that name gives as a shaping file.
pub(crate) fn take_shaping<T: Texts, S: Search>(
    alloc: Global,
    texts: &mut T,
    name: Option<&str>,
    search: &mut S,
) -> Result<(Shaping, Vec<Ignored>), LoadFault>
    ensures ok { IfOk result (λ r. Comes shaping_given (told_under (T.seen texts.old) name.entry)
        (Ok (record { shaping = r.0; ignored = r.1.items }))) }
    ensures err { IfErr result (λ fault. HasCauseIn
        (λ stop. Comes shaping_given (told_under (T.seen texts.old) name.entry) (Err stop))
        (counts_of (T.seen texts.old) (T.seen texts.new) (S.seen search.old) (S.seen search.new)) fault) }
    ensures told { (T.seen texts.new).told ≡ (T.seen texts.old).told }
    ensures later { (T.seen texts.old).faults ≤ (T.seen texts.new).faults }
    ensures searched { (S.seen search.old).faults ≤ (S.seen search.new).faults }
{
    let text = read_named(alloc, texts, name)?;
    shaping_in(alloc, text.as_slice(), search)
}

/// What the text of that name gives as an MX table.
pub(crate) fn take_mx<T: Texts>(
    alloc: Global,
    texts: &mut T,
    name: Option<&str>,
) -> Result<MxTable, LoadFault>
    ensures ok { IfOk result (λ table. (rows : List MxRow)
        × Comes mx_given (told_under (T.seen texts.old) name.entry) (Ok rows) × Joins table rows) }
    ensures hosts { IfOk result (λ table. IsTrue (are_hosts_named table)) }
    ensures err { IfErr result (λ fault. HasCauseIn
        (λ stop. Comes mx_given (told_under (T.seen texts.old) name.entry) (Err stop))
        (texts_counts (T.seen texts.old).faults (T.seen texts.new).faults) fault) }
    ensures told { (T.seen texts.new).told ≡ (T.seen texts.old).told }
    ensures later { (T.seen texts.old).faults ≤ (T.seen texts.new).faults }
{
    let text = read_named(alloc, texts, name)?;
    mx_in(alloc, text.as_slice())
}

/// The text of that name, read no further than one piece past the limit. Without a name it is empty, and nothing is read.
fn read_named<T: Texts>(
    alloc: Global,
    texts: &mut T,
    name: Option<&str>,
) -> Result<Bytes, LoadFault>
    ensures ok { IfSome (told_under (T.seen texts.old) name.entry)
        (λ text. IfOk result (λ read. IsReadUpTo TEXT_LIMIT text read)) }
    ensures err { IfErr result (λ fault. HasCauseIn (λ stop. ⊥)
        (texts_counts (T.seen texts.old).faults (T.seen texts.new).faults) fault) }
    ensures told { (T.seen texts.new).told ≡ (T.seen texts.old).told }
    ensures later { (T.seen texts.old).faults ≤ (T.seen texts.new).faults }
{
    let Some(name) = name else {
        return Ok(Bytes::new(alloc));
    };
    match read_text(alloc, texts, name, TEXT_LIMIT) {
        Ok(text) => Ok(text),
        Err(ReadTextFault::ReadFault) => Err(LoadFault::ReadFault),
        Err(ReadTextFault::Memory) => Err(LoadFault::Memory),
    }
}

/// What bytes give as a sources file, where they are not too many.
fn sources_in(alloc: Global, text: &[u8]) -> Result<(Sources, Vec<Ignored>), LoadFault>
    ensures ok { IfOk result (λ r. sources_given text.now ≡ Ok (record { sources = r.0; ignored = r.1.items })) }
    ensures base { IfOk result (λ r. IsTrue (has_pool r.0 unspecified)) }
    ensures entrants { IfOk result (λ r. IsTrue (are_entrants_sources r.0)) }
    ensures source_names { IfOk result (λ r. IsTrue (are_sources_named r.0)) }
    ensures err { IfErr result (λ fault. HasCauseIn (λ stop. sources_given text.now ≡ Err stop) no_counts fault) }
{
    if text.len() > TEXT_LIMIT {
        return Err(LoadFault::Limit);
    }
    Ok(read_sources(alloc, text)?)
}

/// What bytes give as a queues file, where they are not too many.
fn queues_in(alloc: Global, text: &[u8]) -> Result<(Queues, Vec<Ignored>), LoadFault>
    ensures ok { IfOk result (λ r. queues_given text.now ≡ Ok (record { queues = r.0; ignored = r.1.items })) }
    ensures err { IfErr result (λ fault. HasCauseIn (λ stop. queues_given text.now ≡ Err stop) no_counts fault) }
{
    if text.len() > TEXT_LIMIT {
        return Err(LoadFault::Limit);
    }
    Ok(read_queues(alloc, text)?)
}

/// What bytes give as a shaping file, where they are not too many.
fn shaping_in<S: Search>(
    alloc: Global,
    text: &[u8],
    search: &mut S,
) -> Result<(Shaping, Vec<Ignored>), LoadFault>
    ensures ok { IfOk result (λ r. shaping_given text.now ≡ Ok (record { shaping = r.0; ignored = r.1.items })) }
    ensures err { IfErr result (λ fault. HasCauseIn (λ stop. shaping_given text.now ≡ Err stop)
        (search_counts (S.seen search.old).faults (S.seen search.new).faults) fault) }
    ensures searched { (S.seen search.old).faults ≤ (S.seen search.new).faults }
{
    if text.len() > TEXT_LIMIT {
        return Err(LoadFault::Limit);
    }
    Ok(read_shaping(alloc, text, search)?)
}

/// What bytes give as an MX table, where they are not too many.
fn mx_in(alloc: Global, text: &[u8]) -> Result<MxTable, LoadFault>
    ensures ok { IfOk result (λ table. (rows : List MxRow) × (mx_given text.now ≡ Ok rows) × Joins table rows) }
    ensures hosts { IfOk result (λ table. IsTrue (are_hosts_named table)) }
    ensures err { IfErr result (λ fault. HasCauseIn (λ stop. mx_given text.now ≡ Err stop) no_counts fault) }
{
    if text.len() > TEXT_LIMIT {
        return Err(LoadFault::Limit);
    }
    Ok(read_mx(alloc, text)?)
}
