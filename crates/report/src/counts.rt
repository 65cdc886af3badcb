//! How many operations there are of each kind.
ghost use Rattle.std.specs.Prelude.{◌≡◌, map, IfOk, IfErr};
ghost use Rattle.report.specs.Kinds.{kind_of, same_kind};
ghost use Rattle.report.specs.Counts.{counts};

use crate::kinds::{Kind, kind_of_reply};
use history::{Refusal, Stamped};
use indexmap::IndexMap;
use std::alloc::Global;

// How many operations there are of each kind, in the order in which each kind first occurs.
pub(crate) fn counts_of(alloc: Global, history: &[Stamped]) -> Result<IndexMap<Kind, u64>, Refusal>
    ensures ok { IfOk result (λ found.
        found.entries ≡ counts same_kind (map (λ o. kind_of o.reply) history.now)) }
    ensures only_memory { IfErr result (λ refusal. refusal ≡ Refusal.Memory) }
{
    let mut counts = IndexMap::new(alloc);
    for operation in history {
        let kind = kind_of_reply(operation.reply);
        let number = counts.get(&kind).copied().unwrap_or(0);
        let Ok(_) = counts.insert(kind, number + 1) else {
            return Err(Refusal::Memory);
        };
    }
    Ok(counts)
}
