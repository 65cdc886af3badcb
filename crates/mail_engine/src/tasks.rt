//! The letters of each sender.
ghost use Rattle.std.specs.Prelude.{◌≡◌, ◌+◌, ◌<◌, [], length, map, string_bytes, OnOk, IfOk, IfErr};
ghost use Rattle.std.specs.List.{All};
ghost use Rattle.text_io.specs.Numerals.{IsWithin};
ghost use Rattle.mailbox.specs.Posts.{letters_of};
ghost use Rattle.mail_engine.specs.Shares.{HaveTexts, AddsText};

use crate::letters::Outgoing;
use history::{Fifo, Refusal};
use mailbox::{Sender, Task};
use std::alloc::Global;

/// A task for each sender, with the texts of its letters, in their order. Senders are numbered from 1 on.
///
/// Refused by `Memory` alone. Takes memory for the lists of texts, and doesn't wait.
pub(crate) fn tasks_of<Q: Fifo + Drop>(
    alloc: Global,
    senders: Vec<Sender<Q>>,
    letters: Vec<Outgoing>,
) -> Result<Vec<Task<Q>>, Refusal>
    requires { All (λ l. IsWithin 1 (length senders.items) l.from) letters.items }
    ensures senders { IfOk result (λ tasks. map (λ t. t.sender) tasks.items ≡ senders.items) }
    ensures texts { IfOk result (λ tasks. HaveTexts tasks.items letters.items) }
    ensures all { IfOk result (λ tasks. letters_of tasks.items ≡ length letters.items) }
    ensures only_memory { IfErr result (λ refusal. refusal ≡ Refusal.Memory) }
{
    let mut tasks = idle_tasks(alloc, senders)?;
    for letter in letters {
        let place = usize::from(letter.from) - 1;
        add_text(&mut tasks, place, letter.text)?;
    }
    Ok(tasks)
}

// A task for each sender, with no texts.
fn idle_tasks<Q: Fifo + Drop>(
    alloc: Global,
    senders: Vec<Sender<Q>>,
) -> Result<Vec<Task<Q>>, Refusal>
    ensures senders { IfOk result (λ tasks. map (λ t. t.sender) tasks.items ≡ senders.items) }
    ensures none { IfOk result (λ tasks. All (λ t. t.texts.items ≡ []) tasks.items) }
    ensures few { IfOk result (λ tasks. letters_of tasks.items ≡ 0) }
    ensures only_memory { IfErr result (λ refusal. refusal ≡ Refusal.Memory) }
{
    let mut tasks = Vec::new(alloc);
    for sender in senders {
        let texts = Vec::new(alloc);
        let Ok(()) = tasks.push(Task { sender, texts }) else {
            return Err(Refusal::Memory);
        };
    }
    Ok(tasks)
}

// Adds a text at the end of the texts of the task at a place.
fn add_text<Q: Fifo + Drop>(
    tasks: &mut Vec<Task<Q>>,
    place: usize,
    text: String,
) -> Result<(), Refusal>
    requires { place < length tasks.old.items }
    ensures senders { map (λ t. t.sender) tasks.new.items ≡ map (λ t. t.sender) tasks.old.items }
    ensures text { OnOk result (AddsText tasks.old.items place (string_bytes text) tasks.new.items) }
    ensures one { OnOk result (letters_of tasks.new.items ≡ letters_of tasks.old.items + 1) }
    ensures only_memory { IfErr result (λ refusal. refusal ≡ Refusal.Memory) }
{
    let Ok(()) = tasks[place].texts.push(text) else {
        return Err(Refusal::Memory);
    };
    Ok(())
}
