//! Tasks that are run at one time, and tasks that own what they need.
use crate::tests::comparisons::same;
use crate::tests::holds::hold;
use history::Refusal;
use std::alloc::{AllocError, Global};
use std::sync::Arc;
use std::sync::atomic::AtomicU64;
use std::sync::atomic::Ordering::SeqCst;
use std::test::Fail;
use tasks::{Task, run_all};

/// A task that waits until two have begun.
#[derive(Drop)]
struct Meeting {
    begun: Arc<AtomicU64, Global>,
}

/// The other task didn't begin.
#[derive(Clone, Copy, Debug, PartialEq, Eq)]
struct Alone;

impl Task for Meeting {
    type Output = ();

    type Error = Alone;

    ghost answers = { λ _ _. Unit {0} };

    fn run(self) -> Result<(), Alone> {
        let Meeting { begun } = self;
        begun.fetch_add(1, SeqCst);
        if hold(&*begun, 2) { Ok(()) } else { Err(Alone) }
    }
}

/// Two workers run tasks at one time: each of two tasks waits until the other one has begun.
#[test]
fn workers_run_at_one_time(rt: HostRuntime) -> Result<(), Fail> {
    let begun = Arc::new(rt.alloc(), AtomicU64::new(0))?;
    let mut tasks = Vec::new(rt.alloc());
    for _ in 0..2 {
        let begun = Arc::try_clone(&begun)?;
        tasks.push(Meeting { begun })?;
    }
    let Ok(answers) = run_all(&rt, rt.alloc(), tasks, Some(2)) else {
        return Err(Fail::from(Refusal::Memory));
    };
    let met = answers.iter().filter(|answer| answer.is_ok()).count();
    same(&rt, met, 2, "two meet");
    Ok(())
}

/// A task that owns a text, and answers it with a mark behind.
#[derive(Drop)]
struct Marking {
    text: String,
}

impl Task for Marking {
    type Output = String;

    type Error = AllocError;

    ghost answers = { λ _ _. Unit {0} };

    fn run(self) -> Result<String, AllocError> {
        let Marking { mut text } = self;
        text.push('!')?;
        Ok(text)
    }
}

/// A task may own what it needs, and its answer may be what it owned.
#[test]
fn tasks_own_what_they_need(rt: HostRuntime) -> Result<(), Fail> {
    let mut tasks = Vec::new(rt.alloc());
    for number in 0..100u64 {
        let text = format!(in rt.alloc(); "{number}")?;
        tasks.push(Marking { text })?;
    }
    let Ok(answers) = run_all(&rt, rt.alloc(), tasks, Some(3)) else {
        return Err(Fail::from(Refusal::Memory));
    };
    let mut number = 0u64;
    for answer in answers {
        let wanted = format!(in rt.alloc(); "{number}!")?;
        same(&rt, answer?, wanted, number);
        number += 1;
    }
    same(&rt, number, 100, "all texts");
    Ok(())
}
