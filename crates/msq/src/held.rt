//! What a queue holds at the start, by the list that the words give.
use crate::options::place_by;
use command_line::{Command, Placing};
use engine_faults::{Ending, Fault};
use history::Refusal;
use place_engine::Told;
use placing::Placed;
use recording_text::texts_in;
use std::alloc::{AllocError, Global};
use std::rt::Runtime;
use text_io::{Sink, Source};

/// The list that a command gives, where it isn't one of texts that a queue can hold.
pub(crate) fn faulty_list(alloc: Global, command: &Command) -> Result<Option<&str>, AllocError> {
    let Some(list) = &command.held else {
        return Ok(None);
    };
    Ok(match texts_in(alloc, list.as_bytes())? {
        Some(_) => None,
        None => Some(list.as_str()),
    })
}

/// How a command ended, and two lines of its file that say operations of one thread which overlap, where `place` found such.
#[derive(Clone, Copy)]
pub(crate) struct Done {
    pub(crate) ending: Ending,
    pub(crate) overlap: Option<(u64, u64)>,
}

impl Done {
    /// How a command ended that warns of nothing.
    pub(crate) fn quietly(ending: Ending) -> Done {
        Done {
            ending,
            overlap: None,
        }
    }

    /// How `place` ended that told this.
    fn of(told: &Told) -> Done {
        let ending = match &told.found {
            Placed::History(_) => Ending::Well,
            Placed::Impossible(_) => Ending::No,
            Placed::Open(_) => Ending::Open,
        };
        Done {
            ending,
            overlap: told.overlap,
        }
    }
}

/// Places what a source gives, of a queue that holds what the command says.
pub(crate) fn placed<S: Source, W: Sink>(
    alloc: Global,
    command: &Command,
    options: Placing,
    reader: &mut S,
    writer: &mut W,
) -> Result<Done, Fault> {
    let Some(list) = &command.held else {
        return Ok(Done::of(&place_by(alloc, options, None, reader, writer)?));
    };
    match texts_in(alloc, list.as_bytes()) {
        Ok(Some(held)) => Ok(Done::of(&place_by(alloc, options, Some(&held), reader, writer)?)),
        // `run_program` has refused another list.
        Ok(None) => Ok(Done::quietly(Ending::Well)),
        Err(_) => Err(Fault::from(Refusal::Memory)),
    }
}

/// Warns on standard error of a thread whose operations overlap.
pub(crate) fn warn<R: Runtime>(rt: &R, lines: (u64, u64)) {
    let (one, other) = lines;
    // Where standard error fails, what is found is told all the same.
    let _ = eprint!(rt;
        "warning lines {one} and {other}: one thread is in two calls at one time\n"
    );
}
