//! What is answered of the text of a history, as a text.
use history::Stamped;
use history_text::{parse_history, print_history};
use placing::{Held, Placed, Reason, place};
use std::alloc::{AllocError, Global};
use std::test::Fail;
use text_io::Script;

/// The history with points, or a line that tells the reason, or that there is neither, by a search of so much room.
pub fn answer(alloc: Global, text: &[u8], room: u64) -> Result<String, Fail> {
    let history = parse_history(alloc, text)?;
    match place(alloc, &history, room)? {
        Placed::History(new) => printed(alloc, &new),
        Placed::Impossible(reason) => Ok(told(alloc, &reason)?),
        Placed::Open(cause) => Ok(format!(in alloc; "open {cause:?}")?),
    }
}

fn printed(alloc: Global, history: &[Stamped]) -> Result<String, Fail> {
    let mut writer = Script::writer(alloc, 1000, 1000)?;
    print_history(history, &mut writer)?;
    let text = std::str::from_utf8(writer.written()).ok().ok_or("no text")?;
    Ok(String::from_str(alloc, text)?)
}

fn told(alloc: Global, reason: &Reason) -> Result<String, AllocError> {
    let mut line = String::new(alloc);
    match reason {
        Reason::Shape { place } => write!(line, "no {place} Shape")?,
        Reason::Span { place } => write!(line, "no {place} Span")?,
        Reason::Reply { place } => write!(line, "no {place} Reply")?,
        Reason::Sooner { place, others } => {
            write!(line, "no {place} Sooner")?;
            push_places(&mut line, others)?;
        }
        Reason::Order { place, push, held } => {
            write!(line, "no {place} Order {push}")?;
            push_held(&mut line, held)?;
        }
        Reason::Full { place, spans } => {
            write!(line, "no {place} Full")?;
            for span in spans {
                push_held(&mut line, &span.held)?;
            }
        }
        Reason::Late { place, other } => write!(line, "no {place} Late {other}")?,
        Reason::Twice { place, other } => write!(line, "no {place} Twice {other}")?,
        Reason::Unshut { place } => write!(line, "no {place} Unshut")?,
        Reason::Stuck { place, others } => {
            write!(line, "no {place} Stuck")?;
            push_places(&mut line, others)?;
        }
        Reason::Undrained { place, held } => {
            write!(line, "no {place} Undrained")?;
            push_held(&mut line, held)?;
        }
    }
    Ok(line)
}

fn push_held(line: &mut String, held: &Held) -> Result<(), AllocError> {
    match held {
        Held::Value { push, .. } => write!(line, " {push}")?,
        Held::Left(places) => push_places(line, places)?,
    }
    Ok(())
}

fn push_places(line: &mut String, places: &[u64]) -> Result<(), AllocError> {
    for place in places {
        write!(line, " {place}")?;
    }
    Ok(())
}
