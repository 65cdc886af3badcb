//! What is told of an option that other commands take.
use std::rt::Runtime;
use text_io::split_once;

/// The commands.
const COMMANDS: [&str; 8] = [
    "run", "trace", "show", "check", "place", "work", "post", "explain",
];

/// The options that not each command takes, with those that do.
const OPTIONS: [(&str, &[&str]); 15] = [
    ("--expand", &["run"]),
    ("--width", &["show"]),
    ("--from", &["show"]),
    ("--to", &["show"]),
    ("--actor", &["show"]),
    ("--history", &["show"]),
    ("--html", &["show"]),
    ("--lines", &["show"]),
    ("--color", &["show"]),
    ("--why", &["place", "show"]),
    ("--room", &["place"]),
    ("--holds", &["place"]),
    ("--workers", &["work"]),
    ("--nodes", &["work"]),
    ("--queue", &["work", "post"]),
];

/// Tells on standard error which commands take an option that the one named first doesn't.
pub(crate) fn tell_takers<R: Runtime>(rt: &R, words: &[String]) {
    let Some((first, others)) = words.split_first() else {
        return;
    };
    let command = first.as_str();
    if !COMMANDS.contains(&command) {
        return;
    }
    for word in others {
        if word.as_str() == "--" {
            return;
        }
        let name = match split_once(word.as_bytes(), b'=') {
            Some((name, _)) => name,
            None => word.as_bytes(),
        };
        for (option, takers) in &OPTIONS {
            if option.as_bytes() == name && !takers.contains(&command) {
                for taker in *takers {
                    // Where standard error fails too, the status alone tells of the refusal.
                    let _ = eprint!(rt; "tip: 'msq {taker}' takes '{option}'\n");
                }
                return;
            }
        }
    }
}
