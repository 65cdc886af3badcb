//! What no clause says: that texts of mail are read where memory is there, and the faults of known texts.
use crate::tests::comparisons::same;
use history::{Refusal, TextCause};
use mail_engine::{Outgoing, parse_mail};
use std::alloc::Global;
use std::test::Fail;

const THREE: &[u8] = b"mail 2 3
1 hello
2 hi
1 again
";

const SPACES: &[u8] = b"mail 64 2
64\x20
7  a ~ \n";

fn refusal_of(alloc: Global, text: &[u8]) -> Option<Refusal> {
    parse_mail(alloc, text).err()
}

fn is(letter: Option<&Outgoing>, from: u16, text: &str) -> bool {
    letter.is_some_and(|it| it.from == from && it.text.as_str() == text)
}

#[test]
fn reads_letters_in_the_order_of_the_lines(rt: HostRuntime) -> Result<(), Fail> {
    let three = parse_mail(rt.alloc(), THREE)?;
    let spaces = parse_mail(rt.alloc(), SPACES)?;
    let none = parse_mail(rt.alloc(), b"mail 1 0\n")?;
    let right = is(three.letters.first(), 1, "hello")
        && is(three.letters.get(1), 2, "hi")
        && is(three.letters.get(2), 1, "again")
        && is(spaces.letters.first(), 64, "")
        && is(spaces.letters.get(1), 7, " a ~ ");
    same(
        &rt,
        (
            right,
            three.senders,
            three.letters.len(),
            spaces.senders,
            spaces.letters.len(),
        ),
        (true, 2, 3, 64, 2),
        "",
    );
    same(&rt, (none.senders, none.letters.len()), (1, 0), "");
    Ok(())
}

#[test]
fn tells_the_end_of_each_truncated_text_of_mail(rt: HostRuntime) {
    let mut number = 1u64;
    for (len, byte) in THREE.iter().enumerate() {
        let fault = refusal_of(rt.alloc(), &THREE[..len]);
        same(&rt, fault, Some(Refusal::Text(number, TextCause::End)), len);
        if *byte == 10 {
            number = number.saturating_add(1);
        }
    }
}

/// Faulty texts: the line, and for what.
const FAULTS: [(&[u8], u64, TextCause); 18] = [
    (b"", 1, TextCause::End),
    (b"mail 65 0\n", 1, TextCause::Range),
    (b"mail 0 0\n", 1, TextCause::Range),
    (b"mail 1 100001\n", 1, TextCause::Range),
    (b"mail 1\n", 1, TextCause::Form),
    (b"mail 01 0\n", 1, TextCause::Form),
    (b"mail 65 x\n", 1, TextCause::Form),
    (b"mail 2 1\n3 hello\n", 2, TextCause::Range),
    (b"mail 2 1\n0 hello\n", 2, TextCause::Range),
    (b"mail 2 1\n1\n", 2, TextCause::Form),
    (b"mail 2 1\n01 hello\n", 2, TextCause::Form),
    (b"mail 2 1\n hello\n", 2, TextCause::Form),
    (b"mail 2 1\nhello\n", 2, TextCause::Form),
    (b"mail 2 1\n3 hello\r\n", 2, TextCause::Form),
    (b"mail 2 1\n1 hell\xc8\n", 2, TextCause::Form),
    (b"mail 2 2\n1 hello\n3 hi\n", 3, TextCause::Range),
    (b"mail 2 1\n1 hello\n1 hi\n", 3, TextCause::Extra),
    (b"mail 1 0\nx", 2, TextCause::Extra),
];

#[test]
fn tells_what_is_wrong_with_a_text_of_mail(rt: HostRuntime) {
    for (text, number, cause) in &FAULTS {
        let fault = refusal_of(rt.alloc(), text);
        same(
            &rt,
            fault,
            Some(Refusal::Text(*number, *cause)),
            format_args!("{number} {cause}"),
        );
    }
}
