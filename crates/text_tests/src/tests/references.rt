//! Words and answers typed from the table of the format, and what the derives write.
use crate::tests::comparisons::same;
use counted_ref::{CountedRef, CountedRefOf, MOST_COUNT, MOST_NODE, most_count, most_node};

#[test]
fn packs_and_unpacks_the_words_of_the_format(rt: HostRuntime) {
    for (node, count, word) in [
        (0, 0, 0),
        (1, 0, 1),
        (2, 1, 16_777_218),
        (16_777_214, 1_099_511_627_775, 18_446_744_073_709_551_614),
    ] {
        let reference = CountedRef::new(node, count);
        let found = CountedRef::from_word(word);
        let parts = found.map(|it| (it.node(), it.count(), it.same(reference)));
        same(
            &rt,
            (
                reference.word(),
                reference.is_null(),
                reference.is_shut(),
                parts,
            ),
            (word, node == 0, false, Some((node, count, true))),
            format_args!("<{node},{count}>"),
        );
    }
}

#[test]
fn reads_and_makes_closed_ends(rt: HostRuntime) {
    for (count, word) in [
        (0, 16_777_215),
        (1, 33_554_431),
        (1_099_511_627_775, 18_446_744_073_709_551_615),
    ] {
        let closed = CountedRef::shut(count);
        let found = CountedRef::from_word(word);
        let parts = found.map(|it| (it.is_shut(), it.is_null(), it.count(), it.same(closed)));
        same(
            &rt,
            (closed.word(), parts),
            (word, Some((true, false, count, true))),
            format_args!("closed end {count}"),
        );
    }
}

#[test]
fn packs_words_of_16_and_of_32_bits(rt: HostRuntime) {
    let words = (
        CountedRefOf::<16>::new(2, 1).word(),
        CountedRefOf::<32>::new(2, 1).word(),
        CountedRefOf::<16>::shut(1).word(),
        CountedRefOf::<32>::shut(1).word(),
    );
    same(
        &rt,
        words,
        (65_538, 4_294_967_298, 131_071, 8_589_934_591),
        "",
    );
}

#[test]
fn counts_further_where_fewer_bits_hold_the_node(rt: HostRuntime) {
    for (bits, node, count) in [
        (16, 65_534, 281_474_976_710_655),
        (24, MOST_NODE, MOST_COUNT),
        (24, 16_777_214, 1_099_511_627_775),
        (32, 4_294_967_294, 4_294_967_295),
    ] {
        let greatest = (most_node(bits), most_count(bits));
        same(&rt, greatest, (node, count), format_args!("{bits} bits"));
    }
}

#[test]
fn raises_below_the_limit_alone(rt: HostRuntime) {
    let once = CountedRef::new(1, 0).raised(7, 1);
    let twice = CountedRef::new(2, 1).raised(7, 1);
    same(&rt, (once, twice), (Some(CountedRef::new(7, 1)), None), "");
}

#[test]
fn tells_references_apart_by_node_and_by_count(rt: HostRuntime) {
    let reference = CountedRef::new(2, 1);
    for (other, want) in [
        (CountedRef::new(2, 1), true),
        (CountedRef::new(3, 1), false),
        (CountedRef::new(2, 0), false),
    ] {
        let answers = (reference.same(other), reference == other);
        same(&rt, answers, (want, want), format_args!("as {other:?}"));
    }
}
