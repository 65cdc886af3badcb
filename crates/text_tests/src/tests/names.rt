//! The names as the lines are known by, and texts that name no line.
use crate::tests::comparisons::same;
use line_table::Line;

const NAMED: [(Line, &str); 45] = [
    (Line::N1, "N1"),
    (Line::N2, "N2"),
    (Line::N3, "N3"),
    (Line::N4, "N4"),
    (Line::N5, "N5"),
    (Line::F1, "F1"),
    (Line::F2, "F2"),
    (Line::F3, "F3"),
    (Line::E2, "E2"),
    (Line::E3, "E3"),
    (Line::E5, "E5"),
    (Line::E6, "E6"),
    (Line::E7, "E7"),
    (Line::E9, "E9"),
    (Line::E13, "E13"),
    (Line::E17, "E17"),
    (Line::D2, "D2"),
    (Line::D3, "D3"),
    (Line::D4, "D4"),
    (Line::D5, "D5"),
    (Line::D10, "D10"),
    (Line::D12, "D12"),
    (Line::D13, "D13"),
    (Line::A1, "A1"),
    (Line::A2, "A2"),
    (Line::A3, "A3"),
    (Line::A4, "A4"),
    (Line::A5, "A5"),
    (Line::A6, "A6"),
    (Line::A7, "A7"),
    (Line::B1, "B1"),
    (Line::B2, "B2"),
    (Line::B3, "B3"),
    (Line::B4, "B4"),
    (Line::B5, "B5"),
    (Line::B6, "B6"),
    (Line::S1, "S1"),
    (Line::S2, "S2"),
    (Line::S3, "S3"),
    (Line::S4, "S4"),
    (Line::S5, "S5"),
    (Line::S6, "S6"),
    (Line::S7, "S7"),
    (Line::S8, "S8"),
    (Line::S9, "S9"),
];

#[test]
fn each_line_has_its_name(rt: HostRuntime) {
    for (line, name) in &NAMED {
        same(
            &rt,
            (line.name(), Line::of_name(name.as_bytes())),
            (*name, Some(*line)),
            "",
        );
    }
}

/// Texts that name no line.
const NAMELESS: [&str; 16] = [
    "", "n1", "N", "N1 ", " N1", "N01", "E4", "E8", "E90", "E1", "D15", "D20", "A8", "B7", "F4",
    "N6",
];

#[test]
fn other_texts_name_no_line(rt: HostRuntime) {
    for text in &NAMELESS {
        same(&rt, Line::of_name(text.as_bytes()), None, text);
    }
}
