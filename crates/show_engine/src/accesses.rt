//! What the lines do, by docs/LINES.md, which tools/pages writes from there.
use crate::frames::Meaning;
use line_table::Line;

/// The access of each line, in the order of the tables.
pub static ACCESSES: [Meaning<'static>; 45] = [
    Meaning {
        line: Line::N1,
        access: "f := Fresh",
    },
    Meaning {
        line: Line::N2,
        access: "top := Free",
    },
    Meaning {
        line: Line::N3,
        access: "next := next of top's node",
    },
    Meaning {
        line: Line::N4,
        access: "CAS(Free, top, <next.node, top.count+1>)",
    },
    Meaning {
        line: Line::N5,
        access: "CAS(Fresh, f, f+1)",
    },
    Meaning {
        line: Line::F1,
        access: "top := Free",
    },
    Meaning {
        line: Line::F2,
        access: "next of node := <top.node, mark>",
    },
    Meaning {
        line: Line::F3,
        access: "CAS(Free, top, <node, top.count+1>)",
    },
    Meaning {
        line: Line::E2,
        access: "value of node := val",
    },
    Meaning {
        line: Line::E3,
        access: "fetch_and on next of node, clearing the node bits; mark := the count found",
    },
    Meaning {
        line: Line::E5,
        access: "tail := Tail",
    },
    Meaning {
        line: Line::E6,
        access: "next := next of tail's node",
    },
    Meaning {
        line: Line::E7,
        access: "load Tail, compare with tail",
    },
    Meaning {
        line: Line::E9,
        access: "CAS(next of tail's node, next, <node, next.count+1>)",
    },
    Meaning {
        line: Line::E13,
        access: "CAS(Tail, tail, <next.node, tail.count+1>)",
    },
    Meaning {
        line: Line::E17,
        access: "CAS(Tail, tail, <node, tail.count+1>)",
    },
    Meaning {
        line: Line::D2,
        access: "head := Head",
    },
    Meaning {
        line: Line::D3,
        access: "tail := Tail",
    },
    Meaning {
        line: Line::D4,
        access: "next := next of head's node; the number of this step is kept",
    },
    Meaning {
        line: Line::D5,
        access: "load Head, compare with head",
    },
    Meaning {
        line: Line::D10,
        access: "CAS(Tail, tail, <next.node, tail.count+1>)",
    },
    Meaning {
        line: Line::D12,
        access: "val := value of next's node",
    },
    Meaning {
        line: Line::D13,
        access: "CAS(Head, head, <next.node, head.count+1>)",
    },
    Meaning {
        line: Line::A1,
        access: "value of node := val",
    },
    Meaning {
        line: Line::A2,
        access: "fetch_and on next of node, clearing the node bits",
    },
    Meaning {
        line: Line::A3,
        access: "CAS(T_lock, 0, own number)",
    },
    Meaning {
        line: Line::A4,
        access: "tail := Tail",
    },
    Meaning {
        line: Line::A5,
        access: "CAS(next of tail's node, <0,0>, <node,0>)",
    },
    Meaning {
        line: Line::A6,
        access: "Tail := <node,0>",
    },
    Meaning {
        line: Line::A7,
        access: "T_lock := 0",
    },
    Meaning {
        line: Line::B1,
        access: "CAS(H_lock, 0, own number)",
    },
    Meaning {
        line: Line::B2,
        access: "head := Head",
    },
    Meaning {
        line: Line::B3,
        access: "next := next of head's node; the number of this step is kept",
    },
    Meaning {
        line: Line::B4,
        access: "val := value of next's node",
    },
    Meaning {
        line: Line::B5,
        access: "Head := <next.node, head.count+1>",
    },
    Meaning {
        line: Line::B6,
        access: "H_lock := 0",
    },
    Meaning {
        line: Line::S1,
        access: "tail := Tail",
    },
    Meaning {
        line: Line::S2,
        access: "next := next of tail's node",
    },
    Meaning {
        line: Line::S3,
        access: "load Tail, compare with tail",
    },
    Meaning {
        line: Line::S4,
        access: "CAS(next of tail's node, next, <2^B - 1, next.count+1>)",
    },
    Meaning {
        line: Line::S5,
        access: "CAS(Tail, tail, <next.node, tail.count+1>)",
    },
    Meaning {
        line: Line::S6,
        access: "CAS(T_lock, 0, own number)",
    },
    Meaning {
        line: Line::S7,
        access: "tail := Tail",
    },
    Meaning {
        line: Line::S8,
        access: "CAS(next of tail's node, <0,0>, <2^B - 1,0>)",
    },
    Meaning {
        line: Line::S9,
        access: "T_lock := 0",
    },
];
