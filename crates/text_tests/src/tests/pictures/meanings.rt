//! What lines mean, and a picture behind which it is told.
use line_table::Line;
use show_engine::Meaning;

/// Meanings of lines, of which one isn't at a row of the picture.
pub(crate) const MEANINGS: [Meaning<'static>; 3] = [
    Meaning {
        line: Line::E17,
        access: "swings",
    },
    Meaning {
        line: Line::E9,
        access: "links the node, in a row that is longer than forty columns are",
    },
    Meaning {
        line: Line::E7,
        access: "looks",
    },
];

/// Two steps of one actor, in few columns, with the meanings of their lines.
pub(crate) const LEGEND_PICTURE: &str =
    "queue nonblocking, bits 32, nodes 4294967294, limit 4294967295, actors 300
 actor  4
    48  E7 Tail <5,4>       | Head 1 2 3 4 ~
    49 *E9 5.next := <6,1>  | Head 1 2 3 4 ~
steps 48 to 49 of 50, actors 4 to 4 of 300
E9  links the node, in a row that is longer~
E7  looks
";
