//! Laws of the lines: functions that do nothing, whose contracts are the laws.
ghost use Rattle.std.specs.Prelude.{◌≡◌, ◌≢◌, Contains, AllPairs};
ghost use Rattle.line_table.specs.declared.lines.Line.{Line};
ghost use Rattle.line_table.specs.Names.{name_of};

use crate::lines::Line;

/// No two lines have one name. Takes no memory.
pub fn names_tell_lines_apart()
    //= references/line_names: Each line has one name, is found by it alone, and stands in the list of all lines once.
    ensures { (a b : Line) → name_of a ≡ name_of b → a ≡ b }
{}

/// The list of all lines has each line, and none twice. Takes no memory.
#[tactic(auto, using(crate::proofs::Listing::lists_each, crate::proofs::Listing::lists_once))]
pub fn each_line_is_listed_once()
    //= references/line_names (each, once)
    ensures each { (line : Line) → Contains Line.ALL line }
    ensures once { AllPairs (λ a b. a ≢ b) Line.ALL }
{}
