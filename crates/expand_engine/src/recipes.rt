//! What the lines of a recipe say, and which line is due.
use history::Op;
use line_table::{Kind, Line};
use schedule_text::{Event, Field};

/// How often a repeat is done at most.
pub const MOST_TIMES: u64 = 1_000_000;

/// As how many steps the acts of a recipe count at most, each as often as it is done.
pub const MOST_STEPS: u64 = 100_000_000;

/// As how many steps an act counts at least.
const LEAST_STEPS: u32 = 100;

/// What a line of a recipe says, less its comment.
#[derive(Clone, Copy)]
pub enum Said {
    /// Nothing: the line is empty, or a comment alone.
    Nothing,
    /// That the text is a recipe.
    Version,
    /// The queue.
    Queue(Kind),
    /// A number of the header.
    Number(Field, u64),
    /// An event of a schedule.
    Happens(Event),
    /// This actor takes steps until it stands before this line.
    Until(u16, Line),
    /// This actor takes steps until its call ends.
    Finish(u16),
    /// The acts down to the next end are done so often.
    Repeat(u64),
    /// The repeat, or else the recipe, ends here.
    End,
}

impl Said {
    ghost use Rattle.std.specs.Prelude.{◌≡◌, ◌<◌, ◌^◌};
    ghost use Rattle.expand_engine.specs.Recipes.{is_act, says_nothing, weight};
    ghost use Rattle.expand_engine.specs.UnrolledActs.{is_end};

    /// Whether this is an act: something that actors do. Takes no memory and doesn't wait.
    pub fn is_act(&self) -> bool
        ensures { result ≡ is_act self.now }
    {
        match self {
            Said::Happens(_) | Said::Until(_, _) | Said::Finish(_) => true,
            _ => false,
        }
    }

    /// As how many steps this counts, where it is an act: as those of an event that tells them, and as 100 at least. Takes no memory
    /// and doesn't wait.
    pub fn weight(&self) -> u64
        ensures weight { result ≡ weight self.now }
        ensures few { result < 2 ^ 32 }
    {
        let count = match self {
            Said::Happens(Event::Steps(_, count)) => *count,
            _ => LEAST_STEPS,
        };
        if count <= LEAST_STEPS {
            return u64::from(LEAST_STEPS);
        }
        u64::from(count)
    }

    /// Whether this is nothing. Takes no memory and doesn't wait.
    pub fn says_nothing(&self) -> bool
        ensures { result ≡ says_nothing self.now }
    {
        match self {
            Said::Nothing => true,
            _ => false,
        }
    }

    /// Whether this ends what is open. Takes no memory and doesn't wait.
    pub fn is_end(&self) -> bool
        ensures { result ≡ is_end self.now }
    {
        match self {
            Said::End => true,
            _ => false,
        }
    }
}

/// Which line of a recipe is due.
#[derive(Clone, Copy)]
pub enum Due {
    /// The version.
    Version,
    /// The queue.
    Queue,
    /// This number of the header, where so many bits hold a node; in place of the bits also the nodes.
    Number(u32, Field),
    /// An act, a repeat or the recipe's end, where the acts so far count as so many steps.
    Act(u64),
    /// An act or the repeat's end, where the acts so far count as so many steps, and each act is done so often.
    Repeated(u64, u64),
    /// None.
    Nothing,
}

/// An act of a recipe, and the number of its line, from 1.
#[derive(Clone, Copy)]
pub struct Act {
    pub line: u64,
    pub said: Said,
}

/// The queue of a recipe, its sizes, and how many actors there are.
#[derive(Clone, Copy)]
pub struct Sizes {
    pub kind: Kind,
    /// How many of a word's bits hold a node.
    pub bits: u32,
    pub nodes: u32,
    pub limit: u64,
    pub actors: u16,
}

/// A recipe: its text, and what each line of it says.
#[derive(Drop)]
pub struct Recipe {
    pub text: Vec<u8>,
    pub sizes: Sizes,
    pub lines: Vec<Said>,
}
