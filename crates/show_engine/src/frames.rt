//! What of a run is shown, and in which columns.
ghost use Rattle.std.specs.Prelude.{◌≡◌, ◌≤◌, ◌<◌, ◌^◌};
ghost use Rattle.show_engine.specs.Frames.{IsFitting, column_of, end_of, frame_of, has_column, shown_within, shows, width_of};

use line_table::Line;

/// What a line does, as it is told.
#[derive(Clone, Copy)]
pub struct Meaning<'a> {
    pub line: Line,
    /// Its access of a shared word.
    pub access: &'a str,
}

/// What of a run is shown.
#[derive(Clone, Copy)]
pub struct View<'a> {
    /// How many columns a row has at most, 40 to 190; below that it is 40, and above it 190.
    pub width: u32,
    /// The number of the first step.
    pub from: u64,
    /// The number of the last step; 0 for a hundred steps.
    pub to: u64,
    /// The one actor that is shown; 0 for as many as have room, from actor 1 on.
    pub actor: u32,
    /// What is told behind a picture of each line in its rows, in this order.
    pub legend: &'a [Meaning<'a>],
}

/// The columns of a picture, the numbers of its steps, and its actors.
#[derive(Clone, Copy)]
pub struct Frame {
    /// How many columns a row has at most.
    pub width: usize,
    /// The column of the chains.
    pub side: usize,
    /// How many columns an actor's text begins behind that of the one before.
    pub column: usize,
    /// The number of the first step.
    pub from: u64,
    /// The number of the last step, if there are so many.
    pub to: u64,
    /// The first actor.
    pub first: u64,
    /// How many actors there are from that one on.
    pub count: u64,
}

impl View<'_> {
    /// How many columns a row has at most.
    pub(crate) fn columns(self) -> u32
        ensures value { result ≡ width_of self.entry }
        ensures some { 40 ≤ result }
        ensures narrow { result ≤ 190 }
    {
        self.width.min(190).max(40)
    }

    /// The number of the last step that may be shown.
    pub(crate) fn last_step(self) -> u64
        ensures { result ≡ end_of self.entry }
    {
        if self.to == 0 {
            self.from.saturating_add(99)
        } else {
            self.to
        }
    }
}

/// How many of so many actors are shown, which have so many columns with the numbers.
fn shown_of(view: View<'_>, room: u32, actors: u16) -> u32
    requires { 15 ≤ room }
    ensures count { result ≡ shown_within view.entry room actors }
    ensures some { 1 ≤ actors → 1 ≤ result }
    ensures few { result < 2 ^ 16 }
{
    if view.actor == 0 {
        u32::from(actors).min((room - 7) / 8)
    } else {
        1
    }
}

impl Frame {
    /// The frame of a view of a run of so many actors.
    pub(crate) fn of(view: View<'_>, actors: u16) -> Frame
        requires { 1 ≤ actors }
        ensures frame { result ≡ frame_of view.entry actors }
        ensures fits { IsFitting result }
    {
        let width = view.columns();
        let room = width * 5 / 8;
        let count = shown_of(view, room, actors);
        Frame {
            width: width as usize,
            side: room.min(25 + 12 * count) as usize,
            column: ((room - 7) / count).min(12) as usize,
            from: view.from,
            to: view.last_step(),
            first: u64::from(view.actor.max(1)),
            count: u64::from(count),
        }
    }

    /// Whether this actor has a column.
    pub(crate) fn has_column(self, actor: u16) -> bool
        requires { IsFitting self }
        ensures { result ≡ has_column self actor }
    {
        let actor = u64::from(actor);
        self.first <= actor && actor < self.first + self.count
    }

    /// Whether a move at this number by this actor is shown.
    pub(crate) fn shows(self, number: u64, actor: u16) -> bool
        requires { IsFitting self }
        ensures { result ≡ shows self number actor }
    {
        self.from <= number && number <= self.to && self.has_column(actor)
    }

    /// The column at which the text of this actor begins.
    pub(crate) fn column_of(self, actor: u64) -> usize
        requires { IsFitting self }
        ensures column { result ≡ column_of self actor }
        ensures within { result < self.width }
    {
        let offset = actor.saturating_sub(self.first) as usize;
        offset
            .saturating_mul(self.column)
            .saturating_add(7)
            .min(self.side)
    }
}
