//! Calls, what they touch and what they see, and what is to be done between their steps.

/// What a call does.
#[derive(Clone, Copy, Debug, PartialEq, Eq)]
pub enum Task {
    /// Pushes a value.
    Push,
    /// Pops the value at the front.
    Pop,
    /// Ends all pushes.
    Shut,
    /// One end less of those that push.
    DropSender,
    /// One end less of those that pop.
    DropReceiver,
}

/// What calls wait for, and what is rung if there is more of it.
#[derive(Clone, Copy, Debug, PartialEq, Eq)]
pub enum Bell {
    /// Who listens waits for a value.
    Values,
    /// Who listens waits for room.
    Room,
}

/// What a call answers.
#[derive(Clone, Copy, Debug, PartialEq, Eq)]
pub enum Code {
    /// It is done.
    Done,
    /// There was no value, or no room, as its time was over.
    Nothing,
    /// Others were in the way, as its time was over.
    Busy,
    /// The queue is shut, or the other side has gone; a pop found no value either.
    Closed,
    /// A word of the queue is worn out.
    Worn,
}

/// Where a call stands, between two of its accesses.
#[derive(Clone, Copy, Debug, PartialEq, Eq)]
pub enum Phase {
    /// It looks, and isn't counted among those that listen.
    Looks,
    /// It found nothing, and will be counted.
    Listens,
    /// It is counted, and will hear how often the bell rang.
    Hears,
    /// It is counted, has heard, and looks again.
    LooksAgain,
    /// It was told to sleep: after that it will be counted no more.
    Slept,
    /// It won't sleep any more, and will be counted no more.
    Unlistens,
    /// It took what it waited for, and gives what the other side waits for.
    Gives,
    /// It took room, and can't use it.
    GivesBack,
    /// It ends a side, or the queue.
    Ends,
    /// It will see whether anybody listens to a bell that it has to ring.
    Rings,
    /// Somebody listens: it will ring.
    Adds,
    /// It has its answer.
    Finished,
}

/// What a call touches next: one atomic access, or one try of the queue.
#[derive(Clone, Copy, Debug, PartialEq, Eq)]
pub enum Access {
    /// Whether there is more to come of what this bell rings for, and then a try to take one of it.
    Look(Bell),
    /// One more of what this bell rings for: a push of the call's value, or room for one value.
    Give(Bell),
    /// One more listens to this bell.
    Count(Bell),
    /// One less listens to it.
    Uncount(Bell),
    /// How often it rang.
    Hear(Bell),
    /// How many listen to it.
    Listeners(Bell),
    /// One ring more.
    Ring(Bell),
    /// The queue is shut, or a side has one end less.
    End(Task),
    /// Nothing.
    Rest,
}

/// What it saw.
#[derive(Clone, Copy, Debug, PartialEq, Eq)]
pub enum Seen {
    /// A look did all that its call wants: a value for room, or room for a value. Or there was somebody.
    Got,
    /// A look took what its call waits for, and the call has still to give what the other side waits for.
    Took,
    /// There was none, or nobody.
    Nothing,
    /// Others were in the way.
    Busy,
    /// There never will be.
    Ended(Code),
}

/// What is to be done before the call's next step.
#[derive(Clone, Copy, Debug, PartialEq, Eq)]
pub enum Act {
    /// Nothing.
    GoOn,
    /// Others are to run.
    Yield,
    /// To sleep, unless this bell has rung since the call heard it.
    Sleep(Bell),
    /// To wake one that sleeps for this bell, if there is one.
    WakeOne(Bell),
    /// To wake all that sleep for it.
    WakeAll(Bell),
    /// Its answer is to be told.
    Tell(Code),
}

/// A call, between two of its accesses.
#[derive(Clone, Copy, Debug, PartialEq, Eq)]
pub struct Call {
    /// What it does.
    pub task: Task,
    /// It never waits.
    pub tries: bool,
    /// Where it stands.
    pub phase: Phase,
    /// Where it goes on once it is counted no more.
    pub next: Phase,
    /// What it will answer.
    pub code: Code,
    /// It slept, and may have been woken for what another one waits for too.
    pub woken: bool,
    /// Its time was over as it last looked at the clock.
    pub last: bool,
    /// How often it looked in vain before it listens.
    pub looks: u8,
    /// It has to ring the bell of values.
    pub rings_values: bool,
    /// It has to ring the bell of room.
    pub rings_room: bool,
    /// For all that sleep.
    pub rings_all: bool,
}
