//! Laws of rings at any moment, and of their lines. Each is the contract of a function that does nothing.
ghost use Rattle.ring_queue.specs.Moments.{EachMomentIsLinearizable, NamesWhoHoldsUp, SlotsAreDetermined};
ghost use Rattle.ring_queue.specs.Shares.{OthersPay};
ghost use Rattle.ring_queue.specs.Alone.{OthersHoldUpNoPush};
ghost use Rattle.ring_queue.specs.Courses.{EachStepAddsItsAccess, StepsComeInOrder};
ghost use Rattle.ring_queue.specs.Courses.{WhatWasSeenIsSeen, EachCourseIsOfOneRun};
ghost use Rattle.ring_queue.specs.Courses.{WhatWasDoneComesFirst, EachLineTells};
ghost use Rattle.ring_queue.specs.Courses.{ToldStepsAreSteps, OtherChangesAreQuiet};

/// Between any two atomic steps of any threads, whichever of them stopped: one history of permitted pushes, pops and shuts leads
/// to the queue that the words and the seats show. What it pushed is, in order and each once, what it popped and then what is in
/// the queue. Each seat has seen the first entries of it, and just those by it are its own.
pub fn every_moment_is_linearizable()
    //= ring/moments: In each state of the rule, so whichever threads stopped, one history of permitted
    //=   entries leads to the queue that the words show: from Head up to Tail there is a place for each of
    //=   its values, never more than the ring has room for. The word of each slot is that of the last of its
    //=   places that was claimed, or one seat, and no other, stands with this claimed, and has the history's
    //=   value to fill it with. What was pushed is, in order and each once, what was popped, as often as Head
    //=   says, and then what is in the queue. Each seat of the table has seen a prefix of the history, and
    //=   its own entries are just those of its number. One list of accesses, each by a row of the lines,
    //=   leaves these words and the history, and begins with what each seat knows of it, behind which stand
    //=   none of its own.
    ensures { EachMomentIsLinearizable }
{}

/// Pops are held up where Head's place was claimed and the word of its slot isn't of its lap: then one seat alone stands with it
/// claimed, before C4, and will fill it with the front value.
pub fn who_holds_pops_up_is_named()
    //= ring/held_up: In each state of the rule in which Head's place was claimed and isn't filled, just one seat stands with that
    //=   place claimed, and has the front value to fill it with.
    ensures { NamesWhoHoldsUp }
{}

/// What each slot holds is determined by the history, by where the seats stand, and by how many places were claimed.
pub fn slots_are_determined()
    //= ring/slots_determined: Two moments with one history, the same seats and as many places claimed have the same word in each slot.
    ensures { SlotsAreDetermined }
{}

/// Whichever runs fit the states before and after a step: the one is the other with just the access of which
/// the step tells, and the history goes on with what took its effect with this access, all of which is its
/// seat's own. So a state determines its run after each step, and nothing comes between.
pub fn each_step_adds_its_access()
    //= ring/steps: Whichever runs fit the states before and after a step that a seat was told of: the later
    //=   one is the earlier one with just the step's access at its end, and the step's seat then knows of all
    //=   of it. The history goes on with what took its effect with this access, which is all its seat's own;
    //=   and the seat's own entries are just those of its number in the history.
    ensures { EachStepAddsItsAccess }
{}

/// What any seat knew of the run before a step is a beginning of what the step's seat knows of it then.
pub fn steps_come_in_order()
    //= ring/order: What any seat knew of the run before a step is a beginning of what the step's seat knows
    //=   after it.
    ensures { StepsComeInOrder }
{}

/// After each step but one that fills a place, its seat has seen what any seat had seen before.
pub fn what_was_seen_is_seen()
    //= ring/seen_later: After each step but one that fills a place, its seat has seen what any seat had seen
    //=   before.
    ensures { WhatWasSeenIsSeen }
{}

/// In any states of the table, each by the rule and each after the one before by a step of a seat, or by a
/// change of views in which no seat is lost or knows less of the run: the runs of which the steps tell are
/// one, which goes on from each step to all later ones, and what took its effect with each of them is the
/// history of a first-in-first-out queue.
pub fn each_course_is_of_one_run()
    //= ring/courses: Of any states of the rule, each after the one before by a step that a seat was told of,
    //=   or by a change of views in which no seat is lost or knows less of the run: what the steps' seats
    //=   then know of the run goes on from each step to all later ones, and leads to the history of a queue.
    ensures { EachCourseIsOfOneRun }
{}

/// The run of which a step of a course tells goes on to that of each later step, by accesses of any seats
/// between them, and then by the later step's own access: so what had taken its effect with the first comes
/// in the history before what takes its effect with the later one, and the later one's seat has seen it, but
/// where it fills a place. As each call takes its effect at a step of its own, a call that returned before
/// another one began comes first: in real time, as Herlihy and Wing say it, for all seats together.
pub fn what_was_done_comes_first()
    //= ring/real_time: Of two steps of a course the history after the later one begins with that after the
    //=   first, goes on with what other accesses added between them, and ends with what the later one adds;
    //=   and the later one's seat has seen what the first one's had then seen, but where it fills a place.
    ensures { WhatWasDoneComesFirst }
{}

/// Of a table with slots too: each step of which a line tells its seat is a step of the queue's part of the
/// table.
pub fn told_steps_are_steps<T>()
    //= ring/course_steps (lines, steps): What each line tells its seat names the access that it made; and a
    //=   step by which a seat of a table, with slots too, is told so is a step of a course. Where seats are
    //=   dealt, cut in two, become one, or meet, and where a token comes and takes in a seat, no seat is lost
    //=   or knows less of the run.
    ensures lines { EachLineTells }
    ensures steps { ToldStepsAreSteps T }
{}

/// Each change of views that isn't a step keeps each seat among them, with what it knows of the run.
pub fn other_changes_are_quiet()
    //= ring/course_steps
    ensures { OtherChangesAreQuiet }
{}

/// The claims that a seat lost in a ring that wasn't shut are no more than the pushes of others, and the exchanges of Head that it lost no
/// more than the pops of others.
pub fn others_pay_for_failed_turns()
    //= ring/others_pay: In each state of the rule, by each seat's path: the exchanges of Tail that it lost while the ring wasn't shut are,
    //=   with its own pushes, no more than all pushes; and the exchanges of Head that it lost are, with its own pops, no more than all
    //=   pops. So each was lost to an effect of another seat.
    ensures { OthersPay }
{}

/// Wherever others stopped, also within a push, a seat that has no place to fill ends alone: a push with four
/// accesses where there is room, a pop with three where the front place is filled, and one that finds no value
/// with three. So a stopped push holds up pops alone, from its own place on.
pub fn others_hold_up_no_push()
    //= ring/alone: In each state of the rule, so whichever threads stopped, a seat that has no place to fill
    //=   may make these accesses alone, each by its row, and rests then: the four of a push, where the words
    //=   have room; the three of a pop, where the word of the front place is of its lap; and the three of a
    //=   pop that finds no value, where Tail is at Head.
    ensures { OthersHoldUpNoPush }
{}
