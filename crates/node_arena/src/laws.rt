//! Laws of all traced worlds, and of all seats. Each is the contract of a function that does nothing.
ghost use Rattle.std.specs.Prelude.{◌≡◌};
ghost use Rattle.step_machine.specs.Entries.{entries};
ghost use Rattle.node_arena.specs.Traces.{Traced, IsTraced, PlaysToItsValues, CountsItsPops, KeepsWhatD4Found};
ghost use Rattle.node_arena.specs.Arenas.{Arena};
ghost use Rattle.node_arena.specs.declared.seats.Seat.{Seat};
ghost use Rattle.node_arena.specs.Seats.{EachSeatIsSound, IsSeat, IsReady};
ghost use Rattle.node_arena.specs.Moments.{EachMomentIsLinearizable};
ghost use Rattle.node_arena.specs.Courses.{StepsComeInOrder, EachStepHasOneWorld, EachCourseIsOfTheMachine, WhatEndedComesFirst};
ghost use Rattle.node_arena.specs.Courses.{EachStepTellsItsOperation, OtherChangesAreQuiet, ToldStepsAreSteps, WhatWasSeenIsSeen, SeenValuesAreSeen};
ghost use Rattle.node_arena.specs.Causes.{TakersMeetNoCause};
ghost use Rattle.node_arena.specs.AsMany.{LeavesAsMany, SeenEmptyOfValues};
ghost use Rattle.node_arena.specs.Hands.{EachSeatKnowsValues};
ghost use Rattle.node_arena.specs.Moves.{QuietStepsMoveNone, PushesGiveTheirSlot, PopsTakeTheirSlot};
ghost use Rattle.node_arena.specs.Moves.{ShutsMoveNone};
ghost use Rattle.node_arena.specs.Flags.{EachFlagIsSo};

/// Between any two atomic steps of any threads, whichever of them stopped and also where nodes are used again: a list of
/// begins, steps, give moves and rests leads from the opening world of the arena's setup to one with exactly the shared
/// words, in which each seat's actor stands as the seat says. Of the pushes, pops and shuts of that world's operations, by
/// rising place, each seat has seen the first ones, and just those by its actor are the seat's own. The history of that world is
/// placed and legal, and so linearizable.
pub fn every_moment_is_linearizable()
    //= atomics/moments: In each state of the rule, so whichever threads stopped, moves, rests too, lead from the
    //=   opening world of the arena's setup, with sizes in range, to a world with exactly the shared words and an actor
    //=   for each role, which stands as its seat knows it. Of that world's pushes, pops and shuts, by rising place, a
    //=   seat has seen a prefix, and its own are just its actor's. The history is placed, legal and linearizable.
    ensures { EachMomentIsLinearizable }
{}

/// Whichever worlds fit the states before and after a step: moves of its seat's actor alone lead from the one, at most two to the
/// world in which the step was made, and at most three to the other, which is the world that the step tells of, with exactly the
/// words of the table. So a state determines its world after each step.
pub fn each_step_has_one_world()
    //= atomics/steps: Whichever worlds fit the states before and after a step that a seat was told of, at most three moves
    //=   of its actor alone lead from the one to the other: a give or a rest, a begin, and the step. The other is the
    //=   world that the step tells of, with exactly the words of the table.
    ensures { EachStepHasOneWorld 2 3 }
{}

/// What each seat knew of the run before a step begins what the step's seat knows of it then.
pub fn steps_come_in_order()
    //= atomics/order: What any seat knew of the run before a step begins what the step's seat knows after it.
    ensures { StepsComeInOrder }
{}

/// In any states of the table, each by the rule and each after the one before by a step of a seat, or by a change of views in
/// which no seat is lost or knows less of the run: the worlds of which the steps tell lie on one list of moves from the opening
/// world, in the order of the steps. What had ended in one of them stands in each later one as it was, and before each operation
/// that began later; and the history of each is linearizable.
pub fn each_course_is_of_the_machine()
    //= atomics/courses: Of any states of the rule, each after the one before by a step that a seat was told of, or by a
    //=   change of views in which no seat is lost or knows less: the worlds after the steps lie on one list of moves from
    //=   the opening world, in the order of the steps. Each is a past of all later ones, and its history is linearizable.
    ensures { EachCourseIsOfTheMachine }
{}

/// What had ended after a step, in the world that it tells of, stands so after each later step of a course of the table, and ended
/// before each operation that begins with that step. So a call that returned before another one began comes first, in every
/// history of the course: in real time, as Herlihy and Wing say it, for all seats together.
pub fn what_ended_comes_first()
    //= atomics/real_time: What had ended after a step stands so after each later step of a course, and ended before each
    //=   operation that begins with that step.
    ensures { WhatEndedComesFirst }
{}

/// Each step of a seat takes the next number, and tells it to an operation of its actor: a new one where a call begins with it, which
/// ends with it where the step replies.
pub fn each_step_tells_its_operation()
    //= atomics/operations: A step takes the next number, and gives it to one operation of its seat's actor: to a new one
    //=   where a call begins with it, as its last one where the step replies.
    ensures { EachStepTellsItsOperation 1 }
{}

/// Whichever worlds fit the states before and after a step at a line at which its seat sees the whole history: the seat has then
/// seen what any seat had seen before. So a pop that begins after a push returned has seen that push.
pub fn what_was_seen_is_seen()
    //= atomics/seen_later: After a step at a line at which it sees the whole history a seat has seen what any seat had
    //=   seen before; and of values too, where the table carries them.
    ensures { WhatWasSeenIsSeen }
{}

/// The same of values: as what a seat has seen of values goes one by one with what it has seen of numbers, so does their order along
/// a course.
pub fn what_was_seen_of_values_is_seen<T>()
    //= atomics/seen_later
    ensures { SeenValuesAreSeen T }
{}

/// Of a table with slots too: each step that a seat is told of is a step of the queue's part of the table.
pub fn told_steps_are_steps<T>()
    //= atomics/course_steps: Each step that a call tells a seat of, of a table with slots too, is a step of a
    //=   course; where seats are dealt, cut in two, become one, meet or look, and where a token comes and takes in a
    //=   seat, no seat is lost or knows less of the run.
    ensures { ToldStepsAreSteps T }
{}

/// Each change of views that isn't a step keeps each seat among them, with what it knows of the run: where seats are dealt, are
/// cut in two, become one, meet or look, and where a token comes and takes in a seat.
pub fn other_changes_are_quiet()
    //= atomics/course_steps
    ensures { OtherChangesAreQuiet }
{}

/// The history of a traced world has just the entries of that world's operations that had their effect, by rising place:
/// the push of each enqueue that is done or has earned it, the pop of each dequeue that got a value or has earned it, and
/// the shut of each that is done or has earned it.
pub fn a_history_is_of_the_operations_that_had_their_effect()
    //= atomics/history: A traced world's history has just the entries of its operations that took effect, by rising
    //=   place, and leads from the empty queue to the values in its chain; Head's count is the number of its pops.
    ensures { (t : Traced) → IsTraced t → t.history ≡ entries t.world }
{}

/// The history of a traced world leads from the empty queue to the one that the chain from Head holds: each push puts its
/// value at the back, each pop takes the front one, and there is a shut exactly where the chain ends at a closed end.
pub fn a_history_plays_to_the_values()
    //= atomics/history
    ensures { (t : Traced) → IsTraced t → PlaysToItsValues t }
{}

/// In a traced world Head's count is the number of pops in the history.
pub fn heads_count_is_the_number_of_pops()
    //= atomics/history
    ensures { (t : Traced) → IsTraced t → CountsItsPops t }
{}

/// An actor whose last line was D4 has in its path how many entries there then were. Where it found null, Head's count is
/// above the one that it read, or these entries leave the queue empty and not shut. Where it found a closed end, they leave
/// the queue shut, and Head's count is above the one that it read, or they leave it empty too.
pub fn what_d4_found_stays_noted()
    //= atomics/noted: Between D4 and D5 of an actor that found null Head's count is above the one that it read, or the
    //=   entries at its D4 leave the queue empty and not shut. Where it found a closed end they leave it shut, and
    //=   Head's count is above, or they leave it empty too.
    ensures { (t : Traced) → IsTraced t → KeepsWhatD4Found t }
{}

/// What a seat of an arena knows is sound, before and after each call: what it has seen is the history of a
/// first-in-first-out list, each entry of it is permitted by its maker's role, and the seat's own entries are just those
/// that it has seen. After as many of them as each of its notes says the queue was empty, or shut.
pub fn what_a_seat_knows_is_sound<T>()
    //= atomics/sound: At any time what a seat knows is *sound*.
    ensures { EachSeatIsSound T }
{}

/// That a seat is an arena's has at most one proof, and so has that it is one in no call.
pub fn a_seat_is_an_arenas_once<T>()
    //= queues/one_fact (seat, ready)
    ensures seat { (r : Arena) (s : Seat T) → IsProp (IsSeat r s) }
    ensures ready { (r : Arena) (s : Seat T) → IsProp (IsReady r s) }
{}

/// The cause of a refusal is that of the call's last step: a call whose last step was the exchange that takes a node, won
/// or lost, doesn't meet the cause of NoNode, whatever other worlds have its path.
pub fn a_step_that_takes_a_node_is_not_refused<T>()
    //= atomics/met_cause: `NoNode`, `WornOut` and, of a queue's calls, `Closed` have their cause in a reachable traced
    //=   world of the arena in which the seat's actor, with the call's path so far, stands before the call's last line,
    //=   and that step's reply is the refusal. So no call whose last step was to take a node meets the cause of
    //=   `NoNode` (`MetCause`).
    ensures { TakersMeetNoCause T }
{}

/// Which slots a step of an arena that carries values moves is told by what it adds to its seat's own entries: a push gives
/// the slot whose number it pushes, with the value that lies in it, a pop takes the slot whose number it pops, with the
/// value that was pushed, and any other step moves none. What the seat has seen of the values ends with that deed.
pub fn a_step_moves_the_slot_of_what_it_adds<T>()
    //= atomics/moves (quiet, pushes, pops, shuts): A step that pushes gives the slot whose number it pushes, and adds
    //=   the push of the value in it. One that pops takes the slot whose number it pops, and adds the pop of the value
    //=   in it. A shut moves none, and adds the shut. No other step moves a slot.
    ensures quiet { QuietStepsMoveNone T }
    ensures pushes { PushesGiveTheirSlot T }
    ensures pops { PopsTakeTheirSlot T }
    ensures shuts { ShutsMoveNone T }
{}

/// Between any two atomic steps of any threads the flag of a slot is up where the slot is out with a seat, or holds a value of
/// the queue, and there alone: each other slot of an arena that carries values is empty, and free for whoever gets it first.
pub fn a_flag_is_up_for_a_slot_that_is_out_or_queued<T>()
    //= atomics/flags: In each state of the rule of an arena that carries values the flags that are up are just those of
    //=   the slots that are out with a seat, and of those whose numbers are in the queue to which the history leads. Each
    //=   other slot is empty.
    ensures { EachFlagIsSo T }
{}

/// What a seat of an arena that carries values has seen of them goes one by one with the entries that it has seen, leads
/// from the empty queue to some values, and the slot that is out with it is one of the arena's.
pub fn what_a_seat_knows_of_values_is_so<T>()
    //= atomics/values: At any time what a seat of an arena that carries values has seen of them is the history of a
    //=   first-in-first-out list, and goes one by one with the entries that it has seen.
    ensures { EachSeatKnowsValues T }
{}

/// A history of values that goes one by one with one of numbers leaves as many of them, of the same seats in the same order,
/// and the queue shut or not as that does. So where a seat saw that the queue held no number, it held no value.
pub fn as_many_values_are_left_as_numbers<T>()
    //= atomics/as_many (left, empty): A history of values that goes one by one with that of the numbers leaves as many,
    //=   of the same seats in the same order. So where a seat has seen that the queue was empty, shut or not, what it has
    //=   seen of values by then leaves none.
    ensures left { LeavesAsMany T }
    ensures empty { SeenEmptyOfValues T }
{}
