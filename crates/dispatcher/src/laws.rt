//! Laws of jobs that were run, each the contract of a function that does nothing.
ghost use Rattle.std.specs.Prelude.{◌≡◌, ◌∷◌, ℕ, List, [], map};
ghost use Rattle.history.specs.declared.rests.Rest.{Rest};
ghost use Rattle.history.specs.Rests.{left_of};
ghost use Rattle.history.specs.Ends.{Closes};
ghost use Rattle.job_results.specs.declared.jobs.Job.{Job};
ghost use Rattle.dispatcher.specs.declared.crews.JobsRun.{JobsRun};
ghost use Rattle.dispatcher.specs.Submissions.{WasUnshut};
ghost use Rattle.dispatcher.specs.Crews.{HasRun};
ghost use Rattle.dispatcher.specs.Goings.{seats_in};
ghost use Rattle.dispatcher.specs.Laws.{AreNewSeats, AreAnsweredOrLeft, OneFinished};

use crate::gate::Gate;
use history::Fifo;

/// Once a new queue is closed by all its seats, each number that the submitter pushed was answered by one worker, once, or is
/// left in the queue, once; and nothing is left where a worker found the queue shut and empty.
pub fn each_number_is_answered_once_or_left<Q: Fifo, G: Gate>()
    //= jobs/once (once, all): Of jobs that were run on a new queue, by all its seats, of which the giver's alone may push: once
    //=   these close it, each number that the submitter pushed was answered by a worker once, or is left once, and not both;
    //=   where a worker found the queue shut and empty, none is left.
    ensures once { (queue : Q) (jobs : List Job) (gate : G)
        (giver : Q.Seat) (takers : List Q.Seat) (run : JobsRun Q.Seat) (rest : Rest)
        → (ran : HasRun Q.is_seat Q.known Q.push_cause Q.pop_cause Q.shut_cause queue jobs
        (WasUnshut Q.is_seat Q.known Q.shut_cause queue) (G.done gate) giver takers run)
        → AreNewSeats (Q.permits queue) Q.known giver takers
        → Closes (Q.permits queue) (map Q.known (run.giver.seat ∷ seats_in run.workers.items)) rest
        → AreAnsweredOrLeft ran.given.offered.count run.workers.items rest }
    ensures all { (queue : Q) (jobs : List Job) (gate : G)
        (giver : Q.Seat) (takers : List Q.Seat) (run : JobsRun Q.Seat) (rest : Rest)
        → HasRun Q.is_seat Q.known Q.push_cause Q.pop_cause Q.shut_cause queue jobs
        (WasUnshut Q.is_seat Q.known Q.shut_cause queue) (G.done gate) giver takers run
        → AreNewSeats (Q.permits queue) Q.known giver takers
        → Closes (Q.permits queue) (map Q.known (run.giver.seat ∷ seats_in run.workers.items)) rest
        → OneFinished run.workers.items → left_of rest ≡ [] }
{}
