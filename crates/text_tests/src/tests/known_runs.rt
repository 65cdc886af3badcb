//! Schedules of which a trace, a picture and a history were worked out by hand, and where one is refused.
use history::Refusal;

pub(crate) const FIRST: &str = "msq schedule 1
queue nonblocking
nodes 2
limit 1
actors 2
events 9
begin 1 enq 5
steps 1 10
begin 2 deq
steps 2 5
step 2 D13
give 2
begin 1 enq 6
give 1
begin 1 deq
";

pub(crate) const FIRST_HISTORY: &str = "history 3
1 enq 5 first 1 last 10 at 9 reply done
2 deq first 11 last 17 at 16 reply value 1 5
1 enq 6 first 18 last 18 at 18 reply refused 3
";

pub(crate) const FIRST_TABLE: &str = "yes
         9      1 enq 5 -> done
        16      2 deq -> value 1 5
        18      1 enq 6 -> refused 3
done             1
value            1
refused          1
";

pub(crate) const SHUT: &str = "msq schedule 2
queue two-lock
bits 32
nodes 2
limit 4294967295
actors 65535
events 4
begin 65535 shut
steps 65535 4
begin 1 deq
steps 1 4
";

/// A schedule with what is written of its run.
pub(crate) struct Run {
    pub(crate) schedule: &'static str,
    /// What `msq run` writes, and `msq check` reads.
    pub(crate) history: &'static str,
    /// What `msq check` writes of that: yes, and the table.
    pub(crate) table: &'static str,
}

/// Runs of the two schedules, and of one without events.
pub(crate) const RUNS: [Run; 3] = [
    Run {
        schedule: FIRST,
        history: FIRST_HISTORY,
        table: FIRST_TABLE,
    },
    Run {
        schedule: SHUT,
        history: "history 2
65535 shut first 1 last 4 at 3 reply done
1 deq first 5 last 8 at 8 reply refused 16
",
        table: "yes
         3  65535 shut -> done
         8      1 deq -> refused 16
done             1
refused          1
",
    },
    Run {
        schedule: "msq schedule 1
queue nonblocking
nodes 3
limit 100
actors 2
events 0
",
        history: "history 0
",
        table: "yes
",
    },
];

/// A line of the first schedule, what stands there in its place, and the line and the refusal of the event that is then refused.
pub(crate) type Stop = (&'static str, &'static str, u64, Refusal);

pub(crate) const STOPS: [Stop; 4] = [
    ("begin 1 enq 5", "begin 3 enq 5", 7, Refusal::NoSuchActor),
    ("give 1", "begin 1 deq", 14, Refusal::ActorBusy),
    ("step 2 D13", "step 2 D12", 11, Refusal::NotHere),
    ("give 2", "step 1 N1", 12, Refusal::IdleActor),
];
