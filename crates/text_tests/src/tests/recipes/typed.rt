//! Recipes, and the schedules that they stand for.
use crate::tests::trials::{Engine, does_by_any_piece};
use std::test::Fail;

pub(crate) const COMMENTED: &str = "msq schedule 3
# A push and a pop, each alone.
queue two-lock # two words

bits 24
nodes 3
limit 100
#
actors 2
begin 1 enq 5 # ten steps
finish 1
begin 2 deq
until 2 B5 # steps 2 9
until 2 B5
#finish 1
finish 2

end # here
";

// The same with spaces and tabs where they say nothing, ends of lines of two bytes, and no bits.
const SPACED: &str = " msq\tschedule  3 \t# one\r
queue\t two-lock# two words\r
 \t \r
\tnodes 3\t
limit   100
\r
    actors\t2 #
  begin 1 enq 5    # ten steps
\tfinish\t1\r
begin 2 deq \t
until 2 B5# steps 2 9
until 2 B5 \r
finish  2 # \t
 end\r
";

pub(crate) const COMMENTED_SCHEDULE: &str = "msq schedule 1
queue two-lock
nodes 3
limit 100
actors 2
events 5
begin 1 enq 5
steps 1 10
begin 2 deq
steps 2 4
steps 2 5
";

pub(crate) const REPEATED: &str = "msq schedule 3
queue nonblocking
bits 24
nodes 3
limit 100
actors 2
repeat 3
begin 1 enq 7
finish 1
# each push after the first takes the node that was given back
begin 2 deq
finish 2
end
repeat 2
end
repeat 1
begin 1 enq 9
give 1
end
end
";

pub(crate) const REPEATED_SCHEDULE: &str = "msq schedule 1
queue nonblocking
nodes 3
limit 100
actors 2
events 14
begin 1 enq 7
steps 1 10
begin 2 deq
steps 2 9
begin 1 enq 7
steps 1 11
begin 2 deq
steps 2 9
begin 1 enq 7
steps 1 11
begin 2 deq
steps 2 9
begin 1 enq 9
give 1
";

pub(crate) const SHUT: &str = "msq schedule 3
queue two-lock
bits 24
nodes 2
limit 100
actors 2
begin 2 shut
until 2 S9
step 2 S9
end
";

pub(crate) const SHUT_SCHEDULE: &str = "msq schedule 2
queue two-lock
bits 24
nodes 2
limit 100
actors 2
events 3
begin 2 shut
steps 2 3
step 2 S9
";

pub(crate) const SPLIT: &str = "msq schedule 3#2
queue two-lock
bits 32
nodes 2
limit 1
actors 1
end
";

pub(crate) const SPLIT_SCHEDULE: &str = "msq schedule 2
queue two-lock
bits 32
nodes 2
limit 1
actors 1
events 0
";

#[test]
fn writes_the_schedule_of_a_recipe(rt: HostRuntime) -> Result<(), Fail> {
    for (text, schedule) in [
        (COMMENTED, COMMENTED_SCHEDULE),
        (SPACED, COMMENTED_SCHEDULE),
        (REPEATED, REPEATED_SCHEDULE),
        (SHUT, SHUT_SCHEDULE),
        (SPLIT, SPLIT_SCHEDULE),
    ] {
        does_by_any_piece(&rt, rt.alloc(), Engine::Expand, text, 0, schedule)?;
    }
    Ok(())
}
