//! Each queue on running atomics beside the machine, call by call; and an actor of the machine that goes on beside one that
//! has stopped.
mod agreement;
mod answers;
mod halts;
mod pairs;
mod queues;
mod stopped_actors;
mod stops;
mod world_calls;
