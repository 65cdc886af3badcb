//! The table of docs/FAULTS.md, which tools/pages writes from there.
use crate::lookups::Entry;

/// What is told of each refusal, by rising number.
pub static ENTRIES: [Entry; 16] = [
    Entry {
        number: "1",
        name: "NoNode",
        text: "1 NoNode
cause: at one step of an enqueue every node was in use: Fresh was N, the free list empty
what to do: let dequeues go first, or take more nodes (docs/QUEUES.md)
",
    },
    Entry {
        number: "2",
        name: "WornOut",
        text: "2 WornOut
cause: the count of the word named (Free, Next, Tail or Head) is the greatest one, and is never raised
what to do: make a new queue; one of a greater limit, or of another split (docs/QUEUES.md), lasts longer. After Next another enqueue takes another node
",
    },
    Entry {
        number: "3",
        name: "Busy",
        text: "3 Busy
cause: the actor gave up, at the start of a turn
what to do: make the call again; it did nothing, and a node that it got is in the actor's pocket
",
    },
    Entry {
        number: "4",
        name: "Memory",
        text: "4 Memory
cause: a growth, or the thread of a sender of letters, was refused
what to do: free memory, or take a smaller input; a queue that was to be closed comes back, what was handed to deal, to an office or to a send is given up. Else nothing was changed, but by dispatch and post
",
    },
    Entry {
        number: "5",
        name: "BadSize",
        text: "5 BadSize
cause: a size is out of its range (nodes or values, greatest count or limit, seats, actors, workers, jobs, letters), or all 2^64 - 1 step numbers are used
what to do: give work at least 3 nodes more than workers; a queue of nodes takes 2 to 2^D - 2 of them, 16,777,214 with 24 bits, a limit from 1 to 2^(64-D) - 1, and 1 to 65,535 seats. Ranges (docs/FORMATS.md) has them all
",
    },
    Entry {
        number: "6",
        name: "IdleActor",
        text: "6 IdleActor
cause: the actor that is to step, or to give up, has no call
what to do: begin one first, or take fewer steps
",
    },
    Entry {
        number: "7",
        name: "ActorBusy",
        text: "7 ActorBusy
cause: the actor that is to begin a call has one
what to do: let its call end first, or let it give up
",
    },
    Entry {
        number: "8",
        name: "NotHere",
        text: "8 NotHere
cause: the actor's next line isn't the one named; or it is to give up and isn't at the start of a turn (docs/LINES.md)
what to do: name the line at which it stands; let it step on
",
    },
    Entry {
        number: "9",
        name: "NoSuchActor",
        text: "9 NoSuchActor
cause: the actor's number is 0, or above that of actors
what to do: take one from 1 to the number in the line actors
",
    },
    Entry {
        number: "10",
        name: "Text",
        text: "10 Text
cause: the bytes aren't the text that is due: at the line named they end too soon (End), have another form (Form), have a number or a text out of its range (Range), or go on behind the last line (Extra). There are examples (docs/FORMATS.md) of each
what to do: mend the line named. At Form in line 1 see whether the command reads such a text: msq --help says which reads what. After End see whether the last line has its line feed, and after End and Extra whether the number in the header is right
",
    },
    Entry {
        number: "11",
        name: "Read",
        text: "11 Read
cause: the file can't be opened, or a read failed, also where it is larger than 1,099,511,627,776 bytes
what to do: see that the file is there and may be read. An empty name names no file
",
    },
    Entry {
        number: "12",
        name: "Write",
        text: "12 Write
cause: a write failed or took nothing; a prefix of the output is written, which may be empty
what to do: see to the place of the output (a full disk, a closed pipe, a limit on the size of files (docs/FAULTS.md))
",
    },
    Entry {
        number: "13",
        name: "Stranger",
        text: "13 Stranger
cause: a job, or its number, isn't in the list of jobs
what to do: hand in results, and push numbers, of this list's jobs alone
",
    },
    Entry {
        number: "14",
        name: "Double",
        text: "14 Double
cause: the result of this job is there already; the first one is kept
what to do: hand in each result once
",
    },
    Entry {
        number: "15",
        name: "Lost",
        text: "15 Lost
cause: a job has no result, since no worker has a thread, or a worker, or who hands out the jobs, was refused memory, met a worn word, or took a number of no job; or a letter isn't shown, isn't the next one of its sender, or is missing though no sender was refused, or as one found the queue shut
what to do: run the jobs, or send the letters, again
",
    },
    Entry {
        number: "16",
        name: "Closed",
        text: "16 Closed
cause: the queue was shut before; at a pop it was empty too
what to do: push no more; what is left can still be taken. Of a pop: nothing more will come
",
    },
];
