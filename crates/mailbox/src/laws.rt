//! The law of all queues that letters rest on.
ghost use Rattle.std.specs.Prelude.{List};
ghost use Rattle.history.specs.Seats.{Permit, Known, IsSound};
ghost use Rattle.history.specs.Values.{OnlyPops};
ghost use Rattle.mailbox.specs.Deliveries.{InOrder};

/// Where one seat alone may pop, what it took of each sender is a prefix of what that sender sent, in order, each once.
pub fn each_sender_is_taken_in_order()
    //= letters/in_order: Where one seat alone may pop, the bodies that it took of each sender are a prefix of those
    //=   that it has seen this sender push, in order, each once.
    ensures { (ps : List Permit) (k : Known) → IsSound ps k → OnlyPops ps k.number → InOrder k }
{}
